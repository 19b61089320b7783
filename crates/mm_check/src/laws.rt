//! The laws of what is told of the premises.

ghost use Rattle.std.specs.Prelude.{ℕ, List};
ghost use Rattle.mm_digest.specs.declared.variant.Variant.{Variant};
ghost use Rattle.mm_module.specs.Meaning.{Meaning};
ghost use Rattle.mm_call.specs.Standing.{instance_by};
ghost use Rattle.mm_schedule.specs.Events.{Event};
ghost use Rattle.mm_check.specs.Numbering.{IsToldByEvidence, EvidenceIsHeld, PremiseIsFixed};

use mm_history::names_are_decided;

/// One premise alone is told of a run: so each is told exactly where it is defined to be.
pub fn premise_is_fixed()
    ensures { PremiseIsFixed }
{}

/// Of each run one premise alone is told, and what is told is evidence that one holds in hand, by
/// the numbers of messages and events: two different messages with one digest, a message with
/// digest zero, a value of others that is a guard, or an offer that is forged. Or the premises
/// hold.
pub fn premise_is_evidence()
    ensures told { (variant : Variant) (meaning : Meaning) (key barrier : List ℕ)
        (events : List Event)
        → IsToldByEvidence (instance_by variant meaning key barrier) events }
    ensures held { (variant : Variant) (meaning : Meaning) (key barrier : List ℕ)
        (events : List Event)
        → EvidenceIsHeld (instance_by variant meaning key barrier) events }
{
    premise_is_fixed();
    names_are_decided();
}
