//! The laws of evidence, each the contract of a function that does nothing but call the laws that
//! it follows from.

ghost use Rattle.std.specs.Prelude.{◌≤◌, ℕ, List};
ghost use Rattle.mm_bytes.specs.Limits.{last_position};
ghost use Rattle.mm_digest.specs.declared.variant.Variant.{Variant};
ghost use Rattle.mm_module.specs.Meaning.{IsLawful, Meaning};
ghost use Rattle.mm_model.specs.History.{total_of};
ghost use Rattle.mm_call.specs.Standing.{instance_by};
ghost use Rattle.mm_schedule.specs.Events.{Event};
ghost use Rattle.mm_outcome.specs.Premises.{outcome_by_lists};
ghost use Rattle.mm_evidence.specs.Laws.{IsDecidedRun, IsOneRunOrEvidence, FrontsAreLongest, ForgedAreNew};

use mm_history::names_are_decided;
use mm_outcome::{fronts_are_one_run, issued_snapshots_name_positions};

/// A run meets the premises, or one holds evidence in hand; and never both.
pub fn premises_or_evidence()
    ensures { (variant : Variant) (meaning : Meaning) (key barrier : List ℕ)
        (events : List Event)
        → IsDecidedRun (instance_by variant meaning key barrier) events }
{
    names_are_decided();
}

/// Of every schedule the replies are those of one run of the module on one list of requests, up to
/// the first event at which one holds evidence in hand. The events before it are the longest first
/// part that meets the premises; of each first part of these it is one run.
pub fn one_run_or_evidence()
    ensures one { (variant : Variant) (meaning : Meaning) (key barrier : List ℕ)
        (events : List Event)
        → IsOneRunOrEvidence (instance_by variant meaning key barrier) events }
    ensures longest { (variant : Variant) (meaning : Meaning) (key barrier : List ℕ)
        (events : List Event)
        → FrontsAreLongest (instance_by variant meaning key barrier) events }
{
    premises_or_evidence();
    fronts_are_one_run();
}

/// A forged offer is none of the snapshots that the run issued: its bytes are the event's own, or a
/// changed copy. So much may be believed of it without a look at what names a position.
pub fn forged_offers_are_new()
    ensures { (variant : Variant) (meaning : Meaning) (key barrier : List ℕ)
        (events : List Event) → IsLawful meaning
        → total_of (outcome_by_lists (instance_by variant meaning key barrier) events).state.batches
        ≤ last_position
        → ForgedAreNew (instance_by variant meaning key barrier) events }
{
    issued_snapshots_name_positions();
}
