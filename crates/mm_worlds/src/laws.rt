//! The laws of a world, each the contract of a function that does nothing, or calls what it needs.

ghost use Rattle.mm_worlds.specs.OneWorld.{BasicWorldIsOne, EvidenceIsNoPremise, OptEvidenceIsNoPremise, OptWorldIsOne, OptWorldIsOneOrEvidence, WorldIsOneOrEvidence, WorldsKeepPromises};

use mm_life::parts_are_refused_elsewhere;
use mm_schedule::laws::runs_keep_promises;

/// Basic: whatever is done on any number of platforms behind a first start on one of them, programs
/// over whatever is in their slots, moves in any order and number, each at any moment: there is one
/// list of requests, and all that programs tell are steps on it; and the module is on one platform,
/// which stands for a history of this list, or on its way.
pub fn basic_world_is_one()
    ensures { BasicWorldIsOne }
{
    parts_are_refused_elsewhere();
}

/// Opt: the same, from a register that others had extended. A platform's own register is taken over
/// where the module enters.
pub fn opt_world_is_one()
    ensures { OptWorldIsOne }
{
    parts_are_refused_elsewhere();
}

/// With no premise but the start: it is one world, or one holds evidence in hand, a clash of two
/// messages, or a part that breaks something: an offer or a ticket that is right, and wasn't handed
/// out, or a nonce that is used twice.
pub fn world_is_one_or_evidence()
    ensures { WorldIsOneOrEvidence }
{
    basic_world_is_one();
}

/// A world that meets the premises gives no evidence.
pub fn evidence_is_no_premise()
    ensures { EvidenceIsNoPremise }
{}

/// Opt: with no premise but the start, and registers that are told where tickets are offered: it is
/// one world, or one holds evidence in hand, besides what it is in Basic a value of others that is
/// the guard of a batch.
pub fn opt_world_is_one_or_evidence()
    ensures { OptWorldIsOneOrEvidence }
{
    opt_world_is_one();
}

/// In Opt, too, a world that meets the premises gives no evidence.
pub fn opt_evidence_is_no_premise()
    ensures { OptEvidenceIsNoPremise }
{}

/// What a module promises of one run holds over all platforms together: a limiter gives no more
/// wrong guesses than it has tries between two `set` or `open`, wherever it is asked.
pub fn worlds_keep_promises()
    ensures { WorldsKeepPromises }
{
    runs_keep_promises();
}
