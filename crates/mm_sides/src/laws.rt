//! The laws of two sides, each the contract of a function that does nothing.

ghost use Rattle.mm_sides.specs.Order.{RolesBegin, RolesSwap, RolesGoOn, RolesEnterLast, RolesAreOne};
ghost use Rattle.mm_sides.specs.Premises.{PairsAreDecided, PairFrontsAreLongest, OwnPremiseGivesPremise};
ghost use Rattle.mm_sides.specs.Laws.{PairsAgreeThroughout, OneIsLive, SidesRunAsOne, PairsGoOn, SidesIssueNames, PremisesAreMet};

use mm_history::names_are_decided;
use mm_outcome::premises_are_met;

/// The roles of two sides alone, where each nonce is invited once and each accepted ticket is one
/// that the module left by: at most one side is live, and the module enters one only where none is,
/// by the ticket that it left by last.
pub fn roles_stay_in_order()
    ensures begin { RolesBegin }
    ensures swap { RolesSwap }
    ensures next { RolesGoOn }
    ensures enter { RolesEnterLast }
    ensures one { RolesAreOne }
{}

/// At each moment of a schedule at most one side is live; and the module enters a side only where
/// none is, by the ticket that it left by last.
pub fn one_side_is_live()
    ensures { OneIsLive }
{}

/// The replies to the calls of both sides are those of one run of the machine, on one list of
/// requests.
pub fn sides_run_as_one()
    ensures { SidesRunAsOne }
{}

/// A schedule of both sides is told by digests as by lists, where no two messages of the run share
/// a digest, no value of others is the guard of a batch, each right offer names a position of the
/// one history, and nonces and tickets are fresh.
pub fn both_sides_agree()
    ensures { PairsAgreeThroughout }
{}

/// What stands after the first events of a schedule, and the replies to them, are those of the
/// schedule so far: so what is promised of a schedule holds of every front that meets the premises.
pub fn both_go_on()
    ensures { PairsGoOn }
{}

/// Each snapshot that a side issued names a position of the history that the side has, and of the
/// one history, after each schedule with fresh nonces and tickets.
pub fn sides_issue_names()
    ensures { SidesIssueNames }
{}

/// Where each right offer to a side names a position of the history that this side has, also where
/// the module has left it, each names one of the one history, with fresh nonces and tickets.
pub fn own_offers_are_genuine()
    ensures { OwnPremiseGivesPremise }
{}

/// The premises can be met by a run in which the module moves: in both variants, under all keys, by
/// a counter that leaves the first side and enters the second, where it is live then.
pub fn a_move_meets_the_premises()
    ensures { PremisesAreMet }
{
    premises_are_met();
}

/// A run of both sides meets the premises, or one holds evidence in hand, and never both: as of one
/// platform, or a nonce that was invited twice, or a ticket with a right tag that the module didn't
/// leave by.
pub fn pairs_are_decided()
    ensures { PairsAreDecided }
{
    names_are_decided();
}

/// The events before the first one at which one holds evidence in hand are the longest first part
/// of a schedule of both sides that meets the premises.
pub fn pair_fronts_are_longest()
    ensures { PairFrontsAreLongest }
{
    pairs_are_decided();
}
