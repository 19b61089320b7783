//! The laws of transfers, each the contract of a function that does nothing but call the laws that
//! it follows from.

ghost use Rattle.mm_transfer.specs.Laws.{PremisesGiveOneTransfer, OneTransferUntilEvidence, TransfersGoOn};

use mm_sides::{both_go_on, pairs_are_decided};

/// What is told of a transfer is one run of the module on one list of requests, and at most one
/// side is live: in each first part of the events that meets the premises, and in each up to the
/// first event at which one holds evidence in hand.
pub fn transfers_are_one_run()
    ensures premises { PremisesGiveOneTransfer }
    ensures until { OneTransferUntilEvidence }
{
    pairs_are_decided();
}

/// The whole transfer is that of each first part of the events, and then of the rest.
pub fn transfers_go_on()
    ensures { TransfersGoOn }
{
    both_go_on();
}
