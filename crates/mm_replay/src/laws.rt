//! The laws of replays, each the contract of a function that does nothing but call the laws that it
//! follows from.

ghost use Rattle.mm_replay.specs.Schedule.{PremisesGiveOneRun, OneRunUntilEvidence, ReplaysGoOn};

use mm_evidence::premises_or_evidence;
use mm_outcome::schedules_go_on;

/// What is told of a replay is one run of the module on one list of requests: of each first part of
/// the events that meets the premises, and of each up to the first event at which one holds
/// evidence in hand.
pub fn replays_are_one_run()
    ensures premises { PremisesGiveOneRun }
    ensures until { OneRunUntilEvidence }
{
    premises_or_evidence();
}

/// The whole replay is that of each first part of the events, and then of the rest.
pub fn replays_go_on()
    ensures { ReplaysGoOn }
{
    schedules_go_on();
}
