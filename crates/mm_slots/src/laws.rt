//! The laws of slots, each the contract of a function that does nothing.

ghost use Rattle.mm_slots.specs.Laws.{SlotsAreAlone, SlotsRun};
ghost use Rattle.mm_slots.specs.Laws.{PremisesGiveSlotRuns, SlotsGoOn, SlotsTellReplies};
ghost use Rattle.mm_slots.specs.Laws.{OneRunOfSlotUntilEvidence, SlotFrontsAreLongest};

use mm_evidence::premises_or_evidence;
use mm_outcome::{
    basic_is_expected, expected_runs, fronts_are_one_run, opt_is_expected, schedules_go_on,
};

/// Each slot is where its own fold leaves it, over what it meets itself, and so is what is said for
/// it: whatever happens in the slots beside it, but that power is common.
pub fn slots_are_alone()
    ensures { SlotsAreAlone }
{}

/// The calls of a slot that are over are one run of the module in it, where no two messages of the
/// run share a digest and each right offer names a position.
pub fn slots_run()
    ensures { SlotsRun }
{
    basic_is_expected();
    opt_is_expected();
    expected_runs();
    schedules_go_on();
}

/// What is told of slots is one run of the module of each, in each first part of the events in
/// which its calls meet the premises, and in each up to the first event at which they give
/// evidence. The events before that one are the longest first part in which they meet the premises.
pub fn slots_are_runs()
    ensures premises { PremisesGiveSlotRuns }
    ensures until { OneRunOfSlotUntilEvidence }
    ensures longest { SlotFrontsAreLongest }
{
    premises_or_evidence();
    fronts_are_one_run();
}

/// All that is told of slots is that of each first part of the events, and then of the rest.
pub fn slots_go_on()
    ensures { SlotsGoOn }
{}

/// The replies to calls that are said for a slot are those that its fold gives, and so those of
/// which `slots_run` speaks.
pub fn slots_tell_replies()
    ensures { SlotsTellReplies }
{}
