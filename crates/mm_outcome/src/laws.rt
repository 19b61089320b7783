//! The laws of whole runs, each the contract of a function that does nothing.

ghost use Rattle.std.specs.Prelude.{◌≡◌, ◌++◌, ℕ, List};
ghost use Rattle.mm_digest.specs.declared.variant.Variant.{Variant};
ghost use Rattle.mm_module.specs.Meaning.{Meaning, counter};
ghost use Rattle.mm_model.specs.Chains.{Instance, basic_instance, opt_instance};
ghost use Rattle.mm_call.specs.Standing.{instance_by};
ghost use Rattle.mm_outcome.specs.OneRun.{world_barrier, FrontsAreOneRun, EventsAgree, EventsStep, EventsKeepNames};
ghost use Rattle.mm_outcome.specs.Premises.{outcome_by_lists, IsClearRun, IsGenuineRun};
ghost use Rattle.mm_outcome.specs.Laws.{BasicIsExpected, OptIsExpected, ExpectedRuns, SchedulesGoOn, IssuedNamePositions, one_ask, two_segments, after_two_segments};
ghost use Rattle.mm_schedule.specs.Events.{Event};

/// A schedule of Basic is told as expected, where no two messages of the run share a digest and
/// each right offer names a position.
pub fn basic_is_expected()
    ensures { BasicIsExpected }
{}

/// A schedule of Opt is told as expected, where besides no value of others is the guard of a batch
/// that is asked.
pub fn opt_is_expected()
    ensures { OptIsExpected }
{}

/// What is expected of a schedule is one run of the machine on one list of requests.
pub fn expected_runs()
    ensures { ExpectedRuns }
{}

/// Each first part of a schedule comes to what it does in the whole; and where no two messages of
/// that part share a digest and each right offer in it names a position, it is one run of the
/// module on one list of requests. So it is of each first part of a schedule of which that holds.
pub fn fronts_are_one_run()
    ensures one { (variant : Variant) (meaning : Meaning) (key barrier : List ℕ)
        (events : List Event)
        → FrontsAreOneRun (instance_by variant meaning key barrier) events }
    ensures clear { (i : Instance) (front later : List Event)
        → IsClearRun i (front ++ later) → IsClearRun i front }
    ensures genuine { (i : Instance) (front later : List Event)
        → IsGenuineRun i (front ++ later) → IsGenuineRun i front }
{}

/// A schedule goes on from what stands after its first events.
pub fn schedules_go_on()
    ensures { SchedulesGoOn }
{}

/// One event comes by digests to what it comes to by lists, where its messages and those of the
/// history are among some of which no two share a digest, and each right offer names a position.
pub fn events_agree()
    ensures { (variant : Variant) (meaning : Meaning) (key barrier : List ℕ)
        → EventsAgree (instance_by variant meaning key barrier) }
{}

/// One event is one step of the machine.
pub fn events_step()
    ensures { EventsStep }
{}

/// What named a position of the history before an event names one after it, and so do the snapshots
/// issued by then.
pub fn events_keep_names()
    ensures { (variant : Variant) (meaning : Meaning) (key barrier : List ℕ)
        → EventsKeepNames (instance_by variant meaning key barrier) }
{}

/// Every snapshot that was issued names a position of the history, after each schedule.
pub fn issued_snapshots_name_positions()
    ensures { (variant : Variant) (meaning : Meaning) (key barrier : List ℕ)
        → IssuedNamePositions (instance_by variant meaning key barrier) }
{}

/// The premises on digests and offers can be met: a counter's run of `ask last add 5` meets them,
/// under every key; in Opt with the barrier of each world. There a run meets them too that commits
/// a request inside a segment, closes it, has a value of others, and commits a request behind them.
pub fn premises_are_met()
    ensures basic { (key : List ℕ)
        → IsClearRun (basic_instance counter key) one_ask
        × IsGenuineRun (basic_instance counter key) one_ask }
    ensures opt { (key : List ℕ) → IsClearRun (opt_instance counter key world_barrier) one_ask
        × IsGenuineRun (opt_instance counter key world_barrier) one_ask }
    ensures segments { (key : List ℕ)
        → IsClearRun (opt_instance counter key world_barrier) two_segments
        × IsGenuineRun (opt_instance counter key world_barrier) two_segments
        × ((outcome_by_lists (opt_instance counter key world_barrier) two_segments).state
        ≡ after_two_segments) }
{}
