//! The command `replay`: an input's schedule is replayed.

ghost use Rattle.mm_replay.specs.Schedule.{ReplaysSchedule};
ghost use Rattle.mm_words.specs.declared.command.CommandLine.TheVariants.{Replay};
ghost use Rattle.mm_app.specs.Commands.{PlaysAndStops};
ghost use Rattle.mm_host_commands.specs.Outside.{Outside, with_streams};
ghost use Rattle.mm_app.specs.Completeness.{CanBeAnswered};
ghost use Rattle.mm_status.specs.Status.{EndsUnrefused};

use mm_base::{Sink, Source};
use mm_replay::replay;
use mm_status::{Status, answered};
use std::alloc::Global;

/// Replays the input, and writes the stop line.
pub fn replay_and_stop<S: Source, K: Sink>(alloc: Global, input: &mut S, out: &mut K) -> Status
    // Whatever the other objects tell (`it`).
    ensures replays { (it : Outside) → PlaysAndStops ReplaysSchedule
        (with_streams it (S.left input.old) (S.faults input.old) (K.received out.old)
        (K.faults out.old))
        (with_streams it (S.left input.new) (S.faults input.new) (K.received out.new)
        (K.faults out.new)) result }
    ensures complete { CanBeAnswered Replay (S.left input.old) → EndsUnrefused result }
{
    let answer = replay(alloc, input, out);
    answered(&answer, out)
}
