//! The command `check`: a recorded run is checked.

ghost use Rattle.mm_check.specs.Checks.{ChecksRun};
ghost use Rattle.mm_words.specs.declared.command.CommandLine.TheVariants.{Check};
ghost use Rattle.mm_app.specs.Commands.{PlaysAndStops};
ghost use Rattle.mm_host_commands.specs.Outside.{Outside, with_streams};
ghost use Rattle.mm_app.specs.Completeness.{CanBeAnswered};
ghost use Rattle.mm_status.specs.Status.{EndsUnrefused};

use mm_base::{Sink, Source};
use mm_check::check;
use mm_status::{Status, answered};
use std::alloc::Global;

/// Checks the recorded run that the input gives, and writes the stop line.
pub fn check_run<S: Source, K: Sink>(alloc: Global, input: &mut S, out: &mut K) -> Status
    // Whatever the other objects tell (`it`).
    ensures checks { (it : Outside) → PlaysAndStops ChecksRun
        (with_streams it (S.left input.old) (S.faults input.old) (K.received out.old)
        (K.faults out.old))
        (with_streams it (S.left input.new) (S.faults input.new) (K.received out.new)
        (K.faults out.new)) result }
    ensures complete { CanBeAnswered Check (S.left input.old) → EndsUnrefused result }
{
    let answer = check(alloc, input, out);
    answered(&answer, out)
}
