//! The command `transfer`: an input's schedule of two platforms, between which a module moves, is
//! played.

ghost use Rattle.mm_transfer.specs.Stage.{PlaysTransfer};
ghost use Rattle.mm_words.specs.declared.command.CommandLine.TheVariants.{Transfer};
ghost use Rattle.mm_app.specs.Commands.{PlaysAndStops};
ghost use Rattle.mm_host_commands.specs.Outside.{Outside, with_streams};
ghost use Rattle.mm_app.specs.Completeness.{CanBeAnswered};
ghost use Rattle.mm_status.specs.Status.{EndsUnrefused};

use mm_base::{Sink, Source};
use mm_status::{Status, answered};
use mm_transfer::transfer;
use std::alloc::Global;

/// Plays the schedule of two platforms that the input gives, and writes the stop line.
pub fn play_transfer<S: Source, K: Sink>(alloc: Global, input: &mut S, out: &mut K) -> Status
    // Whatever the other objects tell (`it`).
    ensures plays { (it : Outside) → PlaysAndStops PlaysTransfer
        (with_streams it (S.left input.old) (S.faults input.old) (K.received out.old)
        (K.faults out.old))
        (with_streams it (S.left input.new) (S.faults input.new) (K.received out.new)
        (K.faults out.new)) result }
    ensures complete { CanBeAnswered Transfer (S.left input.old) → EndsUnrefused result }
{
    let answer = transfer(alloc, input, out);
    answered(&answer, out)
}
