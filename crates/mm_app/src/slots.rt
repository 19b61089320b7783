//! The command `slots`: an input's lines of several modules on one platform are played.

ghost use Rattle.mm_slots.specs.Stage.{PlaysSlots};
ghost use Rattle.mm_words.specs.declared.command.CommandLine.TheVariants.{Slots};
ghost use Rattle.mm_app.specs.Commands.{PlaysAndStops};
ghost use Rattle.mm_host_commands.specs.Outside.{Outside, with_streams};
ghost use Rattle.mm_app.specs.Completeness.{CanBeAnswered};
ghost use Rattle.mm_status.specs.Status.{EndsUnrefused};

use mm_base::{Sink, Source};
use mm_slots::slots;
use mm_status::{Status, answered};
use std::alloc::Global;

/// Plays the slots that the input gives, and writes the stop line.
pub fn play_slots<S: Source, K: Sink>(alloc: Global, input: &mut S, out: &mut K) -> Status
    // Whatever the other objects tell (`it`).
    ensures plays { (it : Outside) → PlaysAndStops PlaysSlots
        (with_streams it (S.left input.old) (S.faults input.old) (K.received out.old)
        (K.faults out.old))
        (with_streams it (S.left input.new) (S.faults input.new) (K.received out.new)
        (K.faults out.new)) result }
    ensures complete { CanBeAnswered Slots (S.left input.old) → EndsUnrefused result }
{
    let answer = slots(alloc, input, out);
    answered(&answer, out)
}
