//! The command `checkpoint`: the open segment is closed.

ghost use Rattle.mm_host_commands.specs.Outside.{CheckpointsInstance, checkpoint_line, Outside, with_platform};
ghost use Rattle.mm_status.specs.Status.{TellsLines};

use mm_base::Sink;
use mm_opt::{CheckpointRefusal, Checkpointed, checkpoint};
use mm_platform::Platform;
use mm_status::{Status, stopped, written};

/// Closes the platform's open segment, where there is one.
pub fn close_segment<P: Platform, K: Sink>(platform: &mut P, out: &mut K) -> Status
    // Whatever the other objects tell (`it`).
    ensures { (it : Outside) → CheckpointsInstance
        (with_platform it (P.standing platform.old) (K.received out.old) (K.faults out.old))
        (with_platform it (P.standing platform.new) (K.received out.new) (K.faults out.new))
        result }
{
    let answer = checkpoint(platform);
    tell_checkpoint(answer, out)
}

// Tells what a checkpoint came to.
fn tell_checkpoint<K: Sink>(answer: Result<Checkpointed, CheckpointRefusal>, out: &mut K) -> Status
    ensures { TellsLines (checkpoint_line answer)
        (K.received out.old) (K.received out.new) (K.faults out.old) (K.faults out.new) result }
{
    match answer {
        Ok(Checkpointed::Done) => written(b"checkpointed\n", out),
        Ok(Checkpointed::NoSegment) => written(b"no segment\n", out),
        Err(CheckpointRefusal::Device(_)) => stopped(Status::PlatformFault, out),
        Err(CheckpointRefusal::Blank) => stopped(Status::Blank, out),
        Err(CheckpointRefusal::Cell) => stopped(Status::Cell, out),
        Err(CheckpointRefusal::Kind) => stopped(Status::Kind, out),
        Err(CheckpointRefusal::Lost) => stopped(Status::Lost, out),
    }
}
