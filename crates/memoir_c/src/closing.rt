//! A checkpoint.

ghost use Rattle.std.specs.Prelude.{◌≡◌, ◌≢◌, ◌<◌, length};
ghost use Rattle.memoir_c.specs.CallReplies.{ClosesTo, IsClosingTold, TellsClosing};

use crate::made::{MOST_STEPS, Step, next, put_made};
use crate::said::ReturnStatus;
use mm_opt::{CheckpointRefusal, Checkpointed};
use mm_told::{MadeStep, StepsOutcome, checkpoint};

/// What a checkpoint comes to with these steps made. Only Next writes the step that is to be made.
#[unsafe(no_mangle)]
pub extern "C" fn memoir_checkpoint(steps: &[Step], step: &mut Step) -> u32
    ensures told { IsClosingTold steps.now step.old step.new result }
    ensures unsaid { result ≢ 16 → step.new ≡ step.old }
    ensures few { result ≡ 16 → length steps.now < 3 }
{
    tell(closed(steps), step).code()
}

// What the checkpoint comes to.
fn closed(
    steps: &[Step],
) -> Result<StepsOutcome<Result<Checkpointed, CheckpointRefusal>>, ReturnStatus>
    ensures { ClosesTo steps.now result }
{
    if steps.len() > MOST_STEPS {
        return Err(ReturnStatus::TooMany);
    }
    let mut made = [MadeStep::ResetRegister(Ok(())); MOST_STEPS];
    put_made(steps, &mut made)?;
    let made = &made[..steps.len()];
    Ok(checkpoint(made))
}

// Writes what the checkpoint came to.
fn tell(
    closed: Result<StepsOutcome<Result<Checkpointed, CheckpointRefusal>>, ReturnStatus>,
    into: &mut Step,
) -> ReturnStatus
    ensures { TellsClosing closed into.old into.new result }
{
    match closed {
        Err(said) => said,
        Ok(StepsOutcome::Ended(Ok(Checkpointed::Done))) => ReturnStatus::Done,
        Ok(StepsOutcome::Ended(Ok(Checkpointed::NoSegment))) => ReturnStatus::NoSegment,
        Ok(StepsOutcome::Ended(Err(refusal))) => ReturnStatus::of_checkpoint(refusal),
        Ok(StepsOutcome::Memory) => ReturnStatus::Differs,
        Ok(StepsOutcome::Differs) => ReturnStatus::Differs,
        Ok(StepsOutcome::Next(step)) => {
            *into = next(step);
            ReturnStatus::Next
        }
    }
}
