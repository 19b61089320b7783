//! A checkpoint, which closes the open segment: in one, or moved one device step at a time.

ghost use Rattle.std.specs.Prelude.{◌≡◌};
ghost use Rattle.mm_machine.specs.declared.call.OpStage.TheVariants.{Begun};
ghost use Rattle.mm_opt.specs.CheckpointPromise.{StepIsClosing, turn_of_step, CheckpointPromise};
ghost use Rattle.mm_opt.specs.Checkpoints.{result_of_end};

use crate::close::OptCheckpoint;
use crate::segment::{CheckpointRefusal, Checkpointed};
use mm_call::Turn;
use mm_machine::{OpCall, OpResult, Operation, StepResult, advance, run};
use mm_platform::Platform;
use mm_seal::KeptKey;
use std::marker::Model;

/// A checkpoint between two of its device steps. Contracts see where it stands.
#[derive(Drop)]
pub struct CheckpointCall {
    call: OpCall<Checkpointed>,
}

impl Model for CheckpointCall {
    ghost use Rattle.mm_machine.specs.declared.call.OpStage.{OpStage};
    ghost use Rattle.mm_opt.specs.declared.segment.Checkpointed.{Checkpointed};
    ghost use Rattle.mm_opt.specs.Checkpoints.{IsClosing};

    ghost Value = { OpStage Checkpointed };

    ghost view = { λ it. it.call };

    ghost invariant = { λ it. IsClosing it.call };
}

/// What one step of a checkpoint came to.
pub type CheckpointTurn = Turn<CheckpointCall, Checkpointed, CheckpointRefusal>;

/// Begins a checkpoint.
pub fn begin_checkpoint() -> CheckpointCall
    ensures { result ≡ Begun }
{
    CheckpointCall {
        call: OpCall::begin(),
    }
}

impl CheckpointCall {
    ghost use Rattle.std.specs.Prelude.{◌≡◌};
    ghost use Rattle.mm_machine.specs.OpSteps.{number_of};
    ghost use Rattle.mm_opt.specs.CheckpointPromise.{IsClosingTurn, ClosingActsAt};

    /// The number of the next device step, from 1.
    pub fn next_step(&self) -> u8
        ensures { result ≡ number_of 3 self.now }
    {
        self.call.next_step(OptCheckpoint.write_step())
    }

    /// Makes the next device step: the first reads the cell, the second the register, and the last
    /// writes the cell, which closes the segment. Takes no memory.
    pub fn advance<P: Platform>(self, platform: &mut P) -> CheckpointTurn
        ensures turns { IsClosingTurn self (P.standing platform.old) (P.standing platform.new)
            result }
        ensures acts { ClosingActsAt self (P.standing platform.old) (P.standing platform.new)
            result }
    {
        turn_of(advance(&OptCheckpoint, self.call, platform, &mut KeptKey::new()))
    }
}

// What a step of the machine comes to.
fn turn_of(step: StepResult<Checkpointed, CheckpointRefusal>) -> CheckpointTurn
    requires { StepIsClosing step }
    ensures { result ≡ turn_of_step step }
{
    match step {
        StepResult::Going(call) => Turn::Going(CheckpointCall { call }),
        StepResult::Over(ended) => Turn::over(closing_result(ended)),
    }
}

/// One checkpoint: closes the open segment, so that power may be lost. Takes no memory. After every
/// refusal but Device nothing has changed, but for the count of steps and what others put into the
/// register.
pub fn checkpoint<P: Platform>(platform: &mut P) -> Result<Checkpointed, CheckpointRefusal>
    ensures { CheckpointPromise (P.standing platform.old) (P.standing platform.new) result }
{
    closing_result(run(&OptCheckpoint, platform, &mut KeptKey::new()))
}

/// What is told of how the machine ended. It lacks no memory, as a checkpoint extends nothing.
pub fn closing_result(
    ended: OpResult<Checkpointed, CheckpointRefusal>,
) -> Result<Checkpointed, CheckpointRefusal>
    ensures { result ≡ result_of_end ended }
{
    match ended {
        OpResult::Answered(checkpointed) => Ok(checkpointed),
        OpResult::Refused(refusal) => Err(refusal),
        OpResult::Broken { fault, .. } => Err(CheckpointRefusal::Device(fault)),
        OpResult::Lacks => Ok(Checkpointed::NoSegment),
    }
}
