//! A whole call under a plan, whatever it asks.

ghost use Rattle.std.specs.Prelude.{◌≡◌};
ghost use Rattle.mm_flight.specs.Flight.{is_broken};
ghost use Rattle.mm_world.specs.Calls.{SettlesPlan, IsPlanned};

use crate::call::{CallReport, came_to, closes, settle, told_closing};
use mm_ask::Ask;
use mm_bytes::Memory;
use mm_call::KeptKey;
use mm_machine::{OpResult, Operation, run};
use mm_model::{BatchAnswer, Refusal};
use mm_module::Module;
use mm_opt::{CheckpointRefusal, Checkpointed, OptCheckpoint, closing_result};
use mm_outcome::CallPlan;
use mm_platform::{MemPlatform, Stop};

/// An operation whose calls are told.
pub trait CallTeller: Operation {
    ghost use Rattle.std.specs.Prelude.{ℕ, Option, Result};
    ghost use Rattle.std.specs.Result.{IsOk};
    ghost use Rattle.mm_bytes.specs.declared.fault.Memory.{Memory};
    ghost use Rattle.mm_platform.specs.declared.fault.StepFault.{StepFault};
    ghost use Rattle.mm_platform.specs.declared.plan.Stop.{Stop};
    ghost use Rattle.mm_machine.specs.declared.call.OpResult.{OpResult};
    ghost use Rattle.mm_machine.specs.declared.call.OpResult.TheVariants.{Broken};
    ghost use Rattle.mm_world.specs.declared.call.CallReport.{CallReport};

    /// What a call is told as that was stopped so and ended so.
    ghost tells: { Self → Stop → OpResult Self.Answer Self.Refusal → Result CallReport Memory → Type 0 };

    /// What a call came to that was stopped so and ended so. Memory exactly where that was wanting.
    fn told(
        &self,
        stop: Stop,
        ended: OpResult<Self::Answer, Self::Refusal>,
    ) -> Result<CallReport, Memory>
        ensures { tells self.now stop ended result };

    /// One that was broken off wanted none.
    ghost breaks: { (it : Self) (stop : Stop) (fault : StepFault) (commits : Option ℕ)
        (result : Result CallReport Memory) → tells it stop (Broken fault commits) result
        → IsOk result };
}

impl<M: Module> CallTeller for Ask<'_, M> {
    ghost use Rattle.mm_module.specs.Batches.{batch_of};
    ghost use Rattle.mm_world.specs.Calls.{TellsAsk, told_ok};

    ghost tells = { λ ask. TellsAsk (batch_of ask.batch) };

    #[inline(always)]
    fn told(&self, stop: Stop, ended: OpResult<BatchAnswer, Refusal>) -> Result<CallReport, Memory>
        ensures { TellsAsk (batch_of self.now.batch) stop ended result }
    {
        came_to(stop, mm_call::AskResult::of(ended), self.batch.len() as u64)
    }

    ghost breaks = { λ it stop fault commits result e. told_ok _ result e };
}

impl CallTeller for OptCheckpoint {
    ghost use Rattle.mm_world.specs.Calls.{TellsCheckpoint, told_ok};

    ghost tells = { λ close. TellsCheckpoint };

    #[inline(always)]
    fn told(
        &self,
        stop: Stop,
        ended: OpResult<Checkpointed, CheckpointRefusal>,
    ) -> Result<CallReport, Memory>
        ensures { TellsCheckpoint stop ended result }
    {
        let closed = closes(stop, &ended);
        Ok(CallReport::quiet(told_closing(stop, closed, closing_result(ended))))
    }

    ghost breaks = { λ it stop fault commits result e. told_ok _ result e };
}

// Whether a device's fault broke a call off.
#[inline(always)]
fn is_broken<A, R>(ended: &OpResult<A, R>) -> bool
    ensures { result ≡ is_broken ended.now }
{
    match ended {
        OpResult::Broken { .. } => true,
        OpResult::Answered(_) | OpResult::Refused(_) | OpResult::Lacks => false,
    }
}

/// Ends the plan of a call that was stopped so and ended so: what it came to.
#[inline(always)]
pub fn settled<O: CallTeller>(
    op: &O,
    platform: &mut MemPlatform,
    stop: Stop,
    ended: OpResult<O::Answer, O::Refusal>,
) -> Result<CallReport, Memory>
    ensures settles { SettlesPlan stop (is_broken ended) platform.old platform.new }
    ensures told { O.tells op.now stop ended result }
{
    settle(platform, stop, is_broken(&ended));
    op.told(stop, ended)
}

/// Makes a whole call under the plan of this course, over a platform that is on and has none.
#[inline(always)]
pub fn planned<O: CallTeller>(
    op: &O,
    platform: &mut MemPlatform,
    course: &CallPlan<'_>,
    keys: &mut KeptKey,
) -> Result<CallReport, Memory>
    ensures { IsPlanned (O.asked op.now) (O.tells op.now) course.now.meddles.now course.now.stop
        platform.old platform.new result }
{
    match platform.plan(course.stop, course.meddles) {
        Err(memory) => Err(memory),
        Ok(()) => {
            let ended = run(op, platform, keys);
            settled(op, platform, course.stop, ended)
        }
    }
}
