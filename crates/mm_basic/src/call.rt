//! A call that is moved one device step at a time.

ghost use Rattle.std.specs.Prelude.{◌≡◌, true, false, IfOk, IfErr};
ghost use Rattle.mm_module.specs.Batches.{batch_of};
ghost use Rattle.mm_model.specs.Moves.{is_long};
ghost use Rattle.mm_machine.specs.declared.call.OpStage.TheVariants.{Begun};
ghost use Rattle.mm_call.specs.Checkpoints.{turn_of};
ghost use Rattle.mm_basic.specs.AskPromise.{StepExtendsNothing};

use crate::operation::BasicAsk;
use mm_call::{AskResult, KeptKey};
use mm_machine::{StepResult, advance};
use mm_model::{BatchAnswer, Refusal};
use mm_module::{Batch, Module};
use mm_platform::Platform;
use std::alloc::Global;
use std::marker::Model;

/// A call between two of its device steps. Contracts see where it stands.
#[derive(Drop)]
pub struct Call {
    call: mm_machine::OpCall<BatchAnswer>,
}

impl Model for Call {
    ghost use Rattle.mm_machine.specs.declared.call.OpStage.{OpStage};
    ghost use Rattle.mm_model.specs.declared.answer.BatchAnswer.{BatchAnswer};
    ghost use Rattle.mm_basic.specs.Operation.{ExtendsNothing};

    ghost Value = { OpStage BatchAnswer };

    ghost view = { λ it. it.call };

    ghost invariant = { λ it. ExtendsNothing it.call };
}

/// What one step of a call came to.
pub type Turn = mm_call::Turn<Call, BatchAnswer, Refusal>;

/// Begins a call. Long exactly where the batch is too long to be asked. Takes no memory.
#[inline(always)]
pub fn begin(batch: Batch<'_>) -> Result<Call, Refusal>
    ensures ok { IfOk result (λ call. (call ≡ Begun) × (is_long (batch_of batch.entry) ≡ false)) }
    ensures long { IfErr result (λ refusal. (refusal ≡ Refusal.Long)
        × (is_long (batch_of batch.entry) ≡ true)) }
{
    if mm_model::is_long(&batch) {
        return Err(Refusal::Long);
    }
    Ok(Call {
        call: mm_machine::OpCall::begin(),
    })
}

impl Call {
    ghost use Rattle.std.specs.Prelude.{◌≡◌, false};
    ghost use Rattle.mm_module.specs.Batches.{batch_of};
    ghost use Rattle.mm_model.specs.Moves.{is_long};
    ghost use Rattle.mm_machine.specs.OpSteps.{number_of};
    ghost use Rattle.mm_basic.specs.AskPromise.{BasicTurnPromise};

    /// The number of the next device step, from 1.
    pub fn next_step(&self) -> u8
        ensures { result ≡ number_of 2 self.now }
    {
        self.call.next_step(2)
    }

    /// Makes the next device step. The first reads the cell, and runs the batch in memory; the last
    /// writes the cell, which commits the batch, by a function that has no allocator. The offer,
    /// the batch and the module are read by the first alone. Nothing is asked of what came to the
    /// platform since the step before: whatever stands there, exactly this step is made (`turns`).
    pub fn advance<M: Module, P: Platform>(
        self,
        alloc: Global,
        module: &M,
        platform: &mut P,
        offer: &[u8],
        batch: Batch<'_>,
    ) -> Turn
        requires { is_long (batch_of batch) ≡ false }
        ensures { BasicTurnPromise (M.meaning «module».now) self (P.standing platform.old)
            (P.standing platform.new) offer.now (batch_of batch.entry) result }
    {
        let ask = BasicAsk {
            alloc,
            module,
            offer,
            batch,
        };
        let keys = &mut KeptKey::new();
        turn_of(advance(&ask, self.call, platform, keys))
    }
}

// What a step comes to.
#[inline(always)]
fn turn_of(step: StepResult<BatchAnswer, Refusal>) -> Turn
    requires { StepExtendsNothing step }
    ensures { result ≡ turn_of step }
{
    match step {
        StepResult::Going(call) => Turn::Going(Call { call }),
        StepResult::Over(end) => Turn::over(AskResult::of(end).result()),
    }
}
