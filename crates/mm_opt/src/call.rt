//! A call that is moved one device step at a time.

ghost use Rattle.std.specs.Prelude.{◌≡◌, true, false, IfOk, IfErr};
ghost use Rattle.mm_module.specs.Batches.{batch_of};
ghost use Rattle.mm_model.specs.Moves.{is_long};
ghost use Rattle.mm_machine.specs.declared.call.OpStage.TheVariants.{Begun};
ghost use Rattle.mm_call.specs.Checkpoints.{turn_of};

use crate::operation::OptAsk;
use mm_call::{AskResult, KeptKey};
use mm_machine::{StepResult, advance};
use mm_model::{BatchAnswer, Refusal};
use mm_module::{Batch, Module};
use mm_platform::Platform;
use std::alloc::Global;
use std::marker::Model;

/// A call between two of its device steps. Contracts see where it stands.
#[derive(Drop)]
pub struct Call {
    at: mm_machine::OpCall<BatchAnswer>,
}

impl Model for Call {
    ghost use Rattle.mm_opt.specs.Answers.{BatchStage};

    ghost Value = { BatchStage };

    ghost view = { λ call. call.at };
}

/// What one step of a call came to.
pub type Turn = mm_call::Turn<Call, BatchAnswer, Refusal>;

/// Begins a call. Long exactly where the batch is too long to be asked. Takes no memory.
#[inline(always)]
pub fn begin(batch: Batch<'_>) -> Result<Call, Refusal>
    ensures ok { IfOk result (λ call. (call ≡ Begun) × (is_long (batch_of batch.entry) ≡ false)) }
    ensures long { IfErr result (λ refusal. (refusal ≡ Refusal.Long)
        × (is_long (batch_of batch.entry) ≡ true)) }
{
    if mm_model::is_long(&batch) {
        return Err(Refusal::Long);
    }
    Ok(Call {
        at: mm_machine::OpCall::begin(),
    })
}

impl Call {
    ghost use Rattle.std.specs.Prelude.{◌≡◌, false};
    ghost use Rattle.mm_module.specs.Batches.{batch_of};
    ghost use Rattle.mm_model.specs.Moves.{is_long};
    ghost use Rattle.mm_machine.specs.OpSteps.{MayGoOn, number_of};
    ghost use Rattle.mm_opt.specs.AskPromise.{OptTurnPromise};

    /// The number of the next device step, from 1.
    pub fn next_step(&self) -> u8
        ensures { result ≡ number_of 5 self.now }
    {
        self.at.next_step(5)
    }

    /// Makes the next device step. The first reads the cell. The second reads the register, runs
    /// the batch in memory and makes room for an extension; the steps after it change something,
    /// and take no memory. The offer and the batch are read by the second alone, the module by the
    /// first two. An own extension needs room for it, which the second step leaves. Nothing else is
    /// asked of what came to the platform since the step before: whatever stands there, exactly
    /// this step is made (`turns`, `acts`).
    pub fn advance<M: Module, P: Platform>(
        self,
        alloc: Global,
        module: &M,
        platform: &mut P,
        offer: &[u8],
        batch: Batch<'_>,
    ) -> Turn
        requires short { is_long (batch_of batch) ≡ false }
        requires room { MayGoOn self (P.standing platform.old) }
        ensures { OptTurnPromise (M.meaning «module».now) self (P.standing platform.old)
            (P.standing platform.new) offer.now (batch_of batch.entry) result }
    {
        let ask = OptAsk {
            alloc,
            module,
            offer,
            batch,
        };
        turn_of(advance(&ask, self.at, platform, &mut KeptKey::new()))
    }
}

// A turn of the machine's.
#[inline(always)]
fn turn_of(step: StepResult<BatchAnswer, Refusal>) -> Turn
    ensures { result ≡ turn_of step }
{
    match step {
        StepResult::Going(at) => Turn::Going(Call { at }),
        StepResult::Over(ended) => Turn::over(AskResult::of(ended).result()),
    }
}
