//! A call whose device steps a host makes.

ghost use Rattle.std.specs.Prelude.{◌≡◌};
ghost use Rattle.mm_call.specs.CallFinding.{batch_result_of};
ghost use Rattle.mm_module.specs.Batches.{batch_of};
ghost use Rattle.mm_told.specs.ToldAskPromise.{ToldAskPromise, ToldBatchPromise, outcome_of_one, wants_memory, IsOne, IsOneIn};
ghost use Rattle.mm_told.specs.ToldAskPromise.{told_outcome, outcome_if_over, long_outcome};
ghost use Rattle.mm_told.specs.CallPath.{Host, IsHostOf};

use crate::outcome::StepsOutcome;
use crate::step::MadeStep;
use crate::told::{CallProgress, tell};
use mm_ask::Ask;
use mm_call::{AskResult, KeptKey};
use mm_digest::Variant;
use mm_machine::OpStage;
use mm_model::{Answer, BatchAnswer, Refusal};
use mm_module::{Batch, Module};
use std::alloc::Global;

/// What a call that asks for a request comes to with these steps made, of which the first was its
/// first: its answer or refusal, once they are all of its steps; or the step that it makes next. It
/// is over after at most five steps. It keeps nothing but the key, absorbed, with what was sealed
/// last, which changes no answer: after Next make the step, and call again with that one too.
/// Memory may come at any time: call again with the same steps.
pub fn ask<M: Module>(
    alloc: Global,
    variant: Variant,
    module: &M,
    made: &[MadeStep],
    offer: &[u8],
    request: &[u8],
    keys: &mut KeptKey,
) -> StepsOutcome<Result<Answer, Refusal>>
    ghost host: { Host }
    requires { IsHostOf made.now host }
    ensures { ToldAskPromise variant (M.meaning «module».now) host made.now offer.now
        request.now result }
{
    let batch = Batch::One(request);
    one(ask_batch(alloc, variant, module, made, offer, batch, keys))
}

/// The same of a call that asks for a batch.
pub fn ask_batch<M: Module>(
    alloc: Global,
    variant: Variant,
    module: &M,
    made: &[MadeStep],
    offer: &[u8],
    batch: Batch<'_>,
    keys: &mut KeptKey,
) -> StepsOutcome<Result<BatchAnswer, Refusal>>
    ghost host: { Host }
    requires { IsHostOf made.now host }
    ensures { ToldBatchPromise variant (M.meaning «module».now) host made.now offer.now
        (batch_of batch.entry) result }
{
    if mm_model::is_long(&batch) {
        return too_long(made);
    }
    let ask = Ask {
        variant,
        alloc,
        module,
        offer,
        batch,
    };
    told(tell(&ask, OpStage::Begun, made, keys))
}

// Too long a batch is refused before the first step.
fn too_long(made: &[MadeStep]) -> StepsOutcome<Result<BatchAnswer, Refusal>>
    ensures { result ≡ long_outcome made.now }
{
    if made.is_empty() {
        StepsOutcome::Ended(Err(Refusal::Long))
    } else {
        StepsOutcome::Differs
    }
}

// A call, as it is told.
fn told(came: CallProgress<BatchAnswer, Refusal>) -> StepsOutcome<Result<BatchAnswer, Refusal>>
    ensures { result ≡ told_outcome came }
{
    match came {
        CallProgress::Next(step) => StepsOutcome::Next(step),
        CallProgress::Over(end) => StepsOutcome::Ended(AskResult::of(end).result()),
        CallProgress::Before(end) => before(AskResult::of(end).result()),
        CallProgress::Elsewhere => StepsOutcome::Differs,
    }
}

// What a call comes to that asks for one request.
fn one(came: StepsOutcome<Result<BatchAnswer, Refusal>>) -> StepsOutcome<Result<Answer, Refusal>>
    requires { IsOneIn came }
    ensures { outcome_of_one result ≡ came }
{
    match came {
        StepsOutcome::Ended(given) => StepsOutcome::Ended(whole(given)),
        StepsOutcome::Next(step) => StepsOutcome::Next(step),
        StepsOutcome::Differs => StepsOutcome::Differs,
        StepsOutcome::Memory => StepsOutcome::Memory,
    }
}

// The answer to the one request.
fn whole(given: Result<BatchAnswer, Refusal>) -> Result<Answer, Refusal>
    requires { IsOne given }
    ensures { batch_result_of result ≡ given }
{
    match given {
        Ok(answer) => Ok(answer.into_one()),
        Err(refusal) => Err(refusal),
    }
}

// The call was over before, and gave this.
fn before(given: Result<BatchAnswer, Refusal>) -> StepsOutcome<Result<BatchAnswer, Refusal>>
    ensures { result ≡ outcome_if_over (wants_memory given) }
{
    match given {
        Err(Refusal::Memory) => StepsOutcome::Memory,
        _ => StepsOutcome::Differs,
    }
}
