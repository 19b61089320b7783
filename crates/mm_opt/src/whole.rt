//! Whole calls.

ghost use Rattle.std.specs.Prelude.{◌≡◌, true, false, Err, IfOk};
ghost use Rattle.std.specs.Result.{result_err};
ghost use Rattle.mm_machine.specs.OpSteps.{acts_for, answer_in, StandsAsPrepared, found_in};
ghost use Rattle.mm_module.specs.Batch.{One};
ghost use Rattle.mm_module.specs.Batches.{batch_of};
ghost use Rattle.mm_model.specs.Moves.{is_long};
ghost use Rattle.mm_call.specs.CallKind.{CommitsFinding, IsCallSoFar, CallReads};
ghost use Rattle.mm_call.specs.CallFinding.{CountsHandedFault, batch_result_of, fault_in};
ghost use Rattle.mm_opt.specs.AskPromise.{OptAskPromise, opt_call, opt_operation};

use crate::operation::OptAsk;
use mm_call::{Committed, KeptKey, commit, finish_call, read_call_alone};
use mm_machine::OpPrepared;
use mm_model::{Answer, BatchAnswer, Refusal};
use mm_module::{Batch, Module};
use mm_platform::{Platform, StepFault};
use std::alloc::Global;
use std::marker::Model;

/// A call whose reading steps were made: its batch has run in memory, and there is room for its
/// extension. Contracts see what was found, and the cell and the register's value that were read.
#[derive(Drop)]
pub struct Prepared {
    prepared: OpPrepared<BatchAnswer>,
}

impl Model for Prepared {
    ghost use Rattle.mm_machine.specs.declared.reading.OpPrepared.{OpPrepared};
    ghost use Rattle.mm_opt.specs.Below.{BatchAnswer};

    ghost Value = { OpPrepared BatchAnswer };

    ghost view = { λ it. it.prepared };
}

/// Makes the reading steps of a call that asks for one request, and runs the request in memory. The
/// platform stands as it was read, with room for the extension, and `commit` asks that it still
/// does (`StandsAsPrepared`): of two calls that were prepared on one cell and register, none is to
/// be committed once the other has changed them.
pub fn prepare<M: Module, P: Platform>(
    alloc: Global,
    module: &M,
    platform: &mut P,
    offer: &[u8],
    request: &[u8],
) -> Result<Prepared, Refusal>
    ensures long { is_long (One request.now) ≡ true →
        (result ≡ Err Refusal.Long) × (P.standing platform.new ≡ P.standing platform.old) }
    ensures reads { is_long (One request.now) ≡ false →
        CallReads (opt_operation (M.meaning «module».now) offer.now (One request.now))
        (P.standing platform.old) (P.standing platform.new) (found_in result) }
    ensures goes { is_long (One request.now) ≡ false →
        IsCallSoFar opt_call (M.meaning «module».now) (P.standing platform.old)
        (P.standing platform.new)
        offer.now (One request.now) (found_in result) }
    ensures stands { IfOk result (λ prepared. StandsAsPrepared prepared
        (P.standing platform.new)) }
    ensures faults { CountsHandedFault (fault_in result)
        (P.standing platform.old).faults (P.standing platform.new).faults }
{
    let batch = Batch::One(request);
    if mm_model::is_long(&batch) {
        return Err(Refusal::Long);
    }
    let ask = OptAsk {
        alloc,
        module,
        offer,
        batch,
    };
    match read_call_alone(&ask, platform) {
        Err(refusal) => Err(refusal),
        Ok(prepared) => Ok(Prepared { prepared }),
    }
}

impl Prepared {
    /// Makes the changing steps, which commit the request; a repeat has none. The platform has to
    /// stand as `prepare` left it: its cell is still the one that was read, the register shows what
    /// was read and behind it items of others alone, and where it is to be extended there is room
    /// for that. Takes no memory, but the room that `prepare` left.
    pub fn commit<P: Platform>(self, platform: &mut P) -> Result<Committed, StepFault>
        requires { StandsAsPrepared self (P.standing platform.old) }
        ensures commits { CommitsFinding (acts_for self.found) (answer_in self.found)
            (P.standing platform.old) (P.standing platform.new) result }
        ensures faults { CountsHandedFault (result_err result)
            (P.standing platform.old).faults (P.standing platform.new).faults }
    {
        commit(self.prepared, platform)
    }
}

// One call, from the offer to the answer.
#[inline(always)]
fn ask_batch_keeping<M: Module, P: Platform>(
    alloc: Global,
    module: &M,
    platform: &mut P,
    offer: &[u8],
    batch: Batch<'_>,
    keys: &mut KeptKey,
) -> Result<BatchAnswer, Refusal>
    ensures { OptAskPromise (M.meaning «module».now) (P.standing platform.old)
        (P.standing platform.new) offer.now (batch_of batch.entry) result }
{
    if mm_model::is_long(&batch) {
        return Err(Refusal::Long);
    }
    let ask = OptAsk {
        alloc,
        module,
        offer,
        batch,
    };
    finish_call(&ask, platform, keys).result()
}

/// One call: asks for a batch of requests, offering a snapshot. A new batch is committed whole or
/// not at all, and answered by what the module says to each request; the batch committed last is
/// answered again. After every refusal but Device nothing has changed, but for the count of steps
/// and what others put into the register.
pub fn ask_batch<M: Module, P: Platform>(
    alloc: Global,
    module: &M,
    platform: &mut P,
    offer: &[u8],
    batch: Batch<'_>,
) -> Result<BatchAnswer, Refusal>
    ensures { OptAskPromise (M.meaning «module».now) (P.standing platform.old)
        (P.standing platform.new) offer.now (batch_of batch.entry) result }
{
    ask_batch_keeping(alloc, module, platform, offer, batch, &mut KeptKey::new())
}

/// One call that asks for one request: `prepare`, `commit` and `answer` in one.
pub fn ask<M: Module, P: Platform>(
    alloc: Global,
    module: &M,
    platform: &mut P,
    offer: &[u8],
    request: &[u8],
) -> Result<Answer, Refusal>
    ensures { OptAskPromise (M.meaning «module».now) (P.standing platform.old)
        (P.standing platform.new) offer.now (One request.now) (batch_result_of result) }
{
    ask_keeping(alloc, module, platform, offer, request, &mut KeptKey::new())
}

/// `ask` with an absorbed key that the caller keeps between calls.
pub fn ask_keeping<M: Module, P: Platform>(
    alloc: Global,
    module: &M,
    platform: &mut P,
    offer: &[u8],
    request: &[u8],
    keys: &mut KeptKey,
) -> Result<Answer, Refusal>
    ensures { OptAskPromise (M.meaning «module».now) (P.standing platform.old)
        (P.standing platform.new) offer.now (One request.now) (batch_result_of result) }
{
    match ask_batch_keeping(alloc, module, platform, offer, Batch::One(request), keys) {
        Err(refusal) => Err(refusal),
        Ok(answer) => Ok(answer.into_one()),
    }
}
