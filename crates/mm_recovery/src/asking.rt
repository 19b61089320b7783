//! One call of either variant.

ghost use Rattle.std.specs.Prelude.{◌≡◌, false, IfOk, length};
ghost use Rattle.mm_module.specs.Batch.{One};
ghost use Rattle.mm_model.specs.Moves.{is_long};
ghost use Rattle.mm_call.specs.Checkpoints.{AskPromise};
ghost use Rattle.mm_ask.specs.WholeAsk.{ask_call};
ghost use Rattle.mm_recovery.specs.HostStanding.{IsCall};

use mm_ask::{Ask, Caller};
use mm_call::KeptKey;
use mm_model::{Answer, BatchAnswer, Refusal};
use mm_module::{Batch, Module};
use mm_platform::Platform;

/// Asks for one request, which isn't too long, offering a snapshot.
pub fn ask<M: Module, P: Platform>(
    caller: &Caller<M>,
    platform: &mut P,
    offer: &[u8],
    request: &[u8],
) -> Result<Answer, Refusal>
    requires { is_long (One request.now) ≡ false }
    ensures { IsCall caller.now.variant (M.meaning caller.now.«module».now)
        (P.standing platform.old) (P.standing platform.new) offer.now request.now result }
{
    match call_one(caller, platform, offer, request) {
        Err(refusal) => Err(refusal),
        Ok(answer) => Ok(answer.into_one()),
    }
}

// The call, whose answer has one output.
fn call_one<M: Module, P: Platform>(
    caller: &Caller<M>,
    platform: &mut P,
    offer: &[u8],
    request: &[u8],
) -> Result<BatchAnswer, Refusal>
    requires { is_long (One request.now) ≡ false }
    ensures asked { AskPromise (ask_call caller.now.variant) (M.meaning caller.now.«module».now)
        (P.standing platform.old) (P.standing platform.new) offer.now (One request.now) result }
    ensures one { IfOk result (λ answer. length answer.outputs ≡ 1) }
{
    let ask = Ask {
        variant: caller.variant,
        alloc: caller.alloc,
        module: caller.module,
        offer,
        batch: Batch::One(request),
    };
    ask.call(platform, &mut KeptKey::new()).result()
}
