//! Callers of Basic.

ghost use Rattle.std.specs.Prelude.{◌≡◌};
ghost use Rattle.mm_digest.specs.declared.variant.Variant.TheVariants.{Basic};
ghost use Rattle.mm_module.specs.Batch.{One};
ghost use Rattle.mm_call.specs.CallFinding.{batch_result_of};
ghost use Rattle.mm_callers.specs.Basic.{AsksAgain, AsksTwice};
ghost use Rattle.mm_callers.specs.Counts.{CountsAgain, CountsNext};

use mm_basic::ask;
use mm_model::{Answer, Refusal};
use mm_module::Module;
use mm_platform::Platform;
use std::alloc::Global;

/// Asks for a request, offering a snapshot; and once more, offering the same one, where a device's
/// step failed, at whatever step that was and whether or not it had its effect. The request is
/// committed once.
pub fn ask_again<M: Module, P: Platform>(
    alloc: Global,
    module: &M,
    platform: &mut P,
    offer: &[u8],
    request: &[u8],
) -> Result<Answer, Refusal>
    ensures again { AsksAgain (M.meaning «module».now) (P.standing platform.old)
        (P.standing platform.new) offer.now request.now (batch_result_of result) }
    ensures counts { CountsAgain Basic (One request.now) (P.standing platform.old)
        (P.standing platform.new) (batch_result_of result) }
{
    match ask(alloc, module, platform, offer, request) {
        Ok(answer) => Ok(answer),
        Err(Refusal::Device(_)) => ask(alloc, module, platform, offer, request),
        Err(refusal) => Err(refusal),
    }
}

/// Asks for two requests, the second on the snapshot of the first answer. The second is always a
/// new one.
pub fn ask_twice<M: Module, P: Platform>(
    alloc: Global,
    module: &M,
    platform: &mut P,
    offer: &[u8],
    first: &[u8],
    second: &[u8],
) -> Result<Answer, Refusal>
    ensures twice { AsksTwice (M.meaning «module».now) (P.standing platform.old)
        (P.standing platform.new) offer.now first.now second.now (batch_result_of result) }
    ensures counts { CountsNext Basic (One first.now) (One second.now) (P.standing platform.old)
        (P.standing platform.new) (batch_result_of result) }
{
    match ask(alloc, module, platform, offer, first) {
        Err(refusal) => Err(refusal),
        Ok(answer) => {
            let newest = answer.snapshot.as_slice();
            ask(alloc, module, platform, newest, second)
        }
    }
}
