//! Callers of Opt.

ghost use Rattle.mm_digest.specs.declared.variant.Variant.TheVariants.{Opt};
ghost use Rattle.mm_module.specs.Batch.{One};
ghost use Rattle.mm_call.specs.CallFinding.{batch_result_of};
ghost use Rattle.mm_callers.specs.Counts.{CountsCall, CountsAgain, CountsNext};
ghost use Rattle.mm_callers.specs.Opt.{AsksOnce, AsksByQuietPlan, AsksInMemory, AsksTwice, AsksWelcome};

use mm_model::{Answer, Refusal};
use mm_module::Module;
use mm_opt::ask;
use mm_platform::{MemPlatform, Platform};
use std::alloc::Global;

/// Asks for a request, offering a snapshot, inside a segment or across an opening.
pub fn ask_once<M: Module, P: Platform>(
    alloc: Global,
    module: &M,
    platform: &mut P,
    offer: &[u8],
    request: &[u8],
) -> Result<Answer, Refusal>
    ensures once { AsksOnce (M.meaning «module».now) (P.standing platform.old)
        (P.standing platform.new) offer.now request.now (batch_result_of result) }
    ensures welcome { AsksWelcome (M.meaning «module».now) (P.standing platform.old)
        (P.standing platform.new) offer.now request.now (batch_result_of result) }
    ensures complete { AsksByQuietPlan (M.meaning «module».now) (P.standing platform.old)
        (P.standing platform.new) offer.now request.now (batch_result_of result) }
    ensures counts { CountsCall Opt (One request.now) (P.standing platform.old)
        (P.standing platform.new) (batch_result_of result) }
{
    ask(alloc, module, platform, offer, request)
}

/// Asks for a request, offering a snapshot, over a platform in memory whose plan is ended: nothing
/// fails, and nobody else extends the register.
pub fn ask_in_memory<M: Module>(
    alloc: Global,
    module: &M,
    platform: &mut MemPlatform,
    offer: &[u8],
    request: &[u8],
) -> Result<Answer, Refusal>
    ensures complete { AsksInMemory (M.meaning «module».now) platform.old platform.new offer.now
        request.now (batch_result_of result) }
    ensures counts { CountsCall Opt (One request.now) platform.old platform.new
        (batch_result_of result) }
{
    platform.end_plan();
    ask_once(alloc, module, platform, offer, request)
}

/// Asks for a request, offering a snapshot; and once more, offering the same one, where a device's
/// step failed, at whatever step that was and whether or not it had its effect. The request is
/// committed once, and answered as if it had been asked once.
pub fn ask_after_fault<M: Module, P: Platform>(
    alloc: Global,
    module: &M,
    platform: &mut P,
    offer: &[u8],
    request: &[u8],
) -> Result<Answer, Refusal>
    ensures once { AsksOnce (M.meaning «module».now) (P.standing platform.old)
        (P.standing platform.new) offer.now request.now (batch_result_of result) }
    ensures complete { AsksByQuietPlan (M.meaning «module».now) (P.standing platform.old)
        (P.standing platform.new) offer.now request.now (batch_result_of result) }
    ensures counts { CountsAgain Opt (One request.now) (P.standing platform.old)
        (P.standing platform.new) (batch_result_of result) }
{
    match ask(alloc, module, platform, offer, request) {
        Ok(answer) => Ok(answer),
        Err(Refusal::Device(_)) => ask(alloc, module, platform, offer, request),
        Err(refusal) => Err(refusal),
    }
}

/// Asks for two requests, the second on the snapshot of the first answer. The second is always a
/// new one.
pub fn ask_twice<M: Module, P: Platform>(
    alloc: Global,
    module: &M,
    platform: &mut P,
    offer: &[u8],
    first: &[u8],
    second: &[u8],
) -> Result<Answer, Refusal>
    ensures twice { AsksTwice (M.meaning «module».now) (P.standing platform.old)
        (P.standing platform.new) offer.now first.now second.now (batch_result_of result) }
    ensures counts { CountsNext Opt (One first.now) (One second.now) (P.standing platform.old)
        (P.standing platform.new) (batch_result_of result) }
{
    match ask(alloc, module, platform, offer, first) {
        Err(refusal) => Err(refusal),
        Ok(answer) => {
            let newest = answer.snapshot.as_slice();
            ask(alloc, module, platform, newest, second)
        }
    }
}
