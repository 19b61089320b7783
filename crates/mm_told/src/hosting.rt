//! A host of Basic in Rattle: it makes the steps that it is told on a platform, to copy.

ghost use Rattle.std.specs.Prelude.{◌≡◌, ℕ, IfSome, length};
ghost use Rattle.mm_platform.specs.Standing.{Standing};
ghost use Rattle.mm_module.specs.Batch.{One};
ghost use Rattle.mm_call.specs.CallFinding.{batch_result_of};
ghost use Rattle.mm_basic.specs.AskPromise.{BasicAskPromise};
ghost use Rattle.mm_told.specs.CallPath.{AreMade, bare_standing, IsMade};

use crate::asking::ask;
use crate::making::make;
use crate::outcome::StepsOutcome;
use crate::step::MadeStep;
use mm_call::KeptKey;
use mm_digest::Variant;
use mm_model::{Answer, Refusal};
use mm_module::Module;
use mm_platform::Platform;
use std::alloc::Global;

/// Asks for a request over a platform of Basic, whose steps it makes as it is told: the call over
/// that platform. None where it came to no end: memory was wanting, or another step was told than
/// the one that was made.
pub fn ask_by_steps<M: Module, P: Platform>(
    alloc: Global,
    module: &M,
    platform: &mut P,
    offer: &[u8],
    request: &[u8],
) -> Option<Result<Answer, Refusal>>
    ensures { IfSome result (λ gives. BasicAskPromise (M.meaning «module».now)
        (bare_standing (P.standing platform.old))
        (bare_standing (P.standing platform.new)) offer.now
        (One request.now) (batch_result_of gives)) }
{
    begin(alloc, module, platform, offer, request, &mut KeptKey::new())
}

// Before the first step.
fn begin<M: Module, P: Platform>(
    alloc: Global,
    module: &M,
    platform: &mut P,
    offer: &[u8],
    request: &[u8],
    keys: &mut KeptKey,
) -> Option<Result<Answer, Refusal>>
    ghost start: { Standing }
    requires { start ≡ bare_standing (P.standing platform.old) }
    ensures { IfSome result (λ gives. BasicAskPromise (M.meaning «module».now) start
        (bare_standing (P.standing platform.new)) offer.now (One request.now)
        (batch_result_of gives)) }
{
    match ask(alloc, Variant::Basic, module, &[], offer, request, keys) {
        StepsOutcome::Ended(gives) => Some(gives),
        StepsOutcome::Next(step) => match make(platform, &step) {
            Ok(one) => go_on(alloc, module, platform, &one, offer, request, keys),
            Err(_) => None,
        },
        StepsOutcome::Differs => None,
        StepsOutcome::Memory => None,
    }
}

// Behind one step.
fn go_on<M: Module, P: Platform>(
    alloc: Global,
    module: &M,
    platform: &mut P,
    one: &MadeStep,
    offer: &[u8],
    request: &[u8],
    keys: &mut KeptKey,
) -> Option<Result<Answer, Refusal>>
    ghost start: { Standing × Standing }
    requires here { start.1 ≡ bare_standing (P.standing platform.old) }
    requires one { IsMade one.now start.0 start.1 }
    ensures { IfSome result
        (λ gives. BasicAskPromise (M.meaning «module».now) (bare_standing start.0)
        (bare_standing (P.standing platform.new)) offer.now (One request.now)
        (batch_result_of gives)) }
{
    match ask(alloc, Variant::Basic, module, &[*one], offer, request, keys) {
        StepsOutcome::Ended(gives) => Some(gives),
        StepsOutcome::Next(step) => match make(platform, &step) {
            Ok(two) => end(alloc, module, platform, &[*one, two], offer, request, keys),
            Err(_) => None,
        },
        StepsOutcome::Differs => None,
        StepsOutcome::Memory => None,
    }
}

// Behind both, where the platform stands now.
fn end<M: Module, P: Platform>(
    alloc: Global,
    module: &M,
    _platform: &P,
    made: &[MadeStep],
    offer: &[u8],
    request: &[u8],
    keys: &mut KeptKey,
) -> Option<Result<Answer, Refusal>>
    ghost stood: { ℕ → Standing }
    requires { AreMade (λ left. bare_standing (stood left)) made.now }
    ensures { IfSome result (λ gives. BasicAskPromise (M.meaning «module».now)
        (bare_standing (stood (length made.now))) (bare_standing (stood 0)) offer.now
        (One request.now)
        (batch_result_of gives)) }
{
    match ask(alloc, Variant::Basic, module, made, offer, request, keys) {
        StepsOutcome::Ended(gives) => Some(gives),
        _ => None,
    }
}
