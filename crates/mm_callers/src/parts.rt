//! Callers that make a call in parts: prepare, commit, take the answer.

ghost use Rattle.std.specs.Prelude.{◌≡◌, false, IfOk};
ghost use Rattle.mm_digest.specs.declared.variant.Variant.TheVariants.{Basic, Opt};
ghost use Rattle.mm_module.specs.Batch.{One};
ghost use Rattle.mm_model.specs.Moves.{is_long};
ghost use Rattle.mm_call.specs.CallKind.{IsCallOnCourse};
ghost use Rattle.mm_call.specs.CallFinding.{result_with_fault};
ghost use Rattle.mm_basic.specs.Operation.{basic_operation};
ghost use Rattle.mm_opt.specs.AskPromise.{opt_operation};
ghost use Rattle.mm_callers.specs.Counts.{CommitsFirst};

use mm_call::Committed;
use mm_model::{BatchAnswer, Refusal};
use mm_module::Module;
use mm_platform::{Platform, StepFault};
use std::alloc::Global;

// What a caller gets of a commit.
fn handed_out(committed: Result<Committed, StepFault>) -> Result<BatchAnswer, Refusal>
    ensures { result ≡ result_with_fault committed }
{
    match committed {
        Err(fault) => Err(Refusal::Device(fault)),
        Ok(committed) => Ok(committed.answer()),
    }
}

/// Asks Basic for a request in parts. Where nothing comes between them it is one call.
pub fn ask_basic_in_parts<M: Module, P: Platform>(
    alloc: Global,
    module: &M,
    platform: &mut P,
    offer: &[u8],
    request: &[u8],
) -> Result<BatchAnswer, Refusal>
    ensures { is_long (One request.now) ≡ false → IsCallOnCourse Basic (M.meaning «module».now)
        (P.standing platform.old) (P.standing platform.new) offer.now (One request.now) result }
{
    match mm_basic::prepare(alloc, module, platform, offer, request) {
        Err(refusal) => Err(refusal),
        Ok(prepared) => handed_out(prepared.commit(platform)),
    }
}

/// Asks Opt for a request in parts. Where nothing comes between them it is one call.
pub fn ask_opt_in_parts<M: Module, P: Platform>(
    alloc: Global,
    module: &M,
    platform: &mut P,
    offer: &[u8],
    request: &[u8],
) -> Result<BatchAnswer, Refusal>
    ensures { is_long (One request.now) ≡ false → IsCallOnCourse Opt (M.meaning «module».now)
        (P.standing platform.old) (P.standing platform.new) offer.now (One request.now) result }
{
    match mm_opt::prepare(alloc, module, platform, offer, request) {
        Err(refusal) => Err(refusal),
        Ok(prepared) => handed_out(prepared.commit(platform)),
    }
}

/// Prepares two requests of Basic on one snapshot, and commits the first: the reading step of the
/// second leaves the platform as the first needs it. Behind the first's commit the second isn't to
/// be committed, and is let go.
pub fn commit_first_in_basic<M: Module, P: Platform>(
    alloc: Global,
    module: &M,
    platform: &mut P,
    offer: &[u8],
    first: &[u8],
    second: &[u8],
) -> Result<BatchAnswer, Refusal>
    ensures { IfOk result (λ answer.
        CommitsFirst (basic_operation (M.meaning «module».now) offer.now) (P.standing platform.old)
        (P.standing platform.new) first.now second.now answer) }
{
    let one = match mm_basic::prepare(alloc, module, platform, offer, first) {
        Err(refusal) => return Err(refusal),
        Ok(prepared) => prepared,
    };
    let _two = match mm_basic::prepare(alloc, module, platform, offer, second) {
        Err(refusal) => return Err(refusal),
        Ok(prepared) => prepared,
    };
    handed_out(one.commit(platform))
}

/// Prepares two requests of Opt on one snapshot, and commits the first: the reading steps of the
/// second leave the platform as the first needs it. Behind the first's commit the second isn't to
/// be committed, and is let go.
pub fn commit_first_in_opt<M: Module, P: Platform>(
    alloc: Global,
    module: &M,
    platform: &mut P,
    offer: &[u8],
    first: &[u8],
    second: &[u8],
) -> Result<BatchAnswer, Refusal>
    ensures { IfOk result (λ answer. CommitsFirst (opt_operation (M.meaning «module».now) offer.now)
        (P.standing platform.old) (P.standing platform.new) first.now second.now answer) }
{
    let earlier = match mm_opt::prepare(alloc, module, platform, offer, first) {
        Err(refusal) => return Err(refusal),
        Ok(prepared) => prepared,
    };
    let _other = match mm_opt::prepare(alloc, module, platform, offer, second) {
        Err(refusal) => return Err(refusal),
        Ok(prepared) => prepared,
    };
    handed_out(earlier.commit(platform))
}
