//! A batch that runs in memory.

ghost use Rattle.std.specs.Prelude.{◌≡◌, ◌<◌, ◌++◌, [], ◌∷◌, false, IfOk, OnOk, IsTrue, Some, slice_get};
ghost use Rattle.mm_module.specs.Meaning.{IsLine, outputs_from, state_from};
ghost use Rattle.mm_module.specs.Batch.{members_of, size_of};
ghost use Rattle.mm_module.specs.Batches.{batch_of};
ghost use Rattle.mm_model.specs.Moves.{is_long, IsPartialRun};

use mm_bytes::{Bytes, Memory};
use mm_module::{Batch, Module, Outputs, Stepped};
use std::alloc::Global;

/// What a batch came to: the state after it, and what the module says to each request.
#[derive(Drop)]
pub struct BatchRun {
    pub state: Bytes,
    pub outputs: Outputs,
}

/// Runs the requests of a batch one after another, from a state.
pub fn run_batch<M: Module>(
    alloc: Global,
    module: &M,
    state: &[u8],
    batch: Batch<'_>,
) -> Result<BatchRun, Memory>
    requires spelled { IsTrue ((M.meaning «module».now).is_spelled state.now) }
    requires short { is_long (batch_of batch) ≡ false }
    ensures state { IfOk result (λ ran.
        ran.state ≡ state_from (M.meaning «module».now) state.now
        (members_of (batch_of batch.entry))) }
    ensures outputs { IfOk result (λ ran.
        ran.outputs ≡ outputs_from (M.meaning «module».now) state.now
        (members_of (batch_of batch.entry))) }
{
    run_batch_in(alloc, module, state, batch, Bytes::new(alloc))
}

/// The same, where the state after the first request takes the memory of these bytes.
#[inline(always)]
pub fn run_batch_in<M: Module>(
    alloc: Global,
    module: &M,
    state: &[u8],
    batch: Batch<'_>,
    room: Bytes,
) -> Result<BatchRun, Memory>
    requires spelled { IsTrue ((M.meaning «module».now).is_spelled state.now) }
    requires short { is_long (batch_of batch) ≡ false }
    ensures state { IfOk result (λ ran.
        ran.state ≡ state_from (M.meaning «module».now) state.now
        (members_of (batch_of batch.entry))) }
    ensures outputs { IfOk result (λ ran.
        ran.outputs ≡ outputs_from (M.meaning «module».now) state.now
        (members_of (batch_of batch.entry))) }
{
    let mut ran = run_first(alloc, module, state, batch, room)?;
    'members: for i in 1..batch.len() {
        run_next(alloc, module, &mut ran, request_at(batch, i))?;
    }
    Ok(ran)
}

// Runs one more member of a batch.
#[inline(always)]
fn run_next<M: Module>(
    alloc: Global,
    module: &M,
    ran: &mut BatchRun,
    request: &[u8],
) -> Result<(), Memory>
    requires spelled { IsTrue ((M.meaning «module».now).is_spelled ran.old.state) }
    requires line { IsLine request.now }
    ensures state { OnOk result
        (ran.new.state ≡ (M.meaning «module».now).next ran.old.state request.now) }
    ensures outputs { OnOk result (ran.new.outputs
        ≡ ran.old.outputs ++ (M.meaning «module».now).says ran.old.state request.now ∷ []) }
{
    let Stepped { state, output } = module.step(alloc, ran.state.as_slice(), request)?;
    ran.state = state;
    ran.outputs.push(output)
}

// Runs the first member of a batch.
#[inline(always)]
fn run_first<M: Module>(
    alloc: Global,
    module: &M,
    state: &[u8],
    batch: Batch<'_>,
    mut room: Bytes,
) -> Result<BatchRun, Memory>
    requires spelled { IsTrue ((M.meaning «module».now).is_spelled state.now) }
    requires short { is_long (batch_of batch) ≡ false }
    ensures { IfOk result (λ ran.
        IsPartialRun (M.meaning «module».now) state.now (members_of (batch_of batch.entry)) 1
        ran.state ran.outputs) }
{
    let request = request_at(batch, 0);
    room.clear();
    let output = module.step_into(alloc, state, request, &mut room)?;
    Ok(BatchRun {
        state: room,
        outputs: Outputs::one(alloc, output),
    })
}

// The request at this index.
#[inline(always)]
fn request_at<'a>(batch: Batch<'a>, i: usize) -> &'a [u8]
    requires within { i < size_of (batch_of batch) }
    requires short { is_long (batch_of batch) ≡ false }
    ensures at { slice_get (members_of (batch_of batch.entry)) i ≡ Some result.now }
    ensures line { IsLine result.now }
{
    match batch.member(i) {
        Some(request) => request,
        None => unreachable!(),
    }
}
