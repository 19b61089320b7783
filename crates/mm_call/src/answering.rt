//! The answer to a batch.

ghost use Rattle.std.specs.Prelude.{◌≡◌, ◌+◌, ◌≤◌, false, IfOk, IsTrue};
ghost use Rattle.mm_bytes.specs.Limits.{last_position};
ghost use Rattle.mm_module.specs.Batch.{size_of};
ghost use Rattle.mm_module.specs.Batches.{batch_of};
ghost use Rattle.mm_seal.specs.Parts.{content_of};
ghost use Rattle.mm_model.specs.Moves.{is_long};
ghost use Rattle.mm_call.specs.CallFinding.{answer_at};

use mm_bytes::Memory;
use mm_model::{BatchAnswer, BatchRun, run_batch_in};
use mm_module::{Batch, Module};
use mm_seal::{Body, Place, SealingKey};
use std::alloc::Global;

/// The answer to a batch that runs from an offered state, with the place that it leads to. The key
/// stays the same, whether memory is wanting or not.
#[inline(always)]
pub fn answer<M: Module>(
    alloc: Global,
    module: &M,
    key: &mut SealingKey,
    offered: &Body<'_>,
    place: Place,
    batch: Batch<'_>,
    again: bool,
) -> Result<BatchAnswer, Memory>
    requires spelled { IsTrue ((M.meaning «module».now).is_spelled offered.now.state.now) }
    requires fits { offered.now.position + size_of (batch_of batch) ≤ last_position }
    requires short { is_long (batch_of batch) ≡ false }
    ensures answers { IfOk result (λ answer. answer ≡ answer_at (M.meaning «module».now) key.old
        (content_of offered.now) place (batch_of batch.entry) again) }
    ensures same { key.new ≡ key.old }
{
    let room = key.take_room(alloc);
    let BatchRun { state, outputs } = run_batch_in(alloc, module, offered.state, batch, room)?;
    let position = offered.position + batch.len() as u64;
    let body = Body {
        module: module.id(),
        place,
        position,
        state: state.as_slice(),
    };
    let snapshot = if again {
        key.seal(alloc, &body)?
    } else {
        key.seal_new(alloc, &body)?
    };
    key.give_room(state);
    Ok(BatchAnswer {
        again,
        position,
        outputs,
        snapshot,
    })
}
