//! Calls of both cores over two cells on a memory whose writes tear.

ghost use Rattle.std.specs.Prelude.{◌≡◌, false};
ghost use Rattle.mm_digest.specs.declared.variant.Variant.TheVariants.{Basic, Opt};
ghost use Rattle.mm_module.specs.Batches.{batch_of};
ghost use Rattle.mm_model.specs.Moves.{is_long};
ghost use Rattle.mm_call.specs.CallKind.{IsCallOnCourse};
ghost use Rattle.mm_recovery.specs.HostStanding.{IsCheckpoint};
ghost use Rattle.mm_at_work.specs.Devices.{two_cells};

use mm_model::{BatchAnswer, Refusal};
use mm_module::{Batch, Module};
use mm_opt::{CheckpointRefusal, Checkpointed};
use mm_twocell::{MemRaw, TwoCell};
use std::alloc::Global;

/// One call of Basic.
pub fn ask_basic<M: Module>(
    alloc: Global,
    module: &M,
    platform: &mut TwoCell<MemRaw>,
    offer: &[u8],
    batch: Batch<'_>,
) -> Result<BatchAnswer, Refusal>
    ensures { is_long (batch_of batch.entry) ≡ false → IsCallOnCourse Basic (M.meaning «module».now)
        (two_cells platform.old) (two_cells platform.new) offer.now (batch_of batch.entry) result }
{
    mm_basic::ask_batch(alloc, module, platform, offer, batch)
}

/// One call of Opt.
pub fn ask_opt<M: Module>(
    alloc: Global,
    module: &M,
    platform: &mut TwoCell<MemRaw>,
    offer: &[u8],
    batch: Batch<'_>,
) -> Result<BatchAnswer, Refusal>
    ensures { is_long (batch_of batch.entry) ≡ false → IsCallOnCourse Opt (M.meaning «module».now)
        (two_cells platform.old) (two_cells platform.new) offer.now (batch_of batch.entry) result }
{
    mm_opt::ask_batch(alloc, module, platform, offer, batch)
}

/// One checkpoint.
pub fn close_segment(platform: &mut TwoCell<MemRaw>) -> Result<Checkpointed, CheckpointRefusal>
    ensures { IsCheckpoint (two_cells platform.old) (two_cells platform.new) result }
{
    mm_opt::checkpoint(platform)
}
