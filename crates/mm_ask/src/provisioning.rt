//! The first cell and snapshot of a platform, in either variant.

ghost use Rattle.std.specs.Prelude.{◌≡◌, IfOk};
ghost use Rattle.mm_seal.specs.Cell.{cell_spelling};
ghost use Rattle.mm_model.specs.History.{first_history};
ghost use Rattle.mm_model.specs.Standing.{cell_of, issued_bytes};
ghost use Rattle.mm_call.specs.Standing.{instance_by};

use crate::secrets::Secrets;
use mm_bytes::Memory;
use mm_call::Provisioned;
use mm_digest::Variant;
use mm_module::Module;
use std::alloc::Global;

/// The first cell and snapshot of a module under these secrets.
pub fn provision<M: Module>(
    alloc: Global,
    variant: Variant,
    module: &M,
    secrets: &Secrets,
) -> Result<Provisioned, Memory>
    ensures cell { IfOk result (λ made. made.cell ≡ cell_spelling (cell_of
        (instance_by variant (M.meaning «module».now) secrets.now.key secrets.now.barrier)
        first_history)) }
    ensures snapshot { IfOk result (λ made. made.snapshot ≡ issued_bytes
        (instance_by variant (M.meaning «module».now) secrets.now.key secrets.now.barrier)
        first_history) }
{
    match variant {
        Variant::Basic => mm_basic::provision(alloc, module, &secrets.key, &secrets.barrier),
        Variant::Opt => mm_opt::provision(alloc, module, &secrets.key, &secrets.barrier),
    }
}
