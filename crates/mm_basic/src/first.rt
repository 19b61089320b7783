//! The first cell and snapshot of a platform.

ghost use Rattle.std.specs.Prelude.{◌≡◌, [], IfOk};
ghost use Rattle.mm_seal.specs.Cell.{cell_spelling};
ghost use Rattle.mm_model.specs.History.{first_history};
ghost use Rattle.mm_model.specs.Chains.{basic_instance};
ghost use Rattle.mm_model.specs.Standing.{cell_of, issued_bytes};

use mm_bytes::Memory;
use mm_call::{Provisioned, provision_with};
use mm_digest::{Variant, start, zero};
use mm_module::Module;
use mm_seal::{Cell, Place};
use std::alloc::Global;

/// The first cell and snapshot of a module under a key. Basic has no barrier, and ignores it.
pub fn provision<M: Module>(
    alloc: Global,
    module: &M,
    key: &[u8; 32],
    _barrier: &[u8; 32],
) -> Result<Provisioned, Memory>
    ensures cell { IfOk result (λ made.
        made.cell
        ≡ cell_spelling (cell_of (basic_instance (M.meaning «module».now) key.now) first_history)) }
    ensures snapshot { IfOk result (λ made.
        made.snapshot ≡ issued_bytes (basic_instance (M.meaning «module».now) key.now)
        first_history) }
{
    let id = module.id();
    let summary = start(Variant::Basic, id);
    let key = *key;
    let barrier = zero();
    let barrier = barrier.bytes;
    let cell = Cell {
        variant: Variant::Basic,
        module: id,
        flag: false,
        summary,
        key,
        barrier,
    };
    provision_with(alloc, module, &cell, Place::Basic(summary))
}
