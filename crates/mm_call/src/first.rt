//! The first cell and snapshot of a platform.

ghost use Rattle.std.specs.Prelude.{◌≡◌, IfOk};
ghost use Rattle.mm_seal.specs.Cell.{FitsVariant, cell_spelling};
ghost use Rattle.mm_seal.specs.Snapshot.{sealed_snapshot_of};

use mm_bytes::{Bytes, CELL_LENGTH, Memory};
use mm_module::Module;
use mm_seal::{Body, Cell, Place, cell_bytes, seal};
use std::alloc::Global;

/// The first cell and the snapshot of position 0.
#[derive(Drop)]
pub struct Provisioned {
    /// The cell's 104 bytes.
    pub cell: [u8; CELL_LENGTH],
    pub snapshot: Bytes,
}

/// The bytes of a first cell, and the first snapshot of a module under its key, at this place.
pub fn provision_with<M: Module>(
    alloc: Global,
    module: &M,
    cell: &Cell,
    place: Place,
) -> Result<Provisioned, Memory>
    requires { FitsVariant cell.now.variant cell.now.flag cell.now.barrier }
    ensures cell { IfOk result (λ made. made.cell ≡ cell_spelling cell.now) }
    ensures snapshot { IfOk result
        (λ made. made.snapshot ≡ sealed_snapshot_of cell.now.key (record {
          id = (M.meaning «module».now).id;
          place = place;
          position = 0;
          state = (M.meaning «module».now).first;
        })) }
{
    let state = module.first_state(alloc)?;
    let body = Body {
        module: module.id(),
        place,
        position: 0,
        state: state.as_slice(),
    };
    let snapshot = seal(alloc, &cell.key, &body)?;
    Ok(Provisioned {
        cell: cell_bytes(cell),
        snapshot,
    })
}
