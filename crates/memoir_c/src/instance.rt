//! The instance that a cell holds.

ghost use Rattle.std.specs.Prelude.{◌≡◌, ◌≢◌};
ghost use Rattle.memoir_c.specs.PlainAnswers.{TellsInstance, TellsSeen, TellsKnown};

use crate::asking::Instance;
use crate::said::ReturnStatus;
use mm_bytes::CELL_LENGTH;
use mm_model::Refusal;
use mm_modules::by_id;
use mm_seal::{Cell, CellFault, read_cell};

/// The bytes of a cell.
#[repr(C)]
#[derive(Clone, Copy, Drop)]
pub struct CellBytes {
    pub bytes: [u8; CELL_LENGTH],
}

/// Writes the variant and the module of the instance that a cell with these bytes holds. Blank
/// where they are zero, Cell where they are no cell, or one of no module here.
#[unsafe(no_mangle)]
pub extern "C" fn memoir_cell_instance(cell: &CellBytes, instance: &mut Instance) -> u32
    ensures told { TellsInstance cell.now.bytes instance.old instance.new result }
    ensures unsaid { result ≢ 0 → instance.new ≡ instance.old }
{
    put_seen(read_cell(&cell.bytes), instance).code()
}

// Writes what was seen.
fn put_seen(seen: Result<Cell, CellFault>, instance: &mut Instance) -> ReturnStatus
    ensures told { TellsSeen seen instance.old instance.new result }
    ensures unsaid { result ≢ ReturnStatus.Done → instance.new ≡ instance.old }
{
    match seen {
        Err(CellFault::Blank) => ReturnStatus::Refused(Refusal::Blank),
        Err(CellFault::Cell) => ReturnStatus::Refused(Refusal::Cell),
        Ok(cell) => put_known(&cell, instance),
    }
}

// Writes those of a cell, where there is such a module.
fn put_known(cell: &Cell, instance: &mut Instance) -> ReturnStatus
    ensures told { TellsKnown cell.now instance.old instance.new result }
    ensures unsaid { result ≢ ReturnStatus.Done → instance.new ≡ instance.old }
{
    match by_id(cell.module) {
        None => ReturnStatus::Refused(Refusal::Cell),
        Some(_) => {
            instance.variant = cell.variant.byte();
            instance.module = cell.module;
            ReturnStatus::Done
        }
    }
}
