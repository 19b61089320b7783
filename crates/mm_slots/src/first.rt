//! The slots of a platform at first.

ghost use Rattle.std.specs.Prelude.{◌≡◌, ◌<◌, ◌≤◌, ◌++◌, ◌∷◌, [], IfOk, OnOk, length};
ghost use Rattle.mm_slots.specs.Table.{first_row, first_rows};

use crate::slot_number::SlotNumber;
use crate::tenant::Tenant;
use mm_bytes::Memory;
use mm_schedule::Header;
use std::alloc::Global;

// Adds the slot with this number.
fn add_slot(
    alloc: Global,
    number: SlotNumber,
    header: &Header,
    slots: &mut Vec<Tenant>,
) -> Result<(), Memory>
    requires { number < 16 }
    ensures { OnOk result (slots.new.items ≡ slots.old.items ++ first_row number header.now ∷ []) }
{
    slots.reserve(1)?;
    let slot = Tenant::first(alloc, number, header)?;
    slots.push_reserved(slot);
    Ok(())
}

/// The slots of a platform at first, one for each header.
pub fn first_slots(alloc: Global, headers: &[Header]) -> Result<Vec<Tenant>, Memory>
    requires { length headers.now ≤ 16 }
    ensures { IfOk result (λ slots. slots.items ≡ first_rows headers.now) }
{
    let mut slots = Vec::new(alloc);
    for place in 0..headers.len() {
        add_slot(alloc, SlotNumber::at(place), &headers[place], &mut slots)?;
    }
    Ok(slots)
}
