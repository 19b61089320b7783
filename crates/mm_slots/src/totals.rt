//! What all slots count together, and the last line of each.

ghost use Rattle.std.specs.Prelude.{◌≡◌, ◌≤◌, ◌<◌, ◌^◌, ◌++◌, OnOk, length};
ghost use Rattle.std.specs.List.{All};
ghost use Rattle.mm_slots.specs.Table.{slot_end_line, end_lines, IsCounted};
ghost use Rattle.mm_slots.specs.Stage.{committed_count_in, issued_count_in, kept_bytes_in};
ghost use Rattle.mm_world.specs.Lengths.{within_64};

use crate::put::put_slot_end;
use crate::slot_number::SlotNumber;
use crate::tenant::Tenant;
use mm_bytes::{Bytes, Memory};

/// The bytes of the snapshots issued in these slots, or the most that 64 bits tell.
pub fn bytes_in(slots: &[Tenant]) -> u64
    ensures { result ≡ within_64 (kept_bytes_in slots.now) }
{
    let mut total = 0u64;
    for slot in slots {
        total = total.saturating_add(slot.kept());
    }
    total
}

/// The requests committed in these slots, or the most that 64 bits tell.
pub fn requests_in(slots: &[Tenant]) -> u64
    ensures { result ≡ within_64 (committed_count_in slots.now) }
{
    let mut total = 0u64;
    for slot in slots {
        total = total.saturating_add(slot.committed());
    }
    total
}

/// The snapshots issued in these slots, or the most that 64 bits tell.
pub fn snapshots_in(slots: &[Tenant]) -> u64
    ensures { result ≡ within_64 (issued_count_in slots.now) }
{
    let mut total = 0u64;
    for slot in slots {
        total = total.saturating_add(slot.snapshots());
    }
    total
}

/// Puts the last lines at the end, one for each slot.
pub fn put_ends(slots: &[Tenant], into: &mut Bytes) -> Result<(), Memory>
    requires few { length slots.now ≤ 16 }
    requires counted { All IsCounted slots.now }
    ensures { OnOk result (into.new ≡ into.old ++ end_lines 0 slots.now) }
{
    for place in 0..slots.len() {
        put_end_of(SlotNumber::at(place), &slots[place], into)?;
    }
    Ok(())
}

// Puts the last line of the slot with this number at the end.
fn put_end_of(number: SlotNumber, slot: &Tenant, into: &mut Bytes) -> Result<(), Memory>
    requires { length slot.now.slot.issued < 2 ^ 32 }
    ensures { OnOk result (into.new ≡ into.old
        ++ slot_end_line number slot.now.slot.digests.count (length slot.now.slot.issued)) }
{
    put_slot_end(number, slot.committed(), slot.snapshots() as u32, into)
}
