//! Reading a slot by pages.

ghost use Rattle.std.specs.Prelude.{◌≡◌, ◌<◌, ◌≤◌, []};
ghost use Rattle.mm_store.specs.declared.store.TheConstants.{LONGEST_SLOT};
ghost use Rattle.mm_store.specs.StoreStanding.{unsynced_slots_of};
ghost use Rattle.mm_pages.specs.SlotWrites.{ReadsRenewed, GivesBytes, GivesPages, GivesSize};

use crate::device::PageDevice;
use crate::page::{PAGE, page_count};
use crate::renewal::renew_due;
use mm_bytes::{Bytes, Failed};
use mm_store::{Four, LONGEST_SLOT, StoreFault};
use std::alloc::Global;

// The first 1,100,000 bytes of a slot, which is renewed before where it is due.
pub fn read_renewed<D: PageDevice>(
    device: &mut D,
    due: &mut Four<bool>,
    alloc: Global,
    slot: u8,
) -> Result<Bytes, StoreFault>
    requires { slot < 4 }
    ensures { ReadsRenewed slot (unsynced_slots_of due.old) (unsynced_slots_of due.new)
        (D.pages device.old) (D.pages device.new) result }
{
    match renew_due(device, due, slot) {
        Ok(()) => read_bytes(device, alloc, slot),
        Err(_) => Err(StoreFault::Failed),
    }
}

// The first 1,100,000 bytes of a slot.
fn read_bytes<D: PageDevice>(device: &mut D, alloc: Global, slot: u8) -> Result<Bytes, StoreFault>
    requires { slot < 4 }
    ensures { GivesBytes slot (D.pages device.old) (D.pages device.new) result }
{
    let Ok(size) = size_seen(device, slot) else {
        return Err(StoreFault::Failed);
    };
    let Ok(mut bytes) = Bytes::with_capacity(alloc, size) else {
        return Err(StoreFault::Memory);
    };
    put_pages(device, slot, size, &mut bytes)?;
    Ok(bytes)
}

// How many bytes a read of the slot gives.
fn size_seen<D: PageDevice>(device: &mut D, slot: u8) -> Result<usize, Failed>
    requires { slot < 4 }
    ensures { GivesSize slot (D.pages device.old) (D.pages device.new) result }
{
    let length = device.length(slot)?;
    Ok((length as usize).min(LONGEST_SLOT))
}

// Puts the first bytes of a slot, of which there are so many, at the end.
fn put_pages<D: PageDevice>(
    device: &mut D,
    slot: u8,
    size: usize,
    bytes: &mut Bytes,
) -> Result<(), StoreFault>
    requires slot { slot < 4 }
    requires most { size ≤ LONGEST_SLOT }
    requires empty { bytes.old ≡ [] }
    ensures { GivesPages slot size (D.pages device.old) (D.pages device.new) bytes.new result }
{
    for page in 0..page_count(size) {
        let mut there = [0; 256];
        let Ok(()) = device.read_page(slot, page, &mut there) else {
            return Err(StoreFault::Failed);
        };
        let left = size - PAGE * usize::from(page);
        let (part, _) = there.split_at(left.min(PAGE));
        bytes.append(part)?;
    }
    Ok(())
}
