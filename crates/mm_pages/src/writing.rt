//! Writing a slot by pages.

ghost use Rattle.std.specs.Prelude.{◌≡◌, ◌<◌, ◌≤◌, length};
ghost use Rattle.mm_store.specs.declared.store.TheConstants.{LONGEST_SLOT};
ghost use Rattle.mm_store.specs.StoreStanding.{unsynced_slots_of};
ghost use Rattle.mm_pages.specs.Rows.{may_be_same, row_in};
ghost use Rattle.mm_pages.specs.SlotWrites.{WritesRenewed, HoldsPage, PutsPage, PutsAllPages, FitsLength, EndsInSync, PutsBytes};

use crate::device::PageDevice;
use crate::digests::SlotDigests;
use crate::page::{page_count, page_of};
use crate::renewal::renew_due;
use mm_bytes::Failed;
use mm_digest::Digest;
use mm_store::Four;
use sha2::{Digest as _, Sha256};

// Puts these bytes in place of a slot's, which is renewed before where it is due. After `Failed`
// its digests are not to be used.
pub fn put_renewed<D: PageDevice>(
    device: &mut D,
    digests: &mut SlotDigests,
    due: &mut Four<bool>,
    slot: u8,
    bytes: &[u8],
) -> Result<(), Failed>
    requires slot { slot < 4 }
    requires short { length bytes.now ≤ LONGEST_SLOT }
    ensures { WritesRenewed slot bytes.now (unsynced_slots_of due.old) (unsynced_slots_of due.new)
        (D.pages device.old) (D.pages device.new) digests.old digests.new result }
{
    match renew_due(device, due, slot) {
        Ok(()) => put_bytes(device, digests, slot, bytes),
        Err(fault) => Err(fault),
    }
}

// Puts these bytes in place of a slot's, page by page.
fn put_bytes<D: PageDevice>(
    device: &mut D,
    digests: &mut SlotDigests,
    slot: u8,
    bytes: &[u8],
) -> Result<(), Failed>
    requires slot { slot < 4 }
    requires short { length bytes.now ≤ LONGEST_SLOT }
    ensures { PutsBytes slot bytes.now (D.pages device.old) (D.pages device.new) digests.old
        digests.new result }
{
    put_pages(device, digests, slot, bytes)?;
    digests.cut(slot, page_count(bytes.len()));
    fit_and_sync(device, slot, bytes.len() as u32)
}

// Puts the pages of these bytes, one after another.
fn put_pages<D: PageDevice>(
    device: &mut D,
    digests: &mut SlotDigests,
    slot: u8,
    bytes: &[u8],
) -> Result<(), Failed>
    requires slot { slot < 4 }
    requires short { length bytes.now ≤ LONGEST_SLOT }
    ensures { PutsAllPages slot bytes.now (D.pages device.old) (D.pages device.new) digests.old
        digests.new result }
{
    for page in 0..page_count(bytes.len()) {
        put_page(device, digests, slot, page, &page_of(bytes, page))?;
    }
    Ok(())
}

// Puts one page: writes it where it isn't there already.
fn put_page<D: PageDevice>(
    device: &mut D,
    digests: &mut SlotDigests,
    slot: u8,
    page: u16,
    bytes: &[u8; 256],
) -> Result<(), Failed>
    requires slot { slot < 4 }
    requires page { page < 4297 }
    requires reached { page ≤ length (row_in digests.old slot) }
    ensures { PutsPage slot page bytes.now (D.pages device.old) (D.pages device.new) digests.old
        digests.new result }
{
    let digest = Digest {
        bytes: Sha256::digest(bytes),
    };
    let kept = digests.get(slot, page);
    if holds_page(device, slot, page, kept, &digest, bytes)? {
        digests.keep(slot, page, digest);
        return Ok(());
    }
    digests.drop_page(slot, page);
    device.write_page(slot, page, bytes)?;
    digests.keep(slot, page, digest);
    Ok(())
}

// Whether a page is there already. It is read back unless the digest of another page is kept of it.
fn holds_page<D: PageDevice>(
    device: &mut D,
    slot: u8,
    page: u16,
    kept: Option<Digest>,
    digest: &Digest,
    bytes: &[u8; 256],
) -> Result<bool, Failed>
    requires slot { slot < 4 }
    requires page { page < 4297 }
    ensures { HoldsPage slot page kept digest.now bytes.now (D.pages device.old)
        (D.pages device.new) result }
{
    if !may_be(kept, digest) {
        return Ok(false);
    }
    let mut there = [0; 256];
    device.read_page(slot, page, &mut there)?;
    Ok(there == *bytes)
}

// Whether the digest kept of a page, if any, doesn't tell it from a page with this digest.
fn may_be(kept: Option<Digest>, digest: &Digest) -> bool
    ensures { result ≡ may_be_same kept digest.now }
{
    match kept {
        None => true,
        Some(kept) => kept.bytes == digest.bytes,
    }
}

// Gives the slot this length, and lets what was written to it be on the disk.
fn fit_and_sync<D: PageDevice>(device: &mut D, slot: u8, length: u32) -> Result<(), Failed>
    requires slot { slot < 4 }
    requires most { length ≤ LONGEST_SLOT }
    ensures { EndsInSync slot length (D.pages device.old) (D.pages device.new) result }
{
    fit_length(device, slot, length)?;
    device.sync(slot)
}

// Gives the slot this length, where it has another.
fn fit_length<D: PageDevice>(device: &mut D, slot: u8, length: u32) -> Result<(), Failed>
    requires slot { slot < 4 }
    requires most { length ≤ LONGEST_SLOT }
    ensures { FitsLength slot length (D.pages device.old) (D.pages device.new) result }
{
    if device.length(slot)? == length {
        return Ok(());
    }
    device.set_length(slot, length)
}
