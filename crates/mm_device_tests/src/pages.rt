//! Which pages a write reads and writes, and what no clause says of the device in memory.

use mm_basic::provision;
use mm_bytes::{Failed, Memory};
use mm_module::Counter;
use mm_pages::{MemPages, PageDevice, PageStore};
use mm_store::{LONGEST_SLOT, Store, StoreFault};
use std::alloc::{AllocError, Global};
use std::process::Abort;
use std::test::Fail;

const ZEROS: [u8; 600] = [0; 600];

const ONES: [u8; 600] = [1; 600];

// So many bytes, one of which is another.
fn bytes_but(alloc: Global, size: usize, at: usize) -> Result<Vec<u8>, AllocError> {
    let mut bytes = vec![in alloc; 0u8; size]?;
    if let Some(byte) = bytes.get_mut(at) {
        *byte = 1;
    }
    Ok(bytes)
}

// A write to a slot, of bytes that are few enough.
fn put(store: &mut PageStore<MemPages>, slot: u8, bytes: &[u8]) -> Result<(), StoreFault> {
    if slot > 3 {
        return Err(StoreFault::Memory);
    }
    if bytes.len() > LONGEST_SLOT {
        return Err(StoreFault::Memory);
    }
    store.write(slot, bytes)
}

// Whether a slot is read, and then as these bytes or as others.
fn is_read(
    store: &mut PageStore<MemPages>,
    alloc: Global,
    slot: u8,
    bytes: &[u8],
    is_same: bool,
) -> bool {
    if slot > 3 {
        return false;
    }
    match store.read(alloc, slot) {
        Ok(read) => (read.as_slice() == bytes) == is_same,
        Err(_) => false,
    }
}

// Whether a slot is read as these bytes.
fn holds(store: &mut PageStore<MemPages>, alloc: Global, slot: u8, bytes: &[u8]) -> bool {
    is_read(store, alloc, slot, bytes, true)
}

// How many pages were read so far.
fn page_reads(store: &mut PageStore<MemPages>) -> u64 {
    store.device().page_reads()
}

// Whether so many pages were written, and lengths set, so far.
fn has_written(store: &mut PageStore<MemPages>, pages: u64, lengths: u64) -> bool {
    let device = store.device();
    device.page_writes() == pages && device.length_writes() == lengths
}

// Writes so many zero bytes, one of which is another, to a slot. Says whether so many pages were
// read and written, and lengths set, by then.
fn is_counted(
    store: &mut PageStore<MemPages>,
    alloc: Global,
    slot: u8,
    size: usize,
    at: usize,
    counts: [u64; 3],
) -> Result<bool, Fail> {
    put_but(store, alloc, slot, size, at)?;
    let [reads, pages, lengths] = counts;
    Ok(page_reads(store) == reads && has_written(store, pages, lengths))
}

fn put_but(
    store: &mut PageStore<MemPages>,
    alloc: Global,
    slot: u8,
    size: usize,
    at: usize,
) -> Result<(), Fail> {
    let bytes = bytes_but(alloc, size, at)?;
    Ok(put(store, slot, &bytes)?)
}

// The same of the first snapshot of a counter, which has 90 bytes, and slot 1.
fn first_is_counted(
    store: &mut PageStore<MemPages>,
    alloc: Global,
    counts: [u64; 3],
) -> Result<bool, Fail> {
    let made = provision(alloc, &Counter, &[7; 32], &[0; 32])?;
    let snapshot = made.snapshot.as_slice();
    let is_put = put(store, 1, snapshot) == Ok(());
    let [reads, pages, lengths] = counts;
    let is_counted = page_reads(store) == reads && has_written(store, pages, lengths);
    Ok(is_put && is_counted && snapshot.len() == 90)
}

// Whether a slot is read as such bytes.
fn holds_but(
    store: &mut PageStore<MemPages>,
    alloc: Global,
    slot: u8,
    size: usize,
    at: usize,
) -> Result<bool, Fail> {
    let bytes = bytes_but(alloc, size, at)?;
    Ok(holds(store, alloc, slot, &bytes))
}

// Pages that changed are written alone.
fn changed_pages_are_written(
    rt: &impl Abort,
    store: &mut PageStore<MemPages>,
    alloc: Global,
) -> Result<(), Fail> {
    assert!(rt; is_counted(store, alloc, 0, 70_000, 70_000, [274, 0, 1])?);
    assert!(rt; is_counted(store, alloc, 0, 70_000, 300, [547, 1, 1])?);
    assert!(rt; is_counted(store, alloc, 0, 70_000, 300, [821, 1, 1])?);
    assert!(rt; first_is_counted(store, alloc, [822, 2, 2])?);
    assert!(rt; is_counted(store, alloc, 1, 0, 0, [822, 2, 3])?);
    assert!(rt; holds_but(store, alloc, 0, 70_000, 300)?);
    assert!(rt; holds(store, alloc, 1, &[]));
    Ok(())
}

// Whether a write of zero bytes to slot 0 fails.
fn is_stopped(store: &mut PageStore<MemPages>) -> bool {
    match put(store, 0, &ZEROS) {
        Err(StoreFault::Failed) => true,
        _ => false,
    }
}

// How many pages a write reads back.
fn reads_of(store: &mut PageStore<MemPages>, slot: u8, bytes: &[u8]) -> Result<u64, StoreFault> {
    let before = page_reads(store);
    put(store, slot, bytes)?;
    Ok(page_reads(store).saturating_sub(before))
}

// Writes the same to slots 0 and 1.
fn put_ones(store: &mut PageStore<MemPages>) -> Result<(), StoreFault> {
    put(store, 0, &ONES)?;
    put(store, 1, &ONES)
}

fn stop_at(store: &mut PageStore<MemPages>, call: u64) -> Result<(), Memory> {
    store.device().stop_at(call, b"left")
}

// Whether a write to slot 0 fails at this call of the device, or at none where it is 0; and a
// later write to slot 1 reads no page back, and then one to slot 0 all pages or none.
fn is_dropped(store: &mut PageStore<MemPages>, call: u64) -> Result<bool, Fail> {
    put_ones(store)?;
    stop_at(store, call)?;
    let is_failed = is_stopped(store);
    let known = reads_of(store, 1, &ZEROS)?;
    let unknown = reads_of(store, 0, &ONES)?;
    let expected = if call == 0 { 0 } else { 3 };
    Ok(is_failed == (call > 0) && known == 0 && unknown == expected)
}

// Each of the six calls of a write fails in turn, or none: of the slot nothing is known then, and
// of the others all. Bytes of which no page was known are all read back, and bytes whose pages all
// have another digest are not.
fn failed_writes_are_dropped(
    rt: &impl Abort,
    store: &mut PageStore<MemPages>,
    alloc: Global,
) -> Result<(), Fail> {
    for call in 0..7u64 {
        assert!(rt; is_dropped(store, call)?, "{call}");
        assert!(rt;
            holds(store, alloc, 0, &ONES) && holds(store, alloc, 1, &ZEROS),
            "{call}"
        );
    }
    Ok(())
}

// Writes a page of this byte to a slot of a device.
fn fill(pages: &mut MemPages, slot: u8, page: u16, byte: u8) -> Result<(), Failed> {
    if slot > 3 {
        return Err(Failed);
    }
    if page > 4296 {
        return Err(Failed);
    }
    pages.write_page(slot, page, &[byte; 256])
}

// Whether bytes are put right by a second write of them, after others changed one of their pages.
fn is_put_right(
    store: &mut PageStore<MemPages>,
    alloc: Global,
    bytes: &[u8],
) -> Result<bool, Fail> {
    put(store, 2, bytes)?;
    fill(store.device(), 2, 1, 7)?;
    let is_changed = is_read(store, alloc, 2, bytes, false);
    put(store, 2, bytes)?;
    Ok(is_changed && holds(store, alloc, 2, bytes))
}

// A page that others changed is put right, though its digest is the one that is kept.
fn changed_pages_are_put_right(
    rt: &impl Abort,
    store: &mut PageStore<MemPages>,
    alloc: Global,
) -> Result<(), Fail> {
    let bytes = bytes_but(alloc, 600, 300)?;
    assert!(rt; is_put_right(store, alloc, &bytes)?);
    Ok(())
}

// The most bytes that a slot is read with.
fn most_bytes(alloc: Global) -> Result<Vec<u8>, AllocError> {
    vec![in alloc; 7u8; LONGEST_SLOT]
}

// Writes these bytes to each slot.
fn fill_all(store: &mut PageStore<MemPages>, bytes: &[u8]) -> Result<(), StoreFault> {
    for slot in 0..4 {
        put(store, slot, bytes)?;
    }
    Ok(())
}

fn most_are_held(
    rt: &impl Abort,
    store: &mut PageStore<MemPages>,
    alloc: Global,
) -> Result<(), Fail> {
    let bytes = most_bytes(alloc)?;
    fill_all(store, &bytes)?;
    for slot in 0..4 {
        assert!(rt; holds(store, alloc, slot, &bytes), "{slot}");
    }
    assert!(rt; has_written(store, 4 * 4297, 4));
    Ok(())
}

// What a new store is tried by.
#[derive(Clone, Copy)]
enum Trial {
    Changed,
    FailedWrites,
    PutRight,
    LostPages,
    MostBytes,
}

// A store over an empty device.
fn empty(alloc: Global) -> Result<PageStore<MemPages>, Memory> {
    PageStore::new(alloc, MemPages::new(alloc)?)
}

fn tried_on(
    rt: &impl Abort,
    store: &mut PageStore<MemPages>,
    alloc: Global,
    trial: Trial,
) -> Result<(), Fail> {
    match trial {
        Trial::Changed => changed_pages_are_written(rt, store, alloc),
        Trial::FailedWrites => failed_writes_are_dropped(rt, store, alloc),
        Trial::PutRight => changed_pages_are_put_right(rt, store, alloc),
        Trial::LostPages => lost_pages_are_written_again(rt, store, alloc),
        Trial::MostBytes => most_are_held(rt, store, alloc),
    }
}

fn tried(rt: &impl Abort, alloc: Global, trial: Trial) -> Result<(), Fail> {
    let mut store = empty(alloc)?;
    tried_on(rt, &mut store, alloc, trial)
}

#[test]
fn pages_that_changed_are_written_alone(rt: HostRuntime) -> Result<(), Fail> {
    tried(&rt, rt.alloc(), Trial::Changed)
}

#[test]
fn a_failed_write_drops_what_was_known_of_its_slot(rt: HostRuntime) -> Result<(), Fail> {
    tried(&rt, rt.alloc(), Trial::FailedWrites)
}

#[test]
fn an_equal_digest_alone_skips_nothing(rt: HostRuntime) -> Result<(), Fail> {
    tried(&rt, rt.alloc(), Trial::PutRight)
}

#[test]
fn what_a_failed_call_lost_is_written_again(rt: HostRuntime) -> Result<(), Fail> {
    tried(&rt, rt.alloc(), Trial::LostPages)
}

#[test]
fn slots_hold_the_most_bytes(rt: HostRuntime) -> Result<(), Fail> {
    tried(&rt, rt.alloc(), Trial::MostBytes)
}

// Whether slots 0 and 3 have changes that were not synced.
fn unsynced(store: &mut PageStore<MemPages>) -> (bool, bool) {
    let device = store.device();
    (device.is_unsynced(0), device.is_unsynced(3))
}

// A write syncs its slot, and no other.
#[test]
fn a_write_ends_with_a_sync(rt: HostRuntime) -> Result<(), Fail> {
    let mut store = empty(rt.alloc())?;
    assert!(rt; fill(store.device(), 3, 0, 7).is_ok() && fill(store.device(), 0, 0, 7).is_ok());
    assert!(rt; unsynced(&mut store) == (true, true));
    assert!(rt; put(&mut store, 0, &[]) == Ok(()) && unsynced(&mut store) == (false, true));
    Ok(())
}

// Whether power is lost once another program began over the device, and slot 0 is read as these
// bytes before and behind it, though no call renews it then.
fn is_kept(store: &mut PageStore<MemPages>, alloc: Global, bytes: &[u8]) -> bool {
    store.forget_all();
    let is_there = holds(store, alloc, 0, bytes);
    let renewals = store.device().renewals();
    let is_once = holds(store, alloc, 0, bytes) && store.device().renewals() == renewals;
    store.device().lose_power();
    is_once && is_there && holds(store, alloc, 0, bytes)
}

// Whether a write of other bytes to slot 0 fails at this call of the device, and what another
// program reads there lasts, whether it is the one or the other.
fn is_written_again(
    store: &mut PageStore<MemPages>,
    alloc: Global,
    call: u64,
) -> Result<bool, Fail> {
    put(store, 0, &ONES)?;
    store.device().lose_at(call);
    let is_failed = is_stopped(store);
    let is_other = call == 6;
    let bytes = if is_other { &ZEROS } else { &ONES };
    Ok(is_failed && is_kept(store, alloc, bytes))
}

fn lost_pages_are_written_again(
    rt: &impl Abort,
    store: &mut PageStore<MemPages>,
    alloc: Global,
) -> Result<(), Fail> {
    assert!(rt; is_written_again(store, alloc, 1)? && is_written_again(store, alloc, 6)?);
    Ok(())
}

// Syncs slot 3 of a device, and says whether that went well.
fn is_synced(pages: &mut MemPages) -> bool {
    pages.sync(3).is_ok()
}

// A sync that failed once is followed by one that says `Ok`, and power that is lost takes back what
// can be read until then. A renewal lets it last.
fn failed_syncs_lose(rt: &impl Abort, pages: &mut MemPages) -> Result<(), Fail> {
    for renewals in 0..2u64 {
        fill(pages, 3, 0, 7)?;
        pages.lose_at(1);
        assert!(rt; !is_synced(pages) && is_synced(pages) && has_set(pages, 0, 256));
        if renewals == 1 {
            pages.renew(3)?;
        }
        pages.lose_power();
        assert!(rt; has_set(pages, 0, 256) == (renewals == 1) && pages.renewals() == renewals);
    }
    Ok(())
}

#[test]
fn a_device_loses_what_a_failed_sync_left(rt: HostRuntime) -> Result<(), Fail> {
    let mut pages = MemPages::new(rt.alloc())?;
    failed_syncs_lose(&rt, &mut pages)
}

// Gives slot 3 of a device this length, and tells the length that it has then.
fn fit(pages: &mut MemPages, length: u32) -> Result<u32, Failed> {
    if length > 1_100_032 {
        return Err(Failed);
    }
    pages.set_length(3, length)?;
    pages.length(3)
}

// How many bytes of a page of slot 3 are not zero.
fn count_set(pages: &mut MemPages, page: u16) -> Result<usize, Failed> {
    if page > 4296 {
        return Err(Failed);
    }
    let mut there = [9; 256];
    pages.read_page(3, page, &mut there)?;
    Ok(count_in(&there))
}

fn count_in(bytes: &[u8; 256]) -> usize {
    bytes.iter().filter(|&byte| *byte != 0).count()
}

// Whether so many bytes of a page of slot 3 are not zero.
fn has_set(pages: &mut MemPages, page: u16, count: usize) -> bool {
    match count_set(pages, page) {
        Ok(there) => there == count,
        Err(Failed) => false,
    }
}

// Whether slot 3 has this length once it was given it.
fn fits(pages: &mut MemPages, length: u32) -> bool {
    match fit(pages, length) {
        Ok(there) => there == length,
        Err(Failed) => false,
    }
}

fn holes_are_zero(rt: &impl Abort, pages: &mut MemPages) -> Result<(), Fail> {
    fill(pages, 3, 2, 7)?;
    assert!(rt; has_set(pages, 1, 0) && has_set(pages, 2, 256));
    assert!(rt; fits(pages, 513) && has_set(pages, 2, 1) && has_set(pages, 4296, 0));
    assert!(rt; fits(pages, 1_100_032) && has_set(pages, 2, 1));
    Ok(())
}

// A hole before a page is filled with zero bytes, and bytes past the end read as zero.
#[test]
fn holes_and_ends_read_as_zero(rt: HostRuntime) -> Result<(), Fail> {
    let mut pages = MemPages::new(rt.alloc())?;
    holes_are_zero(&rt, &mut pages)
}
