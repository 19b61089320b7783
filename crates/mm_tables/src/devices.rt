//! The devices that a scene is played over.

use crate::failing::{FailingRaw, FailureEffect};
use crate::notes::TableNotes;
use crate::scene::{does, plays, run};
use crate::setup::Setup;
use mm_bytes::{Bytes, Memory, put_decimal, read_decimal};
use mm_pages::{MemPages, PageStore};
use mm_platform::MemPlatform;
use mm_store::MemStore;
use mm_twocell::{MemRaw, TwoCell};
use std::alloc::Global;

/// Plays a scene over a platform with this cell and a store, both in memory.
pub fn over_memory(
    notes: &mut TableNotes,
    cell: &[u8; 104],
    scene: &str,
    row: &str,
) -> Result<bool, Memory> {
    let mut platform = MemPlatform::new(notes.alloc, cell);
    let mut store = MemStore::new(notes.alloc);
    let mut old = MemStore::new(notes.alloc);
    plays(notes, scene, row, &mut platform, &mut store, &mut old)
}

/// Does what a word says over a blank platform and an empty store.
pub fn alone(
    notes: &mut TableNotes,
    word: &str,
    setup: &Setup,
    content: &[u8],
) -> Result<u64, Memory> {
    let mut platform = MemPlatform::new(notes.alloc, &[0; 104]);
    let mut store = MemStore::new(notes.alloc);
    run(notes, &[word], setup, content, &mut platform, &mut store)
}

// A store in memory of which this call fails, counted from 1, and leaves other bytes; none where it
// is 0.
fn stopping_store(alloc: Global, call: u64) -> Result<MemStore, Memory> {
    let mut store = MemStore::new(alloc);
    store.stop_at(call, b"torn")?;
    Ok(store)
}

/// Plays a scene over a platform and a store in memory of which this call fails, from 1.
pub fn over_stopped(
    notes: &mut TableNotes,
    text: &str,
    scene: &str,
    row: &str,
) -> Result<bool, Memory> {
    let call = read_decimal(text.as_bytes()).unwrap_or(0);
    let mut store = stopping_store(notes.alloc, call)?;
    let mut old = MemStore::new(notes.alloc);
    let mut platform = MemPlatform::new(notes.alloc, &[0; 104]);
    plays(notes, scene, row, &mut platform, &mut store, &mut old)
}

// Sets the slots of a store to those of another, as a host may that isn't honest.
fn set_slots(store: &mut MemStore, old: &MemStore) -> Result<(), Memory> {
    for slot in 0..4 {
        store.set_slot(slot, old.slot(slot))?;
    }
    Ok(())
}

// Plays a scene up to where the slots are set, and from there on.
fn plays_around(
    notes: &mut TableNotes,
    scene: &str,
    platform: &mut MemPlatform,
    store: &mut MemStore,
    old: &mut MemStore,
) -> Result<bool, Memory> {
    let (before, behind) = scene.split_once("\n$ set\n$ ").unwrap_or((scene, ""));
    if !plays(notes, before, "", platform, store, old)? {
        return Ok(false);
    }
    set_slots(store, old)?;
    plays(notes, behind, "", platform, store, old)
}

/// Plays a scene over a platform and a store in memory. At `set` the host sets the slots to those
/// that were put by.
pub fn over_set(notes: &mut TableNotes, scene: &str) -> Result<bool, Memory> {
    let mut platform = MemPlatform::new(notes.alloc, &[0; 104]);
    let mut store = MemStore::new(notes.alloc);
    let mut old = MemStore::new(notes.alloc);
    plays_around(notes, scene, &mut platform, &mut store, &mut old)
}

// An empty store of pages.
fn pages(alloc: Global) -> Result<PageStore<MemPages>, Memory> {
    PageStore::new(alloc, MemPages::new(alloc)?)
}

// The same, where this call fails, counted from 1; none where it is 0.
fn stopping_pages(alloc: Global, call: u64) -> Result<PageStore<MemPages>, Memory> {
    let mut device = MemPages::new(alloc)?;
    device.stop_at(call, b"torn")?;
    PageStore::new(alloc, device)
}

/// Plays a scene over two cells on a memory, and pages of which this call fails, from 1.
pub fn over_stopping(
    notes: &mut TableNotes,
    text: &str,
    scene: &str,
    row: &str,
) -> Result<bool, Memory> {
    let call = read_decimal(text.as_bytes()).unwrap_or(0);
    let mut store = stopping_pages(notes.alloc, call)?;
    let mut old = pages(notes.alloc)?;
    let mut platform = TwoCell::new(MemRaw::new(notes.alloc));
    plays(notes, scene, row, &mut platform, &mut store, &mut old)
}

/// Plays a scene over two cells on a memory, and pages.
pub fn over_pages(notes: &mut TableNotes, scene: &str, row: &str) -> Result<bool, Memory> {
    let mut store = pages(notes.alloc)?;
    let mut old = pages(notes.alloc)?;
    let mut platform = TwoCell::new(MemRaw::new(notes.alloc));
    plays(notes, scene, row, &mut platform, &mut store, &mut old)
}

// Plays a scene over two cells on a memory of which this call fails, and leaves that much.
fn over_failing_at(
    notes: &mut TableNotes,
    call: u64,
    leaves: FailureEffect,
    scene: &str,
    row: &str,
) -> Result<bool, Memory> {
    let mut store = pages(notes.alloc)?;
    let mut old = pages(notes.alloc)?;
    let mut platform = TwoCell::new(FailingRaw::new(call, leaves));
    plays(notes, scene, row, &mut platform, &mut store, &mut old)
}

// What a call of this name leaves.
fn leaves_of(word: &str) -> Option<FailureEffect> {
    match word {
        "none" => Some(FailureEffect::Nothing),
        "half" => Some(FailureEffect::Half),
        "all" => Some(FailureEffect::All),
        "even" => Some(FailureEffect::Noise(0xb4)),
        "odd" => Some(FailureEffect::Noise(0xb5)),
        _ => None,
    }
}

// The call that a text names, and what it leaves.
fn failure_in(text: &str) -> Option<(u64, FailureEffect)> {
    let (call, word) = text.split_once(" ")?;
    Some((read_decimal(call.as_bytes())?, leaves_of(word)?))
}

/// Plays a scene over a memory of which a call fails: its number and what it leaves, as `5 half`.
pub fn over_failing(
    notes: &mut TableNotes,
    text: &str,
    scene: &str,
    row: &str,
) -> Result<bool, Memory> {
    match failure_in(text) {
        Some((call, leaves)) => over_failing_at(notes, call, leaves, scene, row),
        None => notes.tell(false, text, 0),
    }
}

// Writes a count with a space before.
fn put_count(counts: &mut Bytes, count: u64) -> Result<(), Memory> {
    counts.push(b' ')?;
    put_decimal(counts, count)
}

// Runs the commands of a scene, and writes how often a cell was to be written after each; and then
// how often the register was to be extended.
fn put_counts(
    notes: &mut TableNotes,
    counts: &mut Bytes,
    scene: &str,
    platform: &mut TwoCell<FailingRaw>,
    store: &mut PageStore<MemPages>,
    old: &mut PageStore<MemPages>,
) -> Result<bool, Memory> {
    for command in scene.split("\n$ ") {
        if !does(notes, command, "", platform, store, old)? {
            return Ok(false);
        }
        put_count(counts, platform.raw().cell_writes())?;
    }
    counts.append(b" -")?;
    put_count(counts, platform.raw().extensions())?;
    Ok(true)
}

// Whether a scene comes to these counts.
fn comes_to_counts(
    notes: &mut TableNotes,
    scene: &str,
    row: &str,
    platform: &mut TwoCell<FailingRaw>,
    store: &mut PageStore<MemPages>,
    old: &mut PageStore<MemPages>,
) -> Result<bool, Memory> {
    let mut counts = Bytes::new(notes.alloc);
    let is_played = put_counts(notes, &mut counts, scene, platform, store, old)?;
    Ok(is_played && counts.as_slice().strip_prefix(b" ") == Some(row.as_bytes()))
}

/// Whether a scene over two cells on a memory comes to the counts of a row: of writes of the cell
/// after each command, and of extensions.
pub fn over_counted(notes: &mut TableNotes, scene: &str, row: &str) -> Result<bool, Memory> {
    let mut store = pages(notes.alloc)?;
    let mut old = pages(notes.alloc)?;
    let mut platform = TwoCell::new(FailingRaw::new(0, FailureEffect::Nothing));
    comes_to_counts(notes, scene, row, &mut platform, &mut store, &mut old)
}
