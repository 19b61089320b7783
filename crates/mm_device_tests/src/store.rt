//! What no clause says of the store in memory.

ghost use Rattle.std.specs.Prelude.{◌≡◌, Some, true, OnOk};
ghost use Rattle.mm_store.specs.StoreStanding.{Slots, slots_with, slot_front};

use mm_store::{LONGEST_SLOT, MemStore, Store, StoreFault};
use std::alloc::{AllocError, Global};
use std::process::Abort;
use std::test::Fail;

// Whether the slot is read as these bytes.
fn holds(store: &mut MemStore, alloc: Global, slot: u8, bytes: &[u8]) -> bool {
    if slot > 3 {
        return false;
    }
    match store.read(alloc, slot) {
        Ok(read) => read.as_slice() == bytes,
        Err(_) => false,
    }
}

// A write to a slot, of bytes that are few enough.
fn put(store: &mut MemStore, slot: u8, bytes: &[u8]) -> Result<(), StoreFault> {
    if slot > 3 {
        return Err(StoreFault::Failed);
    }
    if bytes.len() > LONGEST_SLOT {
        return Err(StoreFault::Failed);
    }
    store.write(slot, bytes)
}

// Copies slot 0 to slot 1, over any store.
fn copy_slot<T: Store>(store: &mut T, alloc: Global) -> Result<(), StoreFault>
    ensures { OnOk result ((T.kept store.old).is_honest ≡ true → (slots : Slots)
        → (T.kept store.old).slots ≡ Some slots
        → (T.kept store.new).slots ≡ Some (slots_with slots 1 (slot_front slots 0))) }
{
    let bytes = store.read(alloc, 0)?;
    store.write(1, bytes.as_slice())
}

// Slot 0 is copied to slot 1.
fn slots_are_copied(rt: &impl Abort, store: &mut MemStore, alloc: Global) -> Result<(), Fail> {
    put(store, 0, b"bytes")?;
    copy_slot(store, alloc)?;
    assert!(rt; store.slot(1) == b"bytes".as_slice());
    Ok(())
}

// Whether the store fails where the slot is read.
fn is_stopped(store: &mut MemStore, alloc: Global, slot: u8) -> bool {
    if slot > 3 {
        return false;
    }
    match store.read(alloc, slot) {
        Err(StoreFault::Failed) => true,
        _ => false,
    }
}

// Of a read of slot 0, a write to slot 1, one to slot 2 and a read of slot 1, the told one fails,
// and no other.
fn one_call_fails(
    rt: &impl Abort,
    store: &mut MemStore,
    alloc: Global,
    call: u64,
) -> Result<(), Fail> {
    put(store, 1, b"old")?;
    store.stop_at(call, b"left")?;
    let first = is_stopped(store, alloc, 0);
    let second = put(store, 1, b"one").is_err();
    let third = put(store, 2, b"two").is_err();
    let fourth = is_stopped(store, alloc, 1);
    assert!(rt; first == (call == 1) && second == (call == 2), "{call}");
    assert!(rt; third == (call == 3) && fourth == (call == 4), "{call}");
    let one = if call == 2 {
        b"left".as_slice()
    } else {
        b"one"
    };
    let two = if call == 3 {
        b"left".as_slice()
    } else {
        b"two"
    };
    assert!(rt; store.slot(1) == one && store.slot(2) == two, "{call}");
    assert!(rt; store.slot(0).is_empty() && store.slot(3).is_empty());
    Ok(())
}

// The most bytes that a slot is read with.
fn most_bytes(alloc: Global) -> Result<Vec<u8>, AllocError> {
    vec![in alloc; 7u8; LONGEST_SLOT]
}

// The first of these bytes, as many as a slot is read with.
fn front_of(bytes: &[u8]) -> &[u8] {
    bytes.get(..LONGEST_SLOT).unwrap_or(&[])
}

// Writes these bytes to each slot.
fn fill(store: &mut MemStore, bytes: &[u8]) -> Result<(), StoreFault> {
    for slot in 0..4 {
        put(store, slot, bytes)?;
    }
    Ok(())
}

// Four slots of the most bytes at once; of a longer one, as a host may put there, the first bytes
// are read.
fn most_are_held(rt: &impl Abort, store: &mut MemStore, alloc: Global) -> Result<(), Fail> {
    let mut bytes = most_bytes(alloc)?;
    fill(store, &bytes)?;
    for slot in 0..4 {
        assert!(rt; holds(store, alloc, slot, &bytes), "{slot}");
    }
    bytes.push(8)?;
    store.set_slot(3, &bytes)?;
    assert!(rt; store.slot(3) == bytes.as_slice());
    assert!(rt; holds(store, alloc, 3, front_of(&bytes)));
    Ok(())
}

// What a new store is tried by.
#[derive(Clone, Copy)]
enum Trial {
    Copied,
    FailedCall(u64),
    MostBytes,
}

fn tried(rt: &impl Abort, alloc: Global, trial: Trial) -> Result<(), Fail> {
    let mut store = MemStore::new(alloc);
    match trial {
        Trial::Copied => slots_are_copied(rt, &mut store, alloc),
        Trial::FailedCall(call) => one_call_fails(rt, &mut store, alloc, call),
        Trial::MostBytes => most_are_held(rt, &mut store, alloc),
    }
}

#[test]
fn any_store_can_be_called(rt: HostRuntime) -> Result<(), Fail> {
    tried(&rt, rt.alloc(), Trial::Copied)
}

#[test]
fn calls_fail_where_they_are_told_to(rt: HostRuntime) -> Result<(), Fail> {
    for call in 0..6u64 {
        tried(&rt, rt.alloc(), Trial::FailedCall(call))?;
    }
    Ok(())
}

#[test]
fn slots_hold_the_most_bytes(rt: HostRuntime) -> Result<(), Fail> {
    tried(&rt, rt.alloc(), Trial::MostBytes)
}
