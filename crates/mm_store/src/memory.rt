//! A store in memory, which fails as it is told to and not otherwise.

ghost use Rattle.std.specs.Prelude.{◌≡◌, ◌↔◌, ◌<◌, ◌≤◌, IsTrue, false, Err, OnOk, OnErr, length, take, if◌then◌else◌};
ghost use Rattle.mm_bytes.specs.Limits.{next_count};
ghost use Rattle.mm_store.specs.StoreStanding.{longest_slot, slot_in, slots_of, slots_with, Shelf, new_shelf, shelf_standing};
ghost use Rattle.mm_store.specs.StoreStanding.{shelf_after_call, shelf_after_read, shelf_after_write, ReadsSlot, WritesSlot};

use crate::fault::StoreFault;
use crate::four::Four;
use crate::store::{LONGEST_SLOT, Store};
use mm_bytes::{Bytes, Memory};
use std::alloc::Global;
use std::marker::Model;
use std::mem;

/// A store in memory, which contracts see as a shelf. It tells its slots.
#[derive(Drop)]
pub struct MemStore {
    alloc: Global,
    slots: Four<Bytes>,
    is_honest: bool,
    faults: u64,
    ahead: u64,
    leaves: Bytes,
}

impl Model for MemStore {
    ghost Value = { Shelf };

    ghost view = { λ s. record {
      slots = slots_of s.slots;
      is_honest = s.is_honest;
      faults = s.faults;
      ahead = s.ahead;
      leaves = s.leaves;
    } };
}

impl MemStore {
    /// An honest store with four empty slots. Takes no memory.
    pub fn new(alloc: Global) -> MemStore
        ensures { result ≡ new_shelf }
    {
        MemStore {
            alloc,
            slots: Four::new(
                Bytes::new(alloc),
                Bytes::new(alloc),
                Bytes::new(alloc),
                Bytes::new(alloc),
            ),
            is_honest: true,
            faults: 0,
            ahead: 0,
            leaves: Bytes::new(alloc),
        }
    }

    /// Makes the call of this number fail, counted from 1 from now on, and no other. A write that
    /// fails so leaves these bytes in its slot. After want of memory nothing has changed.
    pub fn stop_at(&mut self, call: u64, leaves: &[u8]) -> Result<(), Memory>
        ensures ok { OnOk result
            (self.new ≡ record self.old { ahead = call; leaves = leaves.now }) }
        ensures err { OnErr result (self.new ≡ self.old) }
    {
        self.leaves = Bytes::copy_of(self.alloc, leaves)?;
        self.ahead = call;
        Ok(())
    }

    /// Puts these bytes in place of a slot's, as a dishonest host does. After want of memory
    /// nothing has changed.
    pub fn set_slot(&mut self, slot: u8, bytes: &[u8]) -> Result<(), Memory>
        requires { slot < 4 }
        ensures ok { OnOk result
            (self.new ≡ record self.old {
              slots = slots_with self.old.slots slot bytes.now;
              is_honest = false;
            }) }
        ensures err { OnErr result (self.new ≡ self.old) }
    {
        let kept = Bytes::copy_of(self.alloc, bytes)?;
        *self.slots.get_mut(slot) = kept;
        self.is_honest = false;
        Ok(())
    }

    /// The bytes of a slot, all of them.
    pub fn slot(&self, slot: u8) -> &[u8]
        requires { slot < 4 }
        ensures { result.now ≡ slot_in self.now.slots slot }
    {
        self.slots.get(slot).as_slice()
    }

    // Begins a call, and tells whether it is the one that is to fail.
    fn is_to_fail(&mut self) -> bool
        ensures fails { IsTrue result ↔ (self.old.ahead ≡ 1) }
        ensures after { self.new
            ≡ (if result then record (shelf_after_call self.old)
            { faults = next_count self.old.faults }
            else shelf_after_call self.old) }
    {
        let fails = self.ahead == 1;
        self.ahead = self.ahead.saturating_sub(1);
        if fails {
            self.faults = self.faults.saturating_add(1);
        }
        fails
    }
}

impl Store for MemStore {
    ghost kept = { shelf_standing };

    fn read(&mut self, alloc: Global, slot: u8) -> Result<Bytes, StoreFault>
        requires { slot < 4 }
        ensures reads { ReadsSlot slot (shelf_standing self.old) (shelf_standing self.new) result }
        ensures failing { (result ≡ Err StoreFault.Failed) ↔ (self.old.ahead ≡ 1) }
        ensures after { self.new ≡ shelf_after_read self.old result }
    {
        if self.is_to_fail() {
            return Err(StoreFault::Failed);
        }
        let copy = Bytes::copy_of(alloc, seen(self.slots.get(slot).as_slice()))?;
        Ok(copy)
    }

    fn write(&mut self, slot: u8, bytes: &[u8]) -> Result<(), StoreFault>
        requires slot { slot < 4 }
        requires short { length bytes.now ≤ LONGEST_SLOT }
        ensures writes { WritesSlot slot bytes.now (shelf_standing self.old)
            (shelf_standing self.new) result }
        ensures failing { (result ≡ Err StoreFault.Failed) ↔ (self.old.ahead ≡ 1) }
        ensures after { self.new ≡ shelf_after_write self.old slot bytes.now result }
    {
        if self.is_to_fail() {
            let left = mem::replace(&mut self.leaves, Bytes::new(self.alloc));
            *self.slots.get_mut(slot) = left;
            return Err(StoreFault::Failed);
        }
        let kept = Bytes::copy_of(self.alloc, bytes)?;
        *self.slots.get_mut(slot) = kept;
        Ok(())
    }
}

// What a read of a slot with these bytes gives.
#[tactic(auto, unfolding(crate::specs::StoreStanding::longest_slot))]
fn seen(bytes: &[u8]) -> &[u8]
    ensures front { result.now ≡ take longest_slot bytes.now }
    ensures short { length result.now ≤ LONGEST_SLOT }
{
    let (front, _) = bytes.split_at(bytes.len().min(LONGEST_SLOT));
    front
}
