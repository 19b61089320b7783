//! A device of pages in memory, which fails as it is told to and not otherwise.

ghost use Rattle.std.specs.Prelude.{◌≡◌, ◌↔◌, ◌<◌, ◌≤◌, ◌+◌, ◌++◌, IsTrue, IsErr, [], true, false, OnOk, OnErr, IfOk, length, take, drop, if◌then◌else◌};
ghost use Rattle.mm_bytes.specs.Limits.{next_count};
ghost use Rattle.mm_store.specs.StoreStanding.{slots_of, slot_in, slots_with, is_unsynced_in};
ghost use Rattle.mm_pages.specs.Rows.{resized_bytes, bytes_with_page};
ghost use Rattle.mm_pages.specs.PageStanding.{ReadsLength, ReadsPage, WritesPage, SetsLength, SyncsPages, RenewsSlot, blank_sheets};
ghost use Rattle.mm_pages.specs.PageStanding.{standing_of_sheets, sheets_after_call, sheets_after_fault, sheets_after_slot_fault};
ghost use Rattle.mm_pages.specs.PageStanding.{sheets_after_read, sheets_after_change, sheets_after_sync, sheets_after_renewal};
ghost use Rattle.mm_pages.specs.PageStanding.{sheets_after_power_loss, lasting_with};

use crate::device::PageDevice;
use crate::page::{PAGE, page_of};
use mm_bytes::{Failed, Memory};
use mm_store::Four;
use std::alloc::Global;
use std::marker::Model;

// The most bytes of a slot.
const MOST_BYTES: usize = 1_100_032;

// The bytes of one slot, with room for all that it may have.
#[derive(Drop)]
pub struct Sheet {
    bytes: Vec<u8>,
}

impl Model for Sheet {
    ghost use Rattle.std.specs.Prelude.{List, ℕ, ◌≤◌, length, vec_capacity};

    ghost Value = { List ℕ };

    ghost view = { λ s. s.bytes.items };

    ghost invariant = { λ s. (1100032 ≤ vec_capacity s.bytes) × (length s.bytes.items ≤ 1100032) };
}

impl Sheet {
    // No bytes.
    fn new(alloc: Global) -> Result<Sheet, Memory>
        ensures { IfOk result (λ sheet. sheet ≡ []) }
    {
        let bytes = Vec::with_capacity(alloc, MOST_BYTES)?;
        Ok(Sheet { bytes })
    }

    // The bytes.
    fn as_slice(&self) -> &[u8]
        ensures value { result.now ≡ self.now }
        ensures most { length self.now ≤ 1100032 }
    {
        self.bytes.as_slice()
    }

    // Puts these bytes in place.
    fn set(&mut self, bytes: &[u8])
        requires { length bytes.now ≤ 1100032 }
        ensures { self.new ≡ bytes.now }
    {
        self.bytes.clear();
        self.bytes.extend_from_slice(bytes).unwrap();
    }

    // Cuts the bytes to this length, or fills them up to there with zero bytes.
    #[tactic(auto, unfolding(crate::specs::Rows::resized_bytes))]
    fn resize(&mut self, size: usize)
        requires { size ≤ 1100032 }
        ensures { self.new ≡ resized_bytes size self.old }
    {
        self.bytes.resize(size, 0).unwrap();
    }

    // Puts a page in place.
    fn put_page(&mut self, page: u16, part: &[u8; 256])
        requires { page < 4297 }
        ensures { self.new ≡ bytes_with_page page part.now self.old }
    {
        let start = PAGE * usize::from(page);
        if start + PAGE < self.bytes.len() {
            put_at(self.bytes.as_mut_slice(), start, part);
            return;
        }
        self.resize(start);
        self.bytes.extend_from_slice(part).unwrap();
    }
}

// Puts a page in place among these bytes, which go on behind it.
fn put_at(bytes: &mut [u8], start: usize, part: &[u8; 256])
    requires { start + 256 ≤ length bytes.old }
    ensures { bytes.new ≡ take start bytes.old ++ (part.now ++ drop 256 (drop start bytes.old)) }
{
    bytes[start..start + PAGE].copy_from_slice(part);
}

// Four empty slots.
fn empty_slots(alloc: Global) -> Result<Four<Sheet>, Memory>
    ensures { IfOk result (λ slots. slots_of slots ≡ blank_sheets.slots) }
{
    let zero = Sheet::new(alloc)?;
    let one = Sheet::new(alloc)?;
    let two = Sheet::new(alloc)?;
    let three = Sheet::new(alloc)?;
    Ok(Four::new(zero, one, two, three))
}

/// An honest device of pages in memory, which contracts see as sheets. It tells its slots, and has
/// what a loss of power leaves of them: what a slot had when it was last synced or renewed. A sync
/// of a doubtful slot says `Ok`, and lets nothing more of it last.
#[derive(Drop)]
pub struct MemPages {
    alloc: Global,
    slots: Four<Sheet>,
    lasting: Four<Sheet>,
    faults: u64,
    page_reads: u64,
    page_writes: u64,
    length_writes: u64,
    renewals: u64,
    unsynced: Four<bool>,
    doubtful: Four<bool>,
    ahead: u64,
    stays: bool,
    leaves: Vec<u8>,
}

impl Model for MemPages {
    ghost use Rattle.std.specs.Prelude.{length, ◌≤◌};
    ghost use Rattle.mm_store.specs.StoreStanding.{slots_of, unsynced_slots_of};
    ghost use Rattle.mm_pages.specs.PageStanding.{Sheets};

    ghost Value = { Sheets };

    ghost view = { λ p. record {
      slots = slots_of p.slots;
      lasting = slots_of p.lasting;
      faults = p.faults;
      page_reads = p.page_reads;
      page_writes = p.page_writes;
      length_writes = p.length_writes;
      renewals = p.renewals;
      unsynced = unsynced_slots_of p.unsynced;
      doubtful = unsynced_slots_of p.doubtful;
      ahead = p.ahead;
      stays = p.stays;
      leaves = p.leaves.items;
    } };

    ghost invariant = { λ p. length p.leaves.items ≤ 1100032 };
}

impl MemPages {
    /// A device with four empty slots, each with room for 1,100,032 bytes, so that no call takes
    /// memory.
    pub fn new(alloc: Global) -> Result<MemPages, Memory>
        ensures { IfOk result (λ pages. pages ≡ blank_sheets) }
    {
        let slots = empty_slots(alloc)?;
        let lasting = empty_slots(alloc)?;
        Ok(MemPages {
            alloc,
            slots,
            lasting,
            faults: 0,
            page_reads: 0,
            page_writes: 0,
            length_writes: 0,
            renewals: 0,
            unsynced: Four::new(false, false, false, false),
            doubtful: Four::new(false, false, false, false),
            ahead: 0,
            stays: false,
            leaves: Vec::new(alloc),
        })
    }

    /// Makes the call of this number fail, counted from 1 from now on, and no other. A write that
    /// fails so leaves these bytes in its slot, of which there are at most 1,100,032. After want of
    /// memory nothing has changed.
    pub fn stop_at(&mut self, call: u64, leaves: &[u8]) -> Result<(), Memory>
        requires { length leaves.now ≤ 1100032 }
        ensures ok { OnOk result
            (self.new ≡ record self.old { ahead = call; stays = false; leaves = leaves.now }) }
        ensures err { OnErr result (self.new ≡ self.old) }
    {
        self.leaves = Vec::from_slice(self.alloc, leaves)?;
        self.ahead = call;
        self.stays = false;
        Ok(())
    }

    /// The same, but a call that fails so leaves its slot as it is, as a system does that lost what
    /// it was to write: all can be read, and later syncs say `Ok`.
    pub fn lose_at(&mut self, call: u64)
        ensures { self.new ≡ record self.old { ahead = call; stays = true } }
    {
        self.ahead = call;
        self.stays = true;
    }

    /// The power is lost: each slot has what lasts.
    pub fn lose_power(&mut self)
        ensures { self.new ≡ sheets_after_power_loss self.old }
    {
        self.put_back(0);
        self.put_back(1);
        self.put_back(2);
        self.put_back(3);
        self.unsynced = Four::new(false, false, false, false);
        self.doubtful = Four::new(false, false, false, false);
    }

    /// How many reads of pages were called.
    pub fn page_reads(&self) -> u64
        ensures { result ≡ self.now.page_reads }
    {
        self.page_reads
    }

    /// How many writes of pages were called.
    pub fn page_writes(&self) -> u64
        ensures { result ≡ self.now.page_writes }
    {
        self.page_writes
    }

    /// How many times a length was set.
    pub fn length_writes(&self) -> u64
        ensures { result ≡ self.now.length_writes }
    {
        self.length_writes
    }

    /// How many times a slot was renewed.
    pub fn renewals(&self) -> u64
        ensures { result ≡ self.now.renewals }
    {
        self.renewals
    }

    /// Whether a slot was changed and not synced since.
    pub fn is_unsynced(&self, slot: u8) -> bool
        requires { slot < 4 }
        ensures { result ≡ is_unsynced_in self.now.unsynced slot }
    {
        *self.unsynced.get(slot)
    }

    // Puts what lasts of a slot in place of what it has.
    fn put_back(&mut self, slot: u8)
        requires { slot < 4 }
        ensures { self.new ≡ record self.old {
          slots = slots_with self.old.slots slot (slot_in self.old.lasting slot);
        } }
    {
        let bytes = self.lasting.get(slot);
        self.slots.get_mut(slot).set(bytes.as_slice());
    }

    // Begins a call, and tells whether it is the one that is to fail.
    fn is_to_fail(&mut self) -> bool
        ensures fails { IsTrue result ↔ (self.old.ahead ≡ 1) }
        ensures after { self.new
            ≡ (if result then sheets_after_fault self.old else sheets_after_call self.old) }
        ensures later { self.old.faults ≤ self.new.faults }
    {
        let fails = self.ahead == 1;
        self.ahead = self.ahead.saturating_sub(1);
        if fails {
            self.faults = self.faults.saturating_add(1);
        }
        fails
    }

    // Begins a call that changes or syncs a slot. Where it is to fail, it leaves there what it was
    // told to, and the slot is doubtful.
    fn is_to_fail_in(&mut self, slot: u8) -> bool
        requires { slot < 4 }
        ensures fails { IsTrue result ↔ (self.old.ahead ≡ 1) }
        ensures after { self.new
            ≡ (if result then sheets_after_slot_fault slot self.old
            else sheets_after_call self.old) }
        ensures later { self.old.faults ≤ self.new.faults }
    {
        if !self.is_to_fail() {
            return false;
        }
        if !self.stays {
            self.slots.get_mut(slot).set(self.leaves.as_slice());
        }
        *self.unsynced.get_mut(slot) = true;
        *self.doubtful.get_mut(slot) = true;
        true
    }

    // Lets what a slot has last.
    fn last(&mut self, slot: u8)
        requires { slot < 4 }
        ensures { self.new ≡ record self.old { lasting = lasting_with slot self.old } }
    {
        let bytes = self.slots.get(slot);
        self.lasting.get_mut(slot).set(bytes.as_slice());
    }
}

impl PageDevice for MemPages {
    ghost pages = { standing_of_sheets };

    fn length(&mut self, slot: u8) -> Result<u32, Failed>
        requires { slot < 4 }
        ensures reads { ReadsLength slot (standing_of_sheets self.old)
            (standing_of_sheets self.new) result }
        ensures failing { IsErr result ↔ (self.old.ahead ≡ 1) }
        ensures after { self.new ≡ sheets_after_read self.old result }
    {
        if self.is_to_fail() {
            return Err(Failed);
        }
        Ok(self.slots.get(slot).as_slice().len() as u32)
    }

    fn read_page(&mut self, slot: u8, page: u16, into: &mut [u8; 256]) -> Result<(), Failed>
        requires slot { slot < 4 }
        requires page { page < 4297 }
        ensures reads { ReadsPage slot page (standing_of_sheets self.old)
            (standing_of_sheets self.new) into.new
            result }
        ensures failing { IsErr result ↔ (self.old.ahead ≡ 1) }
        ensures after { self.new ≡ record (sheets_after_read self.old result) {
          page_reads = next_count self.old.page_reads;
        } }
    {
        self.page_reads = self.page_reads.saturating_add(1);
        if self.is_to_fail() {
            return Err(Failed);
        }
        *into = page_of(self.slots.get(slot).as_slice(), page);
        Ok(())
    }

    fn write_page(&mut self, slot: u8, page: u16, bytes: &[u8; 256]) -> Result<(), Failed>
        requires slot { slot < 4 }
        requires page { page < 4297 }
        ensures writes { WritesPage slot page bytes.now (standing_of_sheets self.old)
            (standing_of_sheets self.new)
            result }
        ensures failing { IsErr result ↔ (self.old.ahead ≡ 1) }
        ensures after { self.new
            ≡ record (sheets_after_change slot (bytes_with_page page bytes.now) self.old result) {
              page_writes = next_count self.old.page_writes;
            } }
    {
        self.page_writes = self.page_writes.saturating_add(1);
        if self.is_to_fail_in(slot) {
            return Err(Failed);
        }
        self.slots.get_mut(slot).put_page(page, bytes);
        *self.unsynced.get_mut(slot) = true;
        Ok(())
    }

    fn set_length(&mut self, slot: u8, length: u32) -> Result<(), Failed>
        requires slot { slot < 4 }
        requires most { length ≤ 1100032 }
        ensures sets { SetsLength slot length (standing_of_sheets self.old)
            (standing_of_sheets self.new) result }
        ensures failing { IsErr result ↔ (self.old.ahead ≡ 1) }
        ensures after { self.new
            ≡ record (sheets_after_change slot (resized_bytes length) self.old result) {
              length_writes = next_count self.old.length_writes;
            } }
    {
        self.length_writes = self.length_writes.saturating_add(1);
        if self.is_to_fail_in(slot) {
            return Err(Failed);
        }
        self.slots.get_mut(slot).resize(length as usize);
        *self.unsynced.get_mut(slot) = true;
        Ok(())
    }

    fn sync(&mut self, slot: u8) -> Result<(), Failed>
        requires { slot < 4 }
        ensures syncs { SyncsPages slot (standing_of_sheets self.old)
            (standing_of_sheets self.new) result }
        ensures failing { IsErr result ↔ (self.old.ahead ≡ 1) }
        ensures after { self.new ≡ sheets_after_sync slot self.old result }
    {
        if self.is_to_fail_in(slot) {
            return Err(Failed);
        }
        if !*self.doubtful.get(slot) {
            self.last(slot);
        }
        *self.unsynced.get_mut(slot) = false;
        Ok(())
    }

    fn renew(&mut self, slot: u8) -> Result<(), Failed>
        requires { slot < 4 }
        ensures renews { RenewsSlot slot (standing_of_sheets self.old)
            (standing_of_sheets self.new) result }
        ensures failing { IsErr result ↔ (self.old.ahead ≡ 1) }
        ensures after { self.new ≡ record (sheets_after_renewal slot self.old result) {
          renewals = next_count self.old.renewals;
        } }
    {
        self.renewals = self.renewals.saturating_add(1);
        let fails = self.is_to_fail();
        *self.doubtful.get_mut(slot) = fails;
        if fails {
            return Err(Failed);
        }
        self.last(slot);
        Ok(())
    }
}
