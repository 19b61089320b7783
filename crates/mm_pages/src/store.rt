//! A store over a device of pages.

ghost use Rattle.std.specs.Prelude.{◌≡◌, ◌≢◌, ◌<◌, ◌≤◌, length, [], true, Some, Err, IfOk, OnOk, IsOk};
ghost use Rattle.std.specs.Borrow.{Lends, sem};
ghost use Rattle.mm_store.specs.StoreStanding.{Slots, slot_in, ReadsSlot, WritesSlot, is_unsynced_in, unsynced_slots_with};
ghost use Rattle.mm_store.specs.declared.store.TheConstants.{LONGEST_SLOT};
ghost use Rattle.mm_pages.specs.Rows.{page_count, no_rows, row_in, rows_with, count_after_so_many, total_of_looks, changes_of, one_if};
ghost use Rattle.mm_pages.specs.PageStanding.{store_standing_on};
ghost use Rattle.mm_pages.specs.SlotWrites.{AreDigestsOf, IsOneMoreAtMost};
ghost use Rattle.mm_pages.specs.CachedDevice.{all_due, due_after, rows_after_read, rows_after_write, KeepsDue, KeepsStep, UsesSurely};

use crate::device::PageDevice;
use crate::digests::SlotDigests;
use crate::reading::read_renewed;
use crate::writing::put_renewed;
use mm_bytes::{Bytes, Memory};
use mm_store::{Four, Store, StoreFault};
use std::alloc::Global;
use std::marker::Model;

/// A store that keeps the SHA-256 of each page that it put, and writes only pages that changed. A
/// page is compared with what the device has before it is left as it is.
///
/// A slot is renewed before it is first used, and before it is used again after a call of it
/// failed. So a page is left as it is only in a slot that this store wrote once more and synced,
/// and what is read is on the disk.
#[derive(Drop)]
pub struct PageStore<D: PageDevice + Drop> {
    device: D,
    digests: SlotDigests,
    // Which slots are to be renewed before they are used.
    due: Four<bool>,
}

impl<D: PageDevice + Drop> Model for PageStore<D> {
    ghost use Rattle.mm_store.specs.StoreStanding.{unsynced_slots_of};
    ghost use Rattle.mm_pages.specs.CachedDevice.{CachedDevice};

    ghost Value = { CachedDevice D };

    ghost view = { λ s. record {
      device = s.device;
      rows = s.digests;
      due = unsynced_slots_of s.due;
    } };
}

impl<D: PageDevice + Drop> PageStore<D> {
    ghost use Rattle.mm_pages.specs.contracts.store.PageStore.{the_row};

    /// A store over this device, which keeps no digest yet and has room for those of all pages.
    /// Each slot is to be renewed before it is used.
    pub fn new(alloc: Global, device: D) -> Result<PageStore<D>, Memory>
        ensures device { IfOk result (λ store. store.device ≡ device) }
        ensures rows { IfOk result (λ store. store.rows ≡ no_rows) }
        ensures due { IfOk result (λ store. store.due ≡ all_due) }
    {
        let digests = SlotDigests::new(alloc)?;
        Ok(PageStore {
            device,
            digests,
            due: Four::new(true, true, true, true),
        })
    }

    /// Knows nothing of the device any more, as a new store over it.
    pub fn forget_all(&mut self)
        ensures { self.new ≡ record self.old { rows = no_rows; due = all_due } }
    {
        self.forget(0);
        self.forget(1);
        self.forget(2);
        self.forget(3);
    }

    // After a call of a slot failed: no digest of its pages is kept, and it is due.
    fn forget(&mut self, slot: u8)
        requires { slot < 4 }
        ensures { self.new ≡ record self.old {
          rows = rows_with self.old.rows slot [];
          due = unsynced_slots_with self.old.due slot true;
        } }
    {
        self.digests.cut(slot, 0);
        *self.due.get_mut(slot) = true;
    }

    /// The device. The digests stay as they are, whatever is done to it: from then on they may not
    /// be those of what it has, and slots that aren't due may be doubtful.
    pub fn device(&mut self) -> &mut D
        ensures* writes_back { sem 𝓛 (Lends (the_row D.row D.PageDevice) D.row self.entry result
            (λ device. record self.old { device = device })) }
        ensures value { result.now ≡ self.old.device }
    {
        &mut self.device
    }
}

impl<D: PageDevice + Drop> Store for PageStore<D> {
    ghost kept = { λ store. store_standing_on (D.pages store.device) };

    fn read(&mut self, alloc: Global, slot: u8) -> Result<Bytes, StoreFault>
        requires { slot < 4 }
        ensures reads { ReadsSlot slot (store_standing_on (D.pages self.old.device))
            (store_standing_on (D.pages self.new.device)) result }
        ensures rows { self.new.rows ≡ rows_after_read slot self.old.rows result }
        ensures step { KeepsStep (D.pages self.old.device) (D.pages self.new.device) self.old.rows
            self.new.rows }

        // A slot that is due is renewed once, and none else. It is due again where the device
        // fails.
        ensures renews { (D.pages self.new.device).renewals
            ≡ count_after_so_many (one_if (is_unsynced_in self.old.due slot))
            (D.pages self.old.device).renewals }
        ensures due { self.new.due ≡ due_after slot self.old.due result }
        ensures doubtful { KeepsDue (D.pages self.old.device) (D.pages self.new.device)
            self.old.due self.new.due }

        // Where each doubtful slot is due, as it is while this store alone uses the device, what is
        // read is on the disk.
        ensures sure { OnOk result (UsesSurely slot (D.pages self.old.device)
            (D.pages self.new.device) self.old.due) }
    {
        let result = read_renewed(&mut self.device, &mut self.due, alloc, slot);
        if let Err(StoreFault::Failed) = result {
            self.forget(slot);
        }
        result
    }

    fn write(&mut self, slot: u8, bytes: &[u8]) -> Result<(), StoreFault>
        requires slot { slot < 4 }
        requires short { length bytes.now ≤ LONGEST_SLOT }
        ensures writes { WritesSlot slot bytes.now (store_standing_on (D.pages self.old.device))
            (store_standing_on (D.pages self.new.device)) result }
        ensures no_want { result ≢ Err StoreFault.Memory }
        ensures rows { self.new.rows ≡ rows_after_write slot bytes.now self.old.rows result }

        // Of the pages of the new bytes those are read back of which no digest is kept, or that of
        // the new page.
        ensures looks { OnOk result ((D.pages self.new.device).page_reads
            ≡ count_after_so_many
            (total_of_looks (row_in self.old.rows slot) bytes.now (page_count (length bytes.now)))
            (D.pages self.old.device).page_reads) }

        // Where the digests kept are those of what an honest device has there, as they are while
        // this store alone writes to it, the pages that differ are written.
        ensures changes { OnOk result ((D.pages self.old.device).is_honest ≡ true
            → (told : Slots) → (D.pages self.old.device).slots ≡ Some told
            → AreDigestsOf (row_in self.old.rows slot) (slot_in told slot)
            → (D.pages self.new.device).page_writes
            ≡ count_after_so_many
            (changes_of (slot_in told slot) bytes.now (page_count (length bytes.now)))
            (D.pages self.old.device).page_writes) }
        ensures step { KeepsStep (D.pages self.old.device) (D.pages self.new.device) self.old.rows
            self.new.rows }

        // A length is set once at most, and not at all where the bytes are there already.
        ensures settled { OnOk result ((D.pages self.old.device).is_honest ≡ true
            → (told : Slots) → (D.pages self.old.device).slots ≡ Some told
            → AreDigestsOf (row_in self.old.rows slot) (slot_in told slot) → slot_in told slot
            ≡ bytes.now
            → (D.pages self.new.device).length_writes ≡ (D.pages self.old.device).length_writes) }
        ensures lengths { OnOk result (IsOneMoreAtMost (D.pages self.old.device).length_writes
            (D.pages self.new.device).length_writes) }

        // Of renewals and of what is on the disk the same holds as of a read.
        ensures renews { (D.pages self.new.device).renewals
            ≡ count_after_so_many (one_if (is_unsynced_in self.old.due slot))
            (D.pages self.old.device).renewals }
        ensures due { self.new.due ≡ due_after slot self.old.due result }
        ensures doubtful { KeepsDue (D.pages self.old.device) (D.pages self.new.device)
            self.old.due self.new.due }
        ensures sure { OnOk result (UsesSurely slot (D.pages self.old.device)
            (D.pages self.new.device) self.old.due) }
    {
        if put_renewed(
            &mut self.device,
            &mut self.digests,
            &mut self.due,
            slot,
            bytes,
        )
        .is_err()
        {
            self.forget(slot);
            return Err(StoreFault::Failed);
        }
        Ok(())
    }
}
