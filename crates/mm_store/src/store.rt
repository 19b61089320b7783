//! A store of four slots.

ghost use Rattle.std.specs.Prelude.{◌<◌, ◌≤◌, length};
ghost use Rattle.mm_store.specs.StoreStanding.{StoreStanding, ReadsSlot, WritesSlot};

use crate::fault::StoreFault;
use mm_bytes::Bytes;
use std::alloc::Global;

/// The most bytes that a slot is read with, and that are written to it.
pub const LONGEST_SLOT: usize = 1_100_000;

/// Four slots of bytes, numbered from 0 to 3, each of at most 1,100,000 bytes.
///
/// What a read hands out is on the disk by then, and so is what a write answered `Ok` to: a store
/// that can't say so of a slot, as a write of it failed or an earlier program left it, writes what
/// is there once more, or fails. No clause says this, as no standing has what is on a disk.
///
/// `kept` is what the store holds: the slots where it tells them, whether it is honest, its count
/// of faults, and, where it is told, which slots have changes that were not synced.
pub trait Store {
    ghost kept: { Self → StoreStanding };

    /// The first 1,100,000 bytes of a slot. No slot changes.
    fn read(&mut self, alloc: Global, slot: u8) -> Result<Bytes, StoreFault>
        requires { slot < 4 }
        ensures reads { ReadsSlot slot (kept self.old) (kept self.new) result };

    /// Puts at most 1,100,000 bytes in place of a slot's. The slot of an honest store holds them
    /// afterwards, and is synced; after `Failed` it may hold any bytes. Its other slots stay.
    fn write(&mut self, slot: u8, bytes: &[u8]) -> Result<(), StoreFault>
        requires slot { slot < 4 }
        requires short { length bytes.now ≤ LONGEST_SLOT }
        ensures writes { WritesSlot slot bytes.now (kept self.old) (kept self.new) result };
}
