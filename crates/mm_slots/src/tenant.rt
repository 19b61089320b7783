//! A module in one slot of a platform.

ghost use Rattle.std.specs.Prelude.{◌≡◌, ◌<◌, ◌+◌};
ghost use Rattle.mm_outcome.specs.OneRun.{rising_bytes_from};

use crate::event::{CallBreak, SlotAction};
use crate::parts::Parts;
use crate::said::SlotReply;
use crate::slot_number::SlotNumber;
use mm_ask::Secrets;
use mm_bytes::Memory;
use mm_digest::zero;
use mm_outcome::rising;
use mm_schedule::Header;
use mm_world::Seat;
use std::alloc::Global;
use std::marker::Model;

/// A module in one slot of a platform: its number, the seat in it, and the call in flight.
/// Contracts see it by digests.
#[derive(Drop)]
pub struct Tenant {
    parts: Parts,
}

// The secrets of the slot with this number.
fn secrets_of(number: SlotNumber) -> Secrets
    requires { number < 16 }
    ensures key { result.key ≡ rising_bytes_from number }
    ensures barrier { result.barrier ≡ rising_bytes_from (128 + number) }
{
    let first = number.place() as u8;
    Secrets {
        key: rising(first),
        barrier: rising(128 + first),
    }
}

impl Model for Tenant {
    ghost use Rattle.mm_slots.specs.Table.{Row};

    ghost Value = { Row };

    ghost use Rattle.mm_slots.specs.HeldParts.{row_in, PartsFit};

    ghost view = { λ it. row_in it.parts };

    ghost invariant = { λ it. PartsFit it.parts };
}

impl Tenant {
    ghost use Rattle.std.specs.Prelude.{◌≡◌, ◌<◌, ◌^◌, [], ◌∷◌, IfOk, OnErr, length};
    ghost use Rattle.std.specs.List.{sum_by};
    ghost use Rattle.mm_slots.specs.Table.{RowActs, RowLacksMemory, first_row, is_cut, row_after};
    ghost use Rattle.mm_world.specs.Lengths.{within_64};
    ghost use Rattle.mm_slots.specs.Tenant.{Loses};

    /// The slot with this number at first, for the header's module. Its key is that of no other
    /// slot.
    pub fn first(alloc: Global, number: SlotNumber, header: &Header) -> Result<Tenant, Memory>
        requires { number < 16 }
        ensures { IfOk result (λ slot. slot ≡ first_row number header.now) }
    {
        match Seat::first(alloc, *header, &secrets_of(number)) {
            Err(memory) => Err(memory),
            Ok(seat) => Ok(Tenant {
                parts: Parts {
                    number,
                    seat,
                    register: zero(),
                    flight: None,
                },
            }),
        }
    }

    /// Lets something happen in the slot. After want of memory nothing has changed, but that a call
    /// in flight is over whose step it was, with nothing done but its reading steps.
    pub fn act(&mut self, alloc: Global, action: SlotAction) -> Result<SlotReply, Memory>
        requires { self.old.slot.digests.count < 2 ^ 63 }
        ensures ok { IfOk result (RowActs action self.old self.new) }
        ensures err { OnErr result (RowLacksMemory action self.old self.new) }
    {
        self.parts.act(alloc, action)
    }

    /// Power is lost and comes back. The call in flight is over, and has changed nothing.
    pub fn lose_power(&mut self)
        ensures { self.new ≡ row_after self.old (Loses ∷ []) }
    {
        self.parts.lose_power();
    }

    /// Whether this ends a call in flight by a loss of power.
    pub fn is_cut(&self, action: &SlotAction) -> bool
        ensures { result ≡ is_cut self.now.slot.flight action.now }
    {
        match (&self.parts.flight, action) {
            (Some(_), SlotAction::Break(CallBreak::Cut)) => true,
            _ => false,
        }
    }

    /// How many requests were committed.
    pub fn committed(&self) -> u64
        ensures { result ≡ self.now.slot.digests.count }
    {
        self.parts.seat.committed
    }

    /// How many snapshots were handed out.
    pub fn snapshots(&self) -> u64
        ensures { result ≡ length self.now.slot.issued }
    {
        self.parts.seat.issued.len() as u64
    }

    /// The bytes of the snapshots that were handed out, all together, or the most that 64 bits
    /// tell.
    pub fn kept(&self) -> u64
        ensures { result ≡ within_64 (sum_by length self.now.slot.issued) }
    {
        self.parts.seat.kept
    }
}
