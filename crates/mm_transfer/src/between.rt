//! What passes between both sides.

ghost use Rattle.std.specs.Prelude.{◌≡◌, if◌then◌else◌};

use crate::moving::{has_moved, refused};
use crate::reply::MoveReply;
use mm_bytes::{Bytes, Memory};
use mm_move::MoveRefusal;
use mm_platform::Stop;
use std::alloc::Global;

/// The tickets handed out, and what is kept of where the module left last.
#[derive(Drop)]
pub struct IssuedTickets {
    pub tickets: Vec<Bytes>,
    /// The bytes of the tickets, all together.
    pub kept: u64,
    /// How many requests were committed where the module left last.
    pub away: u64,
}

impl IssuedTickets {
    ghost use Rattle.std.specs.Prelude.{◌≡◌, ◌<◌, ◌^◌, [], length, vec_len, vec_capacity, ◌+◌, ◌++◌, ◌∷◌};
    ghost use Rattle.mm_world.specs.Lengths.{within_64};
    ghost use Rattle.mm_transfer.specs.SideCommands.{TellsRetirement};

    /// No ticket was handed out, and the module hasn't left.
    pub fn new(alloc: Global) -> IssuedTickets
        ensures tickets { result.tickets.items ≡ [] }
        ensures kept { result.kept ≡ 0 }
        ensures away { result.away ≡ 0 }
    {
        IssuedTickets {
            tickets: Vec::new(alloc),
            kept: 0,
            away: 0,
        }
    }

    // Keeps the ticket that was handed out, and gives its number.
    fn keep(&mut self, ticket: Bytes) -> u32
        requires room { vec_len self.old.tickets < vec_capacity self.old.tickets }
        requires few { vec_len self.old.tickets < 2 ^ 32 }
        ensures tickets { self.new.tickets.items ≡ self.old.tickets.items ++ ticket ∷ [] }
        ensures kept { self.new.kept ≡ within_64 (self.old.kept + length ticket) }
        ensures away { self.new.away ≡ self.old.away }
        ensures number { result ≡ length self.old.tickets.items }
    {
        let number = self.tickets.len() as u32;
        self.kept = self.kept.saturating_add(ticket.as_slice().len() as u64);
        self.tickets.push_reserved(ticket);
        number
    }

    /// The module left a side where so many requests were committed, if it was there; or it was
    /// refused. Hands out the ticket.
    pub fn leave(
        &mut self,
        was_live: bool,
        position: u64,
        stop: Stop,
        came: Result<Bytes, MoveRefusal>,
    ) -> Result<MoveReply, Memory>
        requires room { vec_len self.old.tickets < vec_capacity self.old.tickets }
        requires few { vec_len self.old.tickets < 2 ^ 32 }
        ensures { TellsRetirement was_live position stop came self.old self.new result }
    {
        match came {
            Ok(ticket) => {
                self.away = either(was_live, position, self.away);
                let ticket = self.keep(ticket);
                Ok(MoveReply::Left { ticket })
            }
            Err(why) => {
                self.away = either(was_live && has_moved(stop, why), position, self.away);
                refused(stop, why)
            }
        }
    }
}

/// The one where the test holds, and otherwise the other.
pub fn either(test: bool, one: u64, other: u64) -> u64
    ensures { result ≡ (if test then one else other) }
{
    if test { one } else { other }
}
