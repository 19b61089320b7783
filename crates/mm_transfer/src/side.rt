//! One side of a transfer: a seat, whose module may be awaited there, or may have left.

ghost use Rattle.std.specs.Prelude.{◌≡◌};
ghost use Rattle.mm_digest.specs.Messages.{start_digest_of};
ghost use Rattle.mm_seal.specs.Cell.{blank_cell};
ghost use Rattle.mm_modules.specs.Modules.{meaning_of};

use mm_bytes::{CELL_LENGTH, Memory};
use mm_digest::{Digest, start};
use mm_module::Module;
use mm_schedule::{Event, Header, Reply};
use mm_world::{Seat, owned_view, world_secrets};
use std::alloc::Global;

/// One side of a transfer. The cell of its seat tells whether the module is there, is awaited
/// there, has left, or never was; and the seat counts the requests committed, on either side, where
/// the side stands or last stood.
#[derive(Drop)]
pub struct Side {
    pub seat: Seat,
    /// The summary or anchor where the side last stood. A cell that has one counts before it.
    pub digest: Digest,
}

// The bytes of a blank cell.
#[tactic(auto, unfolding(mm_seal::specs::Cell::blank_cell))]
fn blank_bytes() -> [u8; CELL_LENGTH]
    ensures { result ≡ blank_cell }
{
    [0; CELL_LENGTH]
}

// Where a side stands at first.
fn first_digest(header: &Header) -> Digest
    ensures { result.bytes ≡ start_digest_of header.now.variant
        (meaning_of header.now.«module»).id }
{
    start(header.variant, header.module.id())
}

impl Side {
    ghost use Rattle.std.specs.Prelude.{◌≡◌, ◌<◌, ◌^◌, IfOk};
    ghost use Rattle.mm_schedule.specs.Events.{event_of};
    ghost use Rattle.mm_sides.specs.BothSides.{First, Second, first_both_by_digests};
    ghost use Rattle.mm_transfer.specs.SideCommands.{pair_of, IsNew, SideFollows};

    /// The side that the module is on at first: provisioned for the header's module, with its first
    /// snapshot.
    pub fn live(alloc: Global, header: &Header) -> Result<Side, Memory>
        ensures { IfOk result
            (IsNew header.now First (first_both_by_digests (pair_of header.now)).first) }
    {
        match Seat::first(alloc, *header, &world_secrets()) {
            Err(memory) => Err(memory),
            Ok(seat) => Ok(Side {
                seat,
                digest: first_digest(header),
            }),
        }
    }

    /// The other side at first: its cell is blank, and nothing was issued there.
    pub fn blank(alloc: Global, header: &Header) -> Side
        ensures { IsNew header.now Second (first_both_by_digests (pair_of header.now)).second
            result }
    {
        Side {
            seat: Seat::bare(alloc, *header, &blank_bytes()),
            digest: first_digest(header),
        }
    }

    /// Follows an event of a schedule on this side, and answers it. After want of memory nothing
    /// has changed, but that a call may have made its reading steps.
    pub fn event(&mut self, event: &Event) -> Result<Reply, Memory>
        requires { self.old.seat.committed < 2 ^ 63 }
        ensures { SideFollows (event_of event.now) self.old self.new result }
    {
        self.seat.follow(owned_view(event))
    }
}
