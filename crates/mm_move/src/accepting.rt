//! Acceptance: a module comes to the platform that waits for it.

ghost use Rattle.std.specs.Prelude.{◌≡◌, ◌≤◌, IfOk, Ok, false, length};
ghost use Rattle.mm_bytes.specs.Limits.{last_position, limit_of};
ghost use Rattle.mm_seal.specs.Parts.{content_of};
ghost use Rattle.mm_seal.specs.Cell.{FitsVariant};
ghost use Rattle.mm_move.specs.Cells.{FitsMoved, moved_cell_of, MovePromise, AreMoveSteps, IsOrNoMemory};
ghost use Rattle.mm_move.specs.Orders.{acceptance_of, right_ticket, acceptance_by, acceptance_again_by, acceptance_in};
ghost use Rattle.mm_move.specs.Tickets.{ticket_reading, IsBounded, ticket_content};
ghost use Rattle.mm_move.specs.declared.cell.MovedCell.TheVariants.{Live, Waiting as Waits};

use crate::cell::{MovedCell, WaitingCell, read_moved};
use crate::link::Link;
use crate::owner::{is_barred, is_other};
use crate::ready::{ReadyMove, go_on, read};
use crate::refusal::MoveRefusal;
use crate::ticket::{Ticket, read_ticket, summary_of};
use mm_bytes::{Bytes, Memory};
use mm_digest::Variant;
use mm_model::Refusal;
use mm_module::Module;
use mm_platform::Platform;
use mm_seal::{Body, Cell, CellFault, PartsFault, cell_bytes, seal};
use std::alloc::Global;

/// The module lives on the platform: where its history stands, and the first snapshot there.
#[derive(Drop)]
pub struct Accepted {
    /// How many requests were run.
    pub position: u64,
    pub snapshot: Bytes,
}

/// Accepts a ticket: the platform that waits for it has the module from then on, at the ticket's
/// summary or anchor, with a clear flag and the cell's key and barrier. The snapshot is sealed
/// under the cell's key, and handed out once the cell is written. From the live cell that was
/// written it gives the same answer again, without the writing step.
///
/// Refused in this order: Device, by the first step; Blank; Gone, where the cell is retired; Cell,
/// where it is neither a waiting nor a live one of this variant and module; Barrier, where a cell
/// of Opt has another barrier than the link; Form and Kind, by the ticket; State; Tag, under the
/// link's key; Nonce, where the cell waits for another; Stale, where the cell is live with a set
/// flag or at another summary or anchor; Memory; Device, by the second step.
pub fn accept<M: Module, P: Platform>(
    alloc: Global,
    module: &M,
    variant: Variant,
    platform: &mut P,
    link: &Link,
    ticket: &[u8],
) -> Result<Accepted, MoveRefusal>
    ensures { MovePromise (λ bytes.
        acceptance_in (M.meaning «module».now) variant link.now ticket.now (moved_cell_of bytes))
        (P.standing platform.old) (P.standing platform.new) result }
{
    accept_inner(alloc, module, variant, platform, link, ticket)
}

fn accept_inner<M: Module, P: Platform>(
    alloc: Global,
    module: &M,
    variant: Variant,
    platform: &mut P,
    link: &Link,
    ticket: &[u8],
) -> Result<Accepted, MoveRefusal>
    ensures { AreMoveSteps (λ bytes.
        acceptance_in (M.meaning «module».now) variant link.now ticket.now (moved_cell_of bytes))
        (P.standing platform.old) (P.standing platform.new) result }
{
    match read(platform) {
        Err(refusal) => Err(refusal),
        Ok(bytes) => {
            let cell = read_moved(&bytes);
            go_on(arrive(alloc, module, variant, link, ticket, cell), platform)
        }
    }
}

// What is found in a cell that was read.
fn arrive<M: Module>(
    alloc: Global,
    module: &M,
    variant: Variant,
    link: &Link,
    ticket: &[u8],
    cell: Result<MovedCell, CellFault>,
) -> Result<ReadyMove<Accepted>, MoveRefusal>
    requires { IfOk cell FitsMoved }
    ensures { IsOrNoMemory
        (acceptance_in (M.meaning «module».now) variant link.now ticket.now cell) result }
{
    match cell {
        Err(CellFault::Blank) => Err(MoveRefusal::Core(Refusal::Blank)),
        Err(CellFault::Cell) => Err(MoveRefusal::Core(Refusal::Cell)),
        Ok(MovedCell::Retired(_)) => Err(MoveRefusal::Gone),
        Ok(MovedCell::Waiting(cell)) => {
            arrive_waited(alloc, module, variant, link, ticket, &cell)
        }
        Ok(MovedCell::Live(cell)) => arrive_again(alloc, module, variant, link, ticket, &cell),
    }
}

// What is found in a waiting cell.
fn arrive_waited<M: Module>(
    alloc: Global,
    module: &M,
    variant: Variant,
    link: &Link,
    ticket: &[u8],
    cell: &WaitingCell,
) -> Result<ReadyMove<Accepted>, MoveRefusal>
    requires { FitsVariant cell.now.variant false cell.now.barrier }
    ensures { IsOrNoMemory (acceptance_in (M.meaning «module».now) variant link.now ticket.now
        (Ok (Waits cell.now))) result }
{
    if is_other(variant, module.id(), cell.variant, cell.module) {
        return Err(MoveRefusal::Core(Refusal::Cell));
    }
    if is_barred(variant, &cell.barrier, link) {
        return Err(MoveRefusal::Barrier);
    }
    match right_ticket(module, variant, &link.key, ticket) {
        Err(refusal) => Err(refusal),
        Ok(ticket) => arrive_by(alloc, cell, &ticket),
    }
}

// What is found in a live cell.
fn arrive_again<M: Module>(
    alloc: Global,
    module: &M,
    variant: Variant,
    link: &Link,
    ticket: &[u8],
    cell: &Cell,
) -> Result<ReadyMove<Accepted>, MoveRefusal>
    ensures { IsOrNoMemory (acceptance_in (M.meaning «module».now) variant link.now ticket.now
        (Ok (Live cell.now))) result }
{
    if is_other(variant, module.id(), cell.variant, cell.module) {
        return Err(MoveRefusal::Core(Refusal::Cell));
    }
    if is_barred(variant, &cell.barrier, link) {
        return Err(MoveRefusal::Barrier);
    }
    match right_ticket(module, variant, &link.key, ticket) {
        Err(refusal) => Err(refusal),
        Ok(ticket) => has_arrived_by(alloc, cell, &ticket),
    }
}

// What a ticket says, where its state is one of the module's and it is sealed under the key.
fn right_ticket<'a, M: Module>(
    module: &M,
    variant: Variant,
    key: &[u8; 32],
    ticket: &'a [u8],
) -> Result<Ticket<'a>, MoveRefusal>
    ensures ticket { ticket_reading result
        ≡ right_ticket (M.meaning «module».now) variant key.now ticket.now }
    ensures bounded { IfOk result (λ ticket. IsBounded variant (content_of ticket.body)) }
{
    match read_ticket(ticket, variant, module.id()) {
        Err(PartsFault::Form) => Err(MoveRefusal::Core(Refusal::Form)),
        Err(PartsFault::Kind) => Err(MoveRefusal::Core(Refusal::Kind)),
        Ok(offered) => {
            let ticket = offered.ticket();
            if !module.state_is_spelled(ticket.body.state) {
                return Err(MoveRefusal::Core(Refusal::State));
            }
            if !offered.tag_right(key) {
                return Err(MoveRefusal::Core(Refusal::Tag));
            }
            Ok(ticket)
        }
    }
}

// The module arrives at a waiting cell by its ticket.
fn arrive_by(
    alloc: Global,
    cell: &WaitingCell,
    ticket: &Ticket<'_>,
) -> Result<ReadyMove<Accepted>, MoveRefusal>
    requires fits { FitsVariant cell.now.variant false cell.now.barrier }
    requires position { ticket.now.body.position ≤ last_position }
    requires state { length ticket.now.body.state.now ≤ limit_of ticket.now.body.module }
    ensures { IsOrNoMemory (acceptance_by cell.now (Ok (ticket_content ticket.now))) result }
{
    if ticket.nonce != cell.nonce {
        return Err(MoveRefusal::Nonce);
    }
    let next = cell_bytes(&Cell {
        variant: cell.variant,
        module: cell.module,
        flag: false,
        summary: summary_of(&ticket.body.place),
        key: cell.key,
        barrier: cell.barrier,
    });
    match answer(alloc, &cell.key, &ticket.body) {
        Err(_) => Err(MoveRefusal::Core(Refusal::Memory)),
        Ok(answer) => Ok(ReadyMove {
            next: Some(next),
            answer,
        }),
    }
}

// The module lives there, just where its ticket says.
fn has_arrived_by(
    alloc: Global,
    cell: &Cell,
    ticket: &Ticket<'_>,
) -> Result<ReadyMove<Accepted>, MoveRefusal>
    requires position { ticket.now.body.position ≤ last_position }
    requires state { length ticket.now.body.state.now ≤ limit_of ticket.now.body.module }
    ensures { IsOrNoMemory (acceptance_again_by cell.now (Ok (ticket_content ticket.now))) result }
{
    if cell.flag || summary_of(&ticket.body.place) != cell.summary {
        return Err(MoveRefusal::Core(Refusal::Stale));
    }
    match answer(alloc, &cell.key, &ticket.body) {
        Err(_) => Err(MoveRefusal::Core(Refusal::Memory)),
        Ok(answer) => Ok(ReadyMove { next: None, answer }),
    }
}

// The answer: the snapshot is sealed under the cell's key.
fn answer(alloc: Global, key: &[u8; 32], body: &Body<'_>) -> Result<Accepted, Memory>
    requires position { body.now.position ≤ last_position }
    requires state { length body.now.state.now ≤ limit_of body.now.module }
    ensures { IfOk result (λ accepted. accepted ≡ acceptance_of key.now (content_of body.now)) }
{
    let snapshot = seal(alloc, key, body)?;
    Ok(Accepted {
        position: body.position,
        snapshot,
    })
}
