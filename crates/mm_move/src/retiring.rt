//! Retirement: a module leaves its platform, and a ticket is given.

ghost use Rattle.std.specs.Prelude.{◌≡◌, ◌≤◌, IfOk, Ok, false, length};
ghost use Rattle.std.specs.List.{list_any};
ghost use Rattle.mm_bytes.specs.Limits.{last_position, limit_of};
ghost use Rattle.mm_digest.specs.Messages.{zero_bytes};
ghost use Rattle.mm_model.specs.Verdicts.{forms_of, is_fresh_form};
ghost use Rattle.mm_seal.specs.Parts.{content_of};
ghost use Rattle.mm_seal.specs.Snapshot.{variant_of};
ghost use Rattle.mm_move.specs.Cells.{moved_cell_of, MovePromise, AreMoveSteps, IsOrNoMemory};
ghost use Rattle.mm_move.specs.Orders.{right_offer, is_place_at, retirement_by, retirement_in};
ghost use Rattle.mm_move.specs.Tickets.{offer_reading, IsBounded};
ghost use Rattle.mm_move.specs.declared.cell.MovedCell.TheVariants.{Live, Retired as Left};

use crate::cell::{MovedCell, RetiredCell, read_moved, retired_bytes};
use crate::link::Link;
use crate::owner::{is_barred, is_other};
use crate::ready::{ReadyMove, go_on, read};
use crate::refusal::MoveRefusal;
use crate::ticket::{Ticket, place_at, ticket_bytes};
use mm_bytes::{Bytes, CELL_LENGTH};
use mm_digest::{Digest, Variant, anchored, zero};
use mm_model::Refusal;
use mm_module::Module;
use mm_platform::Platform;
use mm_seal::{Body, Cell, CellFault, PartsFault, Place, parts};
use std::alloc::Global;

/// Retires a platform: its module leaves for the platform that waits for this nonce, and the ticket
/// is handed out once the cell is written. From the retired cell it makes the same ticket again,
/// without the writing step.
///
/// Refused in this order: Device, by the first step; Blank; Cell, where the cell is neither a live
/// nor a retired one of this variant and module; Barrier, where a live cell of Opt has another
/// barrier than the link; Open, where it has a set flag; Gone, where the cell is retired under
/// another nonce; Form, Kind, State and Tag, by the offer under the cell's key; Stale, where no
/// form of the offered place is the cell's summary, or its anchor with a zero extension; Memory;
/// Device, by the second step.
pub fn retire<M: Module, P: Platform>(
    alloc: Global,
    module: &M,
    variant: Variant,
    platform: &mut P,
    link: &Link,
    nonce: &[u8; 32],
    offer: &[u8],
) -> Result<Bytes, MoveRefusal>
    ensures { MovePromise (λ bytes.
        retirement_in (M.meaning «module».now) variant link.now nonce.now offer.now
        (moved_cell_of bytes))
        (P.standing platform.old) (P.standing platform.new) result }
{
    retire_inner(alloc, module, variant, platform, link, nonce, offer)
}

fn retire_inner<M: Module, P: Platform>(
    alloc: Global,
    module: &M,
    variant: Variant,
    platform: &mut P,
    link: &Link,
    nonce: &[u8; 32],
    offer: &[u8],
) -> Result<Bytes, MoveRefusal>
    ensures { AreMoveSteps (λ bytes.
        retirement_in (M.meaning «module».now) variant link.now nonce.now offer.now
        (moved_cell_of bytes))
        (P.standing platform.old) (P.standing platform.new) result }
{
    match read(platform) {
        Err(refusal) => Err(refusal),
        Ok(bytes) => {
            let cell = read_moved(&bytes);
            go_on(
                leave(alloc, module, variant, link, nonce, offer, cell),
                platform,
            )
        }
    }
}

// What is found in a cell that was read.
fn leave<M: Module>(
    alloc: Global,
    module: &M,
    variant: Variant,
    link: &Link,
    nonce: &[u8; 32],
    offer: &[u8],
    cell: Result<MovedCell, CellFault>,
) -> Result<ReadyMove<Bytes>, MoveRefusal>
    ensures { IsOrNoMemory
        (retirement_in (M.meaning «module».now) variant link.now nonce.now offer.now cell) result }
{
    match cell {
        Err(CellFault::Blank) => Err(MoveRefusal::Core(Refusal::Blank)),
        Err(CellFault::Cell) => Err(MoveRefusal::Core(Refusal::Cell)),
        Ok(MovedCell::Waiting(_)) => Err(MoveRefusal::Core(Refusal::Cell)),
        Ok(MovedCell::Live(cell)) => {
            leave_live(alloc, module, variant, link, nonce, offer, &cell)
        }
        Ok(MovedCell::Retired(cell)) => {
            leave_again(alloc, module, variant, link, nonce, offer, &cell)
        }
    }
}

// What is found in a live cell.
fn leave_live<M: Module>(
    alloc: Global,
    module: &M,
    variant: Variant,
    link: &Link,
    nonce: &[u8; 32],
    offer: &[u8],
    cell: &Cell,
) -> Result<ReadyMove<Bytes>, MoveRefusal>
    ensures { IsOrNoMemory (retirement_in (M.meaning «module».now) variant link.now
        nonce.now offer.now
        (Ok (Live cell.now))) result }
{
    if is_other(variant, module.id(), cell.variant, cell.module) {
        return Err(MoveRefusal::Core(Refusal::Cell));
    }
    if is_barred(variant, &cell.barrier, link) {
        return Err(MoveRefusal::Barrier);
    }
    if cell.flag {
        return Err(MoveRefusal::Open);
    }
    let next = retired_bytes(&RetiredCell {
        variant: cell.variant,
        module: cell.module,
        summary: cell.summary,
        key: cell.key,
        nonce: *nonce,
    });
    match right_offer(module, variant, &cell.key, offer) {
        Err(refusal) => Err(refusal),
        Ok(body) => leave_at(alloc, link, nonce, &cell.summary, Some(next), &body),
    }
}

// What is found in a retired cell.
fn leave_again<M: Module>(
    alloc: Global,
    module: &M,
    variant: Variant,
    link: &Link,
    nonce: &[u8; 32],
    offer: &[u8],
    cell: &RetiredCell,
) -> Result<ReadyMove<Bytes>, MoveRefusal>
    ensures { IsOrNoMemory (retirement_in (M.meaning «module».now) variant link.now
        nonce.now offer.now
        (Ok (Left cell.now))) result }
{
    if is_other(variant, module.id(), cell.variant, cell.module) {
        return Err(MoveRefusal::Core(Refusal::Cell));
    }
    if cell.nonce != *nonce {
        return Err(MoveRefusal::Gone);
    }
    match right_offer(module, variant, &cell.key, offer) {
        Err(refusal) => Err(refusal),
        Ok(body) => leave_at(alloc, link, nonce, &cell.summary, None, &body),
    }
}

// What an offer says, where its state is one of the module's and it is sealed under the key.
fn right_offer<'a, M: Module>(
    module: &M,
    variant: Variant,
    key: &[u8; 32],
    offer: &'a [u8],
) -> Result<Body<'a>, MoveRefusal>
    ensures offer { offer_reading result
        ≡ right_offer (M.meaning «module».now) variant key.now offer.now }
    ensures bounded { IfOk result (λ body. IsBounded variant (content_of body)) }
{
    match parts(offer, variant, module.id()) {
        Err(PartsFault::Form) => Err(MoveRefusal::Core(Refusal::Form)),
        Err(PartsFault::Kind) => Err(MoveRefusal::Core(Refusal::Kind)),
        Ok(offered) => {
            let body = offered.body();
            if !module.state_is_spelled(body.state) {
                return Err(MoveRefusal::Core(Refusal::State));
            }
            if !offered.tag_right(key) {
                return Err(MoveRefusal::Core(Refusal::Tag));
            }
            Ok(body)
        }
    }
}

// The ticket, where the offered place is at this summary or anchor.
fn leave_at(
    alloc: Global,
    link: &Link,
    nonce: &[u8; 32],
    summary: &Digest,
    next: Option<[u8; CELL_LENGTH]>,
    body: &Body<'_>,
) -> Result<ReadyMove<Bytes>, MoveRefusal>
    requires position { body.now.position ≤ last_position }
    requires state { length body.now.state.now ≤ limit_of body.now.module }
    ensures { IsOrNoMemory
        (retirement_by (variant_of body.now.place) link.now nonce.now summary.now next
        (Ok (content_of body.now))) result }
{
    if !stands_at(&body.place, summary) {
        return Err(MoveRefusal::Core(Refusal::Stale));
    }
    let place = place_at(body.place.variant(), *summary);
    let ticket = Ticket {
        nonce: *nonce,
        body: Body { place, ..*body },
    };
    match ticket_bytes(alloc, &link.key, &ticket) {
        Err(_) => Err(MoveRefusal::Core(Refusal::Memory)),
        Ok(answer) => Ok(ReadyMove { next, answer }),
    }
}

// Whether a form of the place is this summary, or this anchor with a zero extension.
fn stands_at(place: &Place, summary: &Digest) -> bool
    ensures { result ≡ is_place_at summary.now place.now }
{
    match place {
        Place::Basic(offered) => offered == summary,
        Place::Opt { anchor, extension } => closes_at(anchor, extension, summary),
    }
}

// Whether a form of the place with this anchor and extension is this anchor with a zero extension.
fn closes_at(anchor: &Digest, extension: &Digest, summary: &Digest) -> bool
    ensures { result ≡ list_any (is_fresh_form false summary.now.bytes zero_bytes)
        (forms_of anchor.now.bytes extension.now.bytes) }
{
    if *extension == zero() {
        return anchor == summary;
    }
    anchored(anchor, extension) == *summary
}
