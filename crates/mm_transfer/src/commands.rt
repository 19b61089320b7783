//! Commands that move the module, on one side.

ghost use Rattle.std.specs.Prelude.{◌≡◌, ◌<◌, ◌^◌, Some, vec_len, vec_capacity, take, drop};
ghost use Rattle.mm_schedule.specs.declared.header.Header.{Header};
ghost use Rattle.mm_sides.specs.BothSides.{key_of, Invite, Retire, Accept, is_live};
ghost use Rattle.mm_sides.specs.BothSides as both;
ghost use Rattle.mm_transfer.specs.declared.between.IssuedTickets.{IssuedTickets};
ghost use Rattle.mm_transfer.specs.SideCommands.{TellsInvitation, TellsEntry, KeepsDigest, command_reach, CommandGoes, link_of, role_in};
ghost use Rattle.mm_transfer.specs.SideCommands.{digest_by, pair_of};
ghost use Rattle.mm_transfer.specs.Events.{which_of, command_of};

use crate::between::{IssuedTickets, either};
use crate::event::{Command, SideChoice};
use crate::moving::{Mover, has_moved, planned_accept, planned_invite, planned_retire, refused};
use crate::nonce::Nonce;
use crate::reply::MoveReply;
use crate::side::Side;
use mm_bytes::{CELL_LENGTH, Memory};
use mm_digest::Digest;
use mm_move::{Accepted, Invited, Link, MoveRefusal, MovedCell, read_moved};
use mm_outcome::{CallPlan, offered, rising, world_barrier, world_key};
use mm_platform::Stop;
use mm_schedule::Offer;
use std::alloc::Global;

// The key that the snapshots of a side are sealed under.
fn key_on(which: SideChoice) -> [u8; 32]
    ensures { (header : Header) → result ≡ key_of (pair_of header) (which_of which) }
{
    match which {
        SideChoice::First => world_key(),
        SideChoice::Second => rising(0x40),
    }
}

// What both sides share.
fn link() -> Link
    ensures { (header : Header) → result ≡ link_of (pair_of header) }
{
    Link {
        key: rising(0x60),
        barrier: world_barrier(),
    }
}

// Whether a cell says that the module is there.
fn is_live(cell: &[u8; CELL_LENGTH]) -> bool
    ensures { result ≡ is_live (role_in (Some cell.now)) }
{
    matches!(read_moved(cell), Ok(MovedCell::Live(_)))
}

// The summary or anchor in a cell that has one, and otherwise what was kept.
fn rests_at(cell: &[u8; CELL_LENGTH], kept: Digest) -> Digest
    ensures { result.bytes ≡ digest_by (role_in (Some cell.now)) kept.bytes (Some cell.now) }
{
    match read_moved(cell) {
        Ok(MovedCell::Live(_)) | Ok(MovedCell::Retired(_)) => digest_in(cell),
        Ok(MovedCell::Waiting(_)) | Err(_) => kept,
    }
}

// The summary or anchor in a cell.
fn digest_in(cell: &[u8; CELL_LENGTH]) -> Digest
    ensures { result.bytes ≡ take 32 (drop 8 cell.now) }
{
    let (_, rest) = cell.split_at(8);
    let (summary, _) = rest.split_at(32);
    let mut bytes = [0; 32];
    bytes.copy_from_slice(summary);
    Digest { bytes }
}

// Keeps the summary or anchor of the cell, which an invitation puts none in place of.
fn keep_digest(here: &mut Side)
    ensures { KeepsDigest here.old here.new }
{
    here.digest = rests_at(here.seat.platform.cell(), here.digest);
}

// What an invitation is told as.
fn invited(stop: Stop, came: Result<Invited, MoveRefusal>) -> Result<MoveReply, Memory>
    ensures { TellsInvitation stop came result }
{
    match came {
        Ok(_) => Ok(MoveReply::Invited),
        Err(why) => refused(stop, why),
    }
}

// The module is invited to the side.
fn invite(
    which: SideChoice,
    here: &mut Side,
    nonce: &Nonce,
    course: &CallPlan<'_>,
) -> Result<MoveReply, Memory>
    ensures made { (between : IssuedTickets)
        → CommandGoes (pair_of here.old.seat.header) (which_of which)
        course.now.meddles.now course.now.stop (Invite nonce.now.bytes)
        (command_reach here.old between) (command_reach here.new between) result }
    ensures headed { here.new.seat.header ≡ here.old.seat.header }
{
    keep_digest(here);
    let header = here.seat.header;
    let came = planned_invite(
        &header,
        &mut here.seat.platform,
        &link(),
        nonce,
        &key_on(which),
        course,
    );
    invited(course.stop, came)
}

// The module leaves the side.
fn retire(
    alloc: Global,
    here: &mut Side,
    between: &mut IssuedTickets,
    nonce: &Nonce,
    offer: &Offer,
    course: &CallPlan<'_>,
) -> Result<MoveReply, Memory>
    requires { vec_len between.old.tickets < 2 ^ 32 }
    ensures made { (which : both.SideName) → CommandGoes (pair_of here.old.seat.header) which
        course.now.meddles.now course.now.stop (Retire nonce.now.bytes offer.now)
        (command_reach here.old between.old) (command_reach here.new between.new) result }
    ensures headed { here.new.seat.header ≡ here.old.seat.header }
{
    between.tickets.reserve(1)?;
    let seat = &mut here.seat;
    let was_live = is_live(seat.platform.cell());
    let mover = Mover {
        alloc,
        header: seat.header,
    };
    match offered(alloc, seat.issued.as_slice(), offer) {
        Err(memory) => Err(memory),
        Ok(None) => Ok(MoveReply::NoSnapshot),
        Ok(Some(offered)) => {
            let bytes = offered.bytes();
            let platform = &mut seat.platform;
            let came = planned_retire(&mover, platform, &link(), nonce, bytes, course);
            between.leave(was_live, seat.committed, course.stop, came)
        }
    }
}

// The module entered the side, after so many requests, if it wasn't there; or it was refused. Hands
// out the snapshot.
fn enter(
    here: &mut Side,
    was_live: bool,
    away: u64,
    stop: Stop,
    came: Result<Accepted, MoveRefusal>,
) -> Result<MoveReply, Memory>
    requires { vec_len here.old.seat.issued < vec_capacity here.old.seat.issued }
    ensures entered { TellsEntry was_live away stop came here.old here.new result }
    ensures headed { here.new.seat.header ≡ here.old.seat.header }
{
    match came {
        Ok(accepted) => {
            let Accepted { position, snapshot } = accepted;
            here.seat.committed = either(was_live, here.seat.committed, away);
            here.seat.keep(Some(snapshot));
            Ok(MoveReply::Entered { position })
        }
        Err(why) => {
            let moved = !was_live && has_moved(stop, why);
            here.seat.committed = either(moved, away, here.seat.committed);
            refused(stop, why)
        }
    }
}

// The module enters the side.
fn accept(
    alloc: Global,
    here: &mut Side,
    between: &IssuedTickets,
    offer: &Offer,
    course: &CallPlan<'_>,
) -> Result<MoveReply, Memory>
    ensures made { (which : both.SideName) → CommandGoes (pair_of here.old.seat.header) which
        course.now.meddles.now course.now.stop (Accept offer.now)
        (command_reach here.old between.now) (command_reach here.new between.now) result }
    ensures headed { here.new.seat.header ≡ here.old.seat.header }
{
    here.seat.issued.reserve(1)?;
    let was_live = is_live(here.seat.platform.cell());
    let mover = Mover {
        alloc,
        header: here.seat.header,
    };
    match offered(alloc, between.tickets.as_slice(), offer) {
        Err(memory) => Err(memory),
        Ok(None) => Ok(MoveReply::NoTicket),
        Ok(Some(offered)) => {
            let bytes = offered.bytes();
            let platform = &mut here.seat.platform;
            let came = planned_accept(&mover, platform, &link(), bytes, course);
            enter(here, was_live, between.away, course.stop, came)
        }
    }
}

/// Makes a command on a side, and answers it. After want of memory nothing has changed, but that
/// the command may have made its first step.
pub fn command(
    alloc: Global,
    which: SideChoice,
    here: &mut Side,
    between: &mut IssuedTickets,
    course: &CallPlan<'_>,
    command: &Command,
) -> Result<MoveReply, Memory>
    requires { vec_len between.old.tickets < 2 ^ 32 }
    ensures made { CommandGoes (pair_of here.old.seat.header) (which_of which)
        course.now.meddles.now course.now.stop (command_of command.now)
        (command_reach here.old between.old) (command_reach here.new between.new) result }
    ensures headed { here.new.seat.header ≡ here.old.seat.header }
{
    match command {
        Command::Invite { nonce } => invite(which, here, nonce, course),
        Command::Retire { nonce, offer } => retire(alloc, here, between, nonce, offer, course),
        Command::Accept { offer } => accept(alloc, here, between, offer, course),
    }
}
