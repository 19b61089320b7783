//! Moves of the counter between platforms in memory.

use crate::samples::{KEY, LINK, NONCE, cell_of, offer_of, place_at, summary, ticket_of};
use mm_bytes::{Bytes, Memory, put_numbered};
use mm_digest::Variant;
use mm_module::Counter;
use mm_move::{Accepted, Invited, MoveRefusal, OfferedTicket, accept, invite, read_ticket, retire};
use mm_platform::{MemPlatform, Platform, Stop};
use mm_seal::open;
use std::alloc::Global;
use std::test::Fail;

/// The variant, what is in the cell, which move is made, what it is given, and what comes: with how
/// often the cell was to be written by then. At `same` the platform is that of the row before. Each
/// offer and each ticket has what the rows below it are refused for too.
const MOVES: &str = "\
basic blank invite - => done, 1
basic same invite - => again, 1
opt blank invite - => done, 1
opt same invite - => again, 1
basic noise invite - => no 13, 0
basic live invite - => no 13, 0
basic waits invite - => again, 0
basic waits-other invite - => no 13, 0
basic waits-module invite - => no 13, 0
basic waits-variant invite - => no 13, 0
basic left invite - => done, 1
opt left-other invite - => done, 1
basic blank retire form => no 4, 0
basic noise retire form => no 5, 0
basic waits retire form => no 5, 0
basic module retire form => no 5, 0
basic variant retire form => no 5, 0
basic left-module retire form => no 5, 0
opt barred-open retire form => no 17, 0
opt open retire form => no 14, 0
basic left-other retire form => no 15, 0
basic live retire form => no 7, 0
basic live retire kind => no 8, 0
basic live retire state => no 9, 0
basic live retire tag => no 10, 0
basic live retire stale => no 11, 0
basic live retire here => left 5, 1
basic same retire here => left 5, 1
basic same retire last => left 281474976710656, 1
basic same invite - => done, 2
opt live retire inside => no 11, 0
opt live retire here => left 5, 1
opt live retire closed => left 5, 1
opt same retire closed => left 5, 1
opt same retire stale => no 11, 1
opt left retire tag => no 10, 0
basic blank accept form => no 4, 0
basic left accept form => no 15, 0
basic left-module accept form => no 15, 0
basic noise accept form => no 5, 0
basic module accept form => no 5, 0
basic waits-variant accept form => no 5, 0
opt waits-barred accept form => no 17, 0
opt barred-open accept form => no 17, 0
basic waits accept form => no 7, 0
basic waits accept kind => no 8, 0
basic waits accept state => no 9, 0
basic waits accept tag => no 10, 0
basic waits accept nonce => no 16, 0
basic waits accept good => at 5, 1
basic same accept good => at 5, 1
basic same accept nonce => at 5, 1
basic same accept stale => no 11, 1
basic same retire here => left 5, 2
opt waits accept good => at 5, 1
opt same accept good => at 5, 1
opt open accept tag => no 10, 0
opt open accept good => no 11, 0
opt live accept stale => no 11, 0
opt live accept good => at 5, 0
";

/// Moves that are stopped, and what comes of the same move made again: a stop, a cell, a move and
/// what it is given.
const STOPS: &str = "\
cut-1 blank invite - => no 3, 0
cut-2 blank invite - => no 3, 1
quiet same invite - => again, 1
undone-2 blank invite - => no 3, 1
quiet same invite - => done, 2
cut-1 live retire here => no 3, 0
done-2 live retire here => no 3, 1
quiet same retire here => left 5, 1
undone-2 live retire here => no 3, 1
quiet same retire here => left 5, 2
cut-1 waits accept good => no 3, 0
cut-2 waits accept good => no 3, 1
quiet same accept good => at 5, 1
undone-2 waits accept good => no 3, 1
quiet same accept good => at 5, 2
cut-2 left retire here => left 5, 0
";

/// A line of a table.
#[derive(Clone, Copy)]
struct MoveCase<'a> {
    variant: Variant,
    stop: Stop,
    cell: &'a str,
    word: &'a str,
    given: &'a str,
    said: &'a str,
}

fn row_of(line: &str) -> Option<MoveCase<'_>> {
    let (asked, said) = line.split_once(" => ")?;
    let (front, asked) = asked.split_once(' ')?;
    let (cell, asked) = asked.split_once(' ')?;
    let (word, given) = asked.split_once(' ')?;
    Some(MoveCase {
        variant: variant_of(front),
        stop: stop_of(front),
        cell,
        word,
        given,
        said,
    })
}

fn variant_of(word: &str) -> Variant {
    match word {
        "opt" => Variant::Opt,
        _ => Variant::Basic,
    }
}

fn stop_of(word: &str) -> Stop {
    match word {
        "cut-1" => Stop::Cut(1),
        "cut-2" => Stop::Cut(2),
        "done-2" => Stop::Fail {
            step: 2,
            done: true,
        },
        "undone-2" => Stop::Fail {
            step: 2,
            done: false,
        },
        _ => Stop::Quiet,
    }
}

fn put_refusal(said: &mut Bytes, refusal: &MoveRefusal) -> Result<(), Memory> {
    put_numbered(said, b"no ", u64::from(refusal.code()))
}

fn put_invited(said: &mut Bytes, came: &Result<Invited, MoveRefusal>) -> Result<(), Memory> {
    match came {
        Ok(Invited::Done) => said.append(b"done"),
        Ok(Invited::Again) => said.append(b"again"),
        Err(refusal) => put_refusal(said, refusal),
    }
}

// Puts the position of a ticket, where it is for the nonce and the summary, and sealed under the
// link's key.
fn put_ticket(
    said: &mut Bytes,
    variant: Variant,
    offered: &OfferedTicket<'_>,
) -> Result<(), Memory> {
    let ticket = offered.ticket();
    let is_left = offered.tag_right(&LINK.key)
        && ticket.nonce == NONCE
        && ticket.body.place == place_at(variant, summary());
    put_numbered(
        said,
        if is_left {
            b"left ".as_slice()
        } else {
            b"bad "
        },
        ticket.body.position,
    )
}

fn put_left(said: &mut Bytes, variant: Variant, bytes: &[u8]) -> Result<(), Memory> {
    match read_ticket(bytes, variant, 1) {
        Ok(offered) => put_ticket(said, variant, &offered),
        Err(_) => said.append(b"no ticket"),
    }
}

// Whether bytes are a snapshot of a counter that is sealed under the cell's key, at this position.
fn is_sealed(bytes: &[u8], variant: Variant, position: u64) -> bool {
    match open(bytes, &KEY, variant, 1) {
        Ok(offered) => {
            let body = offered.body();
            body.state.len() == 8 && body.position == position
        }
        Err(_) => false,
    }
}

fn put_accepted(said: &mut Bytes, variant: Variant, accepted: &Accepted) -> Result<(), Memory> {
    let is_at = is_sealed(accepted.snapshot.as_slice(), variant, accepted.position);
    put_numbered(
        said,
        if is_at { b"at ".as_slice() } else { b"bad " },
        accepted.position,
    )
}

fn put_invite(
    said: &mut Bytes,
    row: &MoveCase<'_>,
    platform: &mut MemPlatform,
) -> Result<(), Memory> {
    let came = invite(platform, &LINK, row.variant, 1, &NONCE, &KEY);
    put_invited(said, &came)
}

fn put_retire(
    said: &mut Bytes,
    alloc: Global,
    variant: Variant,
    platform: &mut MemPlatform,
    offer: &[u8],
) -> Result<(), Memory> {
    match retire(alloc, &Counter, variant, platform, &LINK, &NONCE, offer) {
        Ok(bytes) => put_left(said, variant, bytes.as_slice()),
        Err(refusal) => put_refusal(said, &refusal),
    }
}

fn put_accept(
    said: &mut Bytes,
    alloc: Global,
    variant: Variant,
    platform: &mut MemPlatform,
    ticket: &[u8],
) -> Result<(), Memory> {
    match accept(alloc, &Counter, variant, platform, &LINK, ticket) {
        Ok(accepted) => put_accepted(said, variant, &accepted),
        Err(refusal) => put_refusal(said, &refusal),
    }
}

// Makes a row's move, and says what came.
fn put_move(
    said: &mut Bytes,
    alloc: Global,
    row: &MoveCase<'_>,
    platform: &mut MemPlatform,
) -> Result<(), Memory> {
    match row.word {
        "invite" => put_invite(said, row, platform),
        "retire" => {
            let offer = offer_of(alloc, row.variant, row.given)?;
            put_retire(said, alloc, row.variant, platform, offer.as_slice())
        }
        _ => {
            let ticket = ticket_of(alloc, row.variant, row.given)?;
            put_accept(said, alloc, row.variant, platform, ticket.as_slice())
        }
    }
}

// The same under the row's stop; then the power is back. Says besides how often the cell was to be
// written by then.
fn put_stopped(
    said: &mut Bytes,
    alloc: Global,
    row: &MoveCase<'_>,
    platform: &mut MemPlatform,
) -> Result<(), Memory> {
    platform.plan(row.stop, &[])?;
    put_move(said, alloc, row, platform)?;
    platform.end_plan();
    let _ = platform.cycle();
    put_numbered(said, b", ", platform.nv_writes())
}

// The same; where memory was wanting nothing has changed, so the move is made once more.
fn put_made(
    said: &mut Bytes,
    alloc: Global,
    row: &MoveCase<'_>,
    platform: &mut MemPlatform,
) -> Result<(), Memory> {
    put_stopped(said, alloc, row, platform)?;
    if said.as_slice().starts_with(b"no 1,") {
        *said = Bytes::new(alloc);
        put_stopped(said, alloc, row, platform)?;
    }
    Ok(())
}

// Whether what comes of a row is what it says. It is played on another platform with its cell; at
// `same` on the one that there is.
fn is_so(alloc: Global, row: &MoveCase<'_>, platform: &mut MemPlatform) -> Result<bool, Memory> {
    if row.cell != "same" {
        *platform = MemPlatform::new(alloc, &cell_of(row.variant, row.cell));
    }
    let mut said = Bytes::new(alloc);
    put_made(&mut said, alloc, row, platform)?;
    Ok(said.as_slice() == row.said.as_bytes())
}

fn is_line_so(alloc: Global, line: &str, platform: &mut MemPlatform) -> Result<bool, Memory> {
    match row_of(line) {
        Some(row) => is_so(alloc, &row, platform),
        None => Ok(false),
    }
}

// The first line that doesn't come out as it says.
fn first_wrong<'a>(
    alloc: Global,
    table: &'a str,
    platform: &mut MemPlatform,
) -> Result<&'a str, Memory> {
    for line in table.lines() {
        if !is_line_so(alloc, line, platform)? {
            return Ok(line);
        }
    }
    Ok("")
}

fn wrong<'a>(alloc: Global, table: &'a str) -> Result<&'a str, Memory> {
    let mut platform = MemPlatform::new(alloc, &[0; 104]);
    first_wrong(alloc, table, &mut platform)
}

#[test]
fn moves_are_refused_in_order(rt: HostRuntime) -> Result<(), Fail> {
    assert_eq!(rt; wrong(rt.alloc(), MOVES)?, "");
    Ok(())
}

#[test]
fn a_stopped_move_is_made_again(rt: HostRuntime) -> Result<(), Fail> {
    assert_eq!(rt; wrong(rt.alloc(), STOPS)?, "");
    Ok(())
}
