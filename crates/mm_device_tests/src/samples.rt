//! Cells, offers and tickets for moves.

ghost use Rattle.std.specs.Prelude.{◌≡◌, ◌≤◌, length};
ghost use Rattle.mm_bytes.specs.Limits.{last_position};
ghost use Rattle.mm_move.specs.Tickets.{IsAtAnchor};

use mm_bytes::{Bytes, CELL_LENGTH, Memory};
use mm_digest::{Digest, Variant, anchored, zero};
use mm_move::{Link, Ticket, ticket_bytes};
use mm_seal::{Body, Place, seal};
use std::alloc::Global;

pub const KEY: [u8; 32] = [7; 32];

pub const NONCE: [u8; 32] = [1; 32];

pub const OTHER: [u8; 32] = [2; 32];

pub const LINK: Link = Link {
    key: [3; 32],
    barrier: [4; 32],
};

pub const LEFT: Digest = Digest { bytes: [8; 32] };

pub const RIGHT: Digest = Digest { bytes: [9; 32] };

/// The summary, or the anchor of a segment that was closed.
pub fn summary() -> Digest {
    anchored(&LEFT, &RIGHT)
}

fn barrier_of(variant: Variant) -> [u8; 32] {
    match variant {
        Variant::Basic => [0; 32],
        Variant::Opt => LINK.barrier,
    }
}

/// The other variant.
fn other(variant: Variant) -> Variant {
    match variant {
        Variant::Basic => Variant::Opt,
        Variant::Opt => Variant::Basic,
    }
}

/// The bytes of a cell: its word, variant, module and flag, and what stands before and behind the
/// key.
pub fn spelled(
    word: &[u8; 4],
    variant: Variant,
    module: u8,
    flag: u8,
    before: &[u8; 32],
    behind: &[u8; 32],
) -> [u8; CELL_LENGTH] {
    let mut bytes = [0; CELL_LENGTH];
    let (front, rest) = bytes.split_at_mut(8);
    let (begin, _) = front.split_at_mut(4);
    begin.copy_from_slice(word);
    front[4] = variant.byte();
    front[5] = module;
    front[6] = flag;
    let (first, rest) = rest.split_at_mut(32);
    first.copy_from_slice(before);
    let (key, last) = rest.split_at_mut(32);
    key.copy_from_slice(&KEY);
    last.copy_from_slice(behind);
    bytes
}

fn waiting(variant: Variant, module: u8, nonce: &[u8; 32]) -> [u8; CELL_LENGTH] {
    spelled(b"MMW1", variant, module, 0, nonce, &barrier_of(variant))
}

fn retired(variant: Variant, module: u8, nonce: &[u8; 32]) -> [u8; CELL_LENGTH] {
    spelled(b"MMX1", variant, module, 0, &summary().bytes, nonce)
}

fn live(variant: Variant, module: u8, flag: u8, barrier: &[u8; 32]) -> [u8; CELL_LENGTH] {
    spelled(b"MMN1", variant, module, flag, &summary().bytes, barrier)
}

/// The cell that this word names.
pub fn cell_of(variant: Variant, word: &str) -> [u8; CELL_LENGTH] {
    match word {
        "blank" => [0; CELL_LENGTH],
        "noise" => [1; CELL_LENGTH],
        "waits" => waiting(variant, 1, &NONCE),
        "waits-other" => waiting(variant, 1, &OTHER),
        "waits-module" => waiting(variant, 2, &NONCE),
        "waits-variant" => waiting(other(variant), 1, &NONCE),
        "waits-barred" => spelled(b"MMW1", variant, 1, 0, &NONCE, &OTHER),
        "left" => retired(variant, 1, &NONCE),
        "left-other" => retired(variant, 1, &OTHER),
        "left-module" => retired(variant, 2, &NONCE),
        "variant" => live(other(variant), 1, 0, &barrier_of(other(variant))),
        "module" => live(variant, 2, 0, &barrier_of(variant)),
        "open" => live(variant, 1, 1, &barrier_of(variant)),
        "barred-open" => live(variant, 1, 1, &OTHER),
        _ => live(variant, 1, 0, &barrier_of(variant)),
    }
}

/// The place at this summary, or at this anchor.
pub fn place_at(variant: Variant, summary: Digest) -> Place
    ensures { IsAtAnchor result }
{
    match variant {
        Variant::Basic => Place::Basic(summary),
        Variant::Opt => Place::Opt {
            anchor: summary,
            extension: zero(),
        },
    }
}

/// A place behind this anchor.
fn segment(anchor: Digest) -> Place {
    Place::Opt {
        anchor,
        extension: RIGHT,
    }
}

fn sealed(
    alloc: Global,
    key: &[u8; 32],
    place: Place,
    position: u64,
    state: &[u8],
) -> Result<Bytes, Memory>
    requires position { position ≤ last_position }
    requires state { length state.now ≤ 8 }
{
    let body = Body {
        module: 1,
        place,
        position,
        state,
    };
    seal(alloc, key, &body)
}

/// The offer that this word names: wrong in one thing, and in what comes behind it.
pub fn offer_of(alloc: Global, variant: Variant, word: &str) -> Result<Bytes, Memory> {
    let here = place_at(variant, summary());
    let there = place_at(variant, LEFT);
    match word {
        "form" => Bytes::copy_of(alloc, b"MMS1"),
        "kind" => sealed(alloc, &OTHER, place_at(other(variant), LEFT), 5, &[1]),
        "state" => sealed(alloc, &OTHER, there, 5, &[1]),
        "tag" => sealed(alloc, &OTHER, there, 5, &[5; 8]),
        "stale" => sealed(alloc, &KEY, there, 5, &[5; 8]),
        "last" => sealed(alloc, &KEY, here, 1 << 48, &[5; 8]),
        "closed" => sealed(alloc, &KEY, segment(LEFT), 5, &[5; 8]),
        "inside" => sealed(alloc, &KEY, segment(summary()), 5, &[5; 8]),
        _ => sealed(alloc, &KEY, here, 5, &[5; 8]),
    }
}

fn given(
    alloc: Global,
    key: &[u8; 32],
    nonce: [u8; 32],
    place: Place,
    state: &[u8],
) -> Result<Bytes, Memory>
    requires place { IsAtAnchor place }
    requires state { length state.now ≤ 8 }
{
    let body = Body {
        module: 1,
        place,
        position: 5,
        state,
    };
    ticket_bytes(alloc, key, &Ticket { nonce, body })
}

/// The ticket that this word names: wrong in one thing, and in what comes behind it.
pub fn ticket_of(alloc: Global, variant: Variant, word: &str) -> Result<Bytes, Memory> {
    let here = place_at(variant, summary());
    let there = place_at(variant, LEFT);
    match word {
        "form" => Bytes::copy_of(alloc, b"MMT1"),
        "kind" => given(alloc, &OTHER, OTHER, place_at(other(variant), LEFT), &[1]),
        "state" => given(alloc, &OTHER, OTHER, there, &[1]),
        "tag" => given(alloc, &OTHER, OTHER, there, &[5; 8]),
        "nonce" => given(alloc, &LINK.key, OTHER, here, &[5; 8]),
        "stale" => given(alloc, &LINK.key, NONCE, there, &[5; 8]),
        _ => given(alloc, &LINK.key, NONCE, here, &[5; 8]),
    }
}
