//! Cells, offers and batches by the words of a table.

ghost use Rattle.std.specs.Prelude.{◌≤◌, length};
ghost use Rattle.mm_bytes.specs.Limits.{last_position};

use mm_bytes::{Bytes, CELL_LENGTH, Memory};
use mm_digest::{Digest, Variant, start, zero};
use mm_module::Batch;
use mm_seal::{Body, Cell, Place, cell_bytes, seal};
use std::alloc::Global;

pub const KEY: [u8; 32] = [7; 32];

pub const BARRIER: [u8; 32] = [9; 32];

fn opt_cell(module: u8, flag: bool) -> [u8; CELL_LENGTH] {
    cell_bytes(&Cell {
        variant: Variant::Opt,
        module,
        flag,
        summary: start(Variant::Opt, module),
        key: KEY,
        barrier: BARRIER,
    })
}

fn basic_cell() -> [u8; CELL_LENGTH] {
    let barrier = zero().bytes;
    cell_bytes(&Cell {
        variant: Variant::Basic,
        module: 1,
        flag: false,
        summary: start(Variant::Basic, 1),
        key: KEY,
        barrier,
    })
}

pub fn cell_of(word: &str) -> [u8; CELL_LENGTH] {
    match word {
        "blank" => [0; CELL_LENGTH],
        "noise" => [1; CELL_LENGTH],
        "basic" => basic_cell(),
        "module-2" => opt_cell(2, false),
        "open" => opt_cell(1, true),
        _ => opt_cell(1, false),
    }
}

fn sealed(
    alloc: Global,
    key: &[u8; 32],
    place: Place,
    position: u64,
    state: &[u8],
) -> Result<Bytes, Memory>
    requires position { position ≤ last_position }
    requires state { length state.now ≤ 8 }
{
    let body = Body {
        module: 1,
        place,
        position,
        state,
    };
    seal(alloc, key, &body)
}

// A place of Opt with this anchor and no extension.
fn at_anchor(anchor: Digest) -> Place {
    Place::Opt {
        anchor,
        extension: zero(),
    }
}

// An offer that Basic refuses for what this word says, and for what the words behind it do.
fn basic_offer(alloc: Global, word: &str) -> Result<Bytes, Memory> {
    let here = Place::Basic(start(Variant::Basic, 1));
    match word {
        "kind" => sealed(alloc, &KEY, at_anchor(zero()), 0, &[0; 8]),
        "state" => sealed(alloc, &BARRIER, here, 0, &[1, 2, 3]),
        "tag" => sealed(alloc, &BARRIER, here, 0, &[0; 8]),
        "stale" => sealed(alloc, &KEY, Place::Basic(zero()), 0, &[0; 8]),
        "full" => sealed(alloc, &KEY, here, 1 << 48, &[0; 8]),
        "first" => sealed(alloc, &KEY, here, 0, &[0; 8]),
        _ => Bytes::copy_of(alloc, b"MMS1"),
    }
}

// The same of Opt.
fn opt_offer(alloc: Global, word: &str) -> Result<Bytes, Memory> {
    let here = at_anchor(start(Variant::Opt, 1));
    let there = at_anchor(zero());
    match word {
        "kind" => sealed(alloc, &BARRIER, Place::Basic(zero()), 1 << 48, b"no state"),
        "state" => sealed(alloc, &BARRIER, there, 1 << 48, b"odd"),
        "tag" => sealed(alloc, &BARRIER, there, 1 << 48, &[0; 8]),
        "stale" => sealed(alloc, &KEY, there, 1 << 48, &[0; 8]),
        "full" => sealed(alloc, &KEY, here, 1 << 48, &[0; 8]),
        _ => Bytes::copy_of(alloc, b"MMS1"),
    }
}

pub fn offer_of(alloc: Global, variant: Variant, word: &str) -> Result<Bytes, Memory> {
    match variant {
        Variant::Basic => basic_offer(alloc, word),
        Variant::Opt => opt_offer(alloc, word),
    }
}

pub fn batch_of(word: &str) -> Batch<'_> {
    match word {
        "long" => Batch::One(b"read\n"),
        "longer" => Batch::One(&[b'a'; 4097]),
        "many" => Batch::Many(&[b'\t'; 64]),
        _ => Batch::One(b"read"),
    }
}
