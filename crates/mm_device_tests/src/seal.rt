//! Cells and snapshots, read as they were spelled.

use mm_bytes::{Bytes, CELL_LENGTH, Memory, read_decimal};
use mm_digest::{Digest, Variant};
use mm_seal::{
    Body, Cell, CellFault, Offered, OpenFault, PartsFault, Place, cell_bytes, open, parts,
    read_cell, seal,
};
use std::alloc::Global;
use std::test::Fail;

const KEY: [u8; 32] = [7; 32];

const SUMMARY: Digest = Digest { bytes: [1; 32] };

const REGISTER: Digest = Digest { bytes: [2; 32] };

/// A variant and a module's id, and the first bytes of its cell.
const CELLS: &str = "\
basic 0 => 4d4d4e3101000000
basic 1 => 4d4d4e3101010000
basic 127 => 4d4d4e31017f0000
basic 128 => 4d4d4e3201800000
basic 255 => 4d4d4e3201ff0000
opt 0 => 4d4d4e3102000100
opt 1 => 4d4d4e3102010100
opt 127 => 4d4d4e31027f0100
opt 128 => 4d4d4e3202800100
opt 255 => 4d4d4e3202ff0100
";

/// A byte of the cell of module 1, and what stands there in place of its own, so that it is none.
const CHANGES: &str = "\
opt 0 109
opt 1 109
opt 2 83
opt 3 50
opt 3 48
opt 4 0
opt 4 3
opt 5 128
opt 6 2
opt 7 1
basic 6 1
basic 72 1
basic 103 1
";

/// A variant, a module's id and the bytes of its state; and the bytes of the snapshot. The sizes
/// are those of a counter's, an unset limiter's and the longest snapshots.
const SIZES: &str = "\
basic 1 8 => 90
opt 1 8 => 122
basic 2 1 => 83
basic 127 65536 => 65618
opt 127 65536 => 65650
basic 128 1048576 => 1048658
opt 255 1048576 => 1048690
";

fn variant_of(word: &str) -> Variant {
    match word {
        "basic" => Variant::Basic,
        _ => Variant::Opt,
    }
}

fn number_of(word: &str) -> usize {
    read_decimal(word.as_bytes()).unwrap_or(0) as usize
}

fn byte_of(number: usize) -> u8 {
    u8::try_from(number).unwrap_or(0)
}

// A variant, and two numbers.
fn numbers_of(text: &str) -> (Variant, usize, usize) {
    let (variant, rest) = text.split_once(' ').unwrap_or((text, ""));
    let (first, second) = rest.split_once(' ').unwrap_or((rest, ""));
    (variant_of(variant), number_of(first), number_of(second))
}

// A cell of this variant and module, with the greatest fields that the variant allows.
fn cell_of(variant: Variant, module: u8) -> Cell {
    let is_opt = variant == Variant::Opt;
    Cell {
        variant,
        module,
        flag: is_opt,
        summary: SUMMARY,
        key: KEY,
        barrier: if is_opt { [9; 32] } else { [0; 32] },
    }
}

fn bytes_of(cell: &Cell) -> [u8; CELL_LENGTH] {
    if cell.fits_variant() {
        cell_bytes(cell)
    } else {
        [0; CELL_LENGTH]
    }
}

// Whether a cell is read as it is spelled, and begins with the bytes of these digits.
fn is_read_back(text: &str, digits: &str) -> bool {
    let (variant, module, _) = numbers_of(text);
    let cell = cell_of(variant, byte_of(module));
    let bytes = bytes_of(&cell);
    let mut head = [0; 8];
    hex::decode_to_slice(digits, &mut head).is_ok()
        && bytes.starts_with(&head)
        && read_cell(&bytes) == Ok(cell)
}

// Whether the cell of module 1 is none with one byte changed.
fn is_none(text: &str) -> bool {
    let (variant, at, byte) = numbers_of(text);
    let mut bytes = bytes_of(&cell_of(variant, 1));
    if let Some(place) = bytes.get_mut(at) {
        *place = byte_of(byte);
    }
    read_cell(&bytes) == Err(CellFault::Cell)
}

#[test]
fn cells_are_read_as_they_are_spelled(rt: HostRuntime) -> Result<(), Fail> {
    for line in CELLS.lines() {
        let (text, digits) = line.split_once(" => ").ok_or("no row")?;
        assert!(rt; is_read_back(text, digits), "{line}");
    }
    for line in CHANGES.lines() {
        assert!(rt; is_none(line), "{line}");
    }
    assert!(rt; read_cell(&[0; CELL_LENGTH]) == Err(CellFault::Blank));
    Ok(())
}

// The place of a variant.
fn place_of(variant: Variant) -> Place {
    match variant {
        Variant::Basic => Place::Basic(SUMMARY),
        Variant::Opt => Place::Opt {
            anchor: SUMMARY,
            extension: REGISTER,
        },
    }
}

// The body of a snapshot, with a state of so many of these bytes.
fn body_of(variant: Variant, module: u8, state: &[u8]) -> Body<'_> {
    Body {
        module,
        place: place_of(variant),
        position: if module == 1 { 0 } else { 0x1_0000_0000_0000 },
        state,
    }
}

// The snapshot of a body within its bounds.
fn sealed(alloc: Global, body: &Body<'_>) -> Result<Bytes, Memory> {
    let limit = if body.module < 128 { 65_536 } else { 1_048_576 };
    if body.position > 0x1_0000_0000_0000 || body.state.len() > limit {
        return Err(Memory);
    }
    seal(alloc, &KEY, body)
}

fn is_body(offered: &Offered<'_>, body: &Body<'_>) -> bool {
    let read = offered.body();
    read.module == body.module
        && read.place == body.place
        && read.position == body.position
        && read.state == body.state
}

// Whether these bytes are opened as this body.
fn is_opened(bytes: &[u8], body: &Body<'_>) -> bool {
    match open(bytes, &KEY, body.place.variant(), body.module) {
        Ok(offered) => is_body(&offered, body),
        Err(_) => false,
    }
}

// Whether these bytes can't be opened as one, for this cause.
fn is_refused(bytes: &[u8], key: &[u8; 32], body: &Body<'_>, cause: OpenFault) -> bool {
    match open(bytes, key, body.place.variant(), body.module) {
        Ok(_) => false,
        Err(fault) => fault == cause,
    }
}

// Whether bytes with another in front, of which the last is one too many, are opened without that
// alone.
fn opens_whole(bytes: &[u8], body: &Body<'_>, size: usize) -> bool {
    let (whole, _) = bytes.split_at(size.min(bytes.len()));
    let (short, _) = whole.split_at(whole.len().saturating_sub(1));
    whole.len() == size
        && is_opened(whole, body)
        && is_refused(whole, &[8; 32], body, OpenFault::Tag)
        && is_refused(short, &KEY, body, OpenFault::Form)
        && is_refused(bytes, &KEY, body, OpenFault::Form)
}

// Whether a snapshot has so many bytes, is opened as it was sealed, and is refused with one more or
// less.
fn is_opened_as_sealed(alloc: Global, body: &Body<'_>, size: usize) -> Result<bool, Memory> {
    let mut snapshot = sealed(alloc, body)?;
    let is_so = snapshot.as_slice().len() == size;
    snapshot.push(0)?;
    Ok(is_so && opens_whole(snapshot.as_slice(), body, size))
}

fn is_sized(alloc: Global, state: &[u8], text: &str, size: &str) -> Result<bool, Memory> {
    let (variant, module, length) = numbers_of(text);
    let (state, _) = state.split_at(length.min(state.len()));
    is_opened_as_sealed(
        alloc,
        &body_of(variant, byte_of(module), state),
        number_of(size),
    )
}

#[test]
fn snapshots_are_opened_as_they_were_sealed(rt: HostRuntime) -> Result<(), Fail> {
    let state = vec![in rt.alloc(); 5u8; 1_048_576]?;
    for line in SIZES.lines() {
        let (text, size) = line.split_once(" => ").ok_or("no row")?;
        assert!(rt; is_sized(rt.alloc(), &state, text, size)?, "{line}");
    }
    Ok(())
}

// Puts the bytes of a snapshot of Basic, at the first place and position, with a state of so many
// bytes.
fn put_snapshot(bytes: &mut Bytes, word: &[u8], module: u8, size: u32) -> Result<(), Memory> {
    bytes.append(word)?;
    bytes.append(&[1, module])?;
    bytes.append(&[0; 40])?;
    bytes.append(&size.to_be_bytes())?;
    for _ in 0..size {
        bytes.push(0)?;
    }
    bytes.append(&KEY)
}

// Whether they are a snapshot but for the tag.
fn has_parts(alloc: Global, word: &[u8], module: u8, size: u32) -> Result<bool, Memory> {
    let mut bytes = Bytes::new(alloc);
    put_snapshot(&mut bytes, word, module, size)?;
    match parts(bytes.as_slice(), Variant::Basic, module) {
        Ok(_) => Ok(true),
        Err(fault) => Ok(fault != PartsFault::Form),
    }
}

// A state of one byte more than its module's id allows is spelled by nothing, whatever the tag.
#[test]
fn states_beyond_their_bounds_are_refused(rt: HostRuntime) -> Result<(), Fail> {
    assert!(rt; has_parts(rt.alloc(), b"MMS1", 1, 65_536)?);
    assert!(rt; !has_parts(rt.alloc(), b"MMS1", 1, 65_537)?);
    assert!(rt; has_parts(rt.alloc(), b"MMS2", 128, 1_048_576)?);
    assert!(rt; !has_parts(rt.alloc(), b"MMS2", 128, 1_048_577)?);
    Ok(())
}
