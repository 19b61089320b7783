//! The cells of a move, read as they are spelled.

use crate::samples::{NONCE, OTHER, spelled};
use mm_bytes::{CELL_LENGTH, read_decimal};
use mm_digest::Variant;
use mm_move::{MovedCell, moved_bytes, read_moved};
use mm_seal::CellFault;
use std::test::Fail;

/// A byte of the cells that wait and that were left, and what stands there in place of its own, so
/// that they are none.
const CHANGES: &str = "\
0 0
1 0
2 89
3 50
4 0
4 3
6 1
7 1
";

// A cell that waits, of one variant with a barrier.
fn waits(variant: Variant, module: u8) -> [u8; CELL_LENGTH] {
    match variant {
        Variant::Basic => spelled(b"MMW1", variant, module, 0, &NONCE, &[0; 32]),
        Variant::Opt => spelled(b"MMW1", variant, module, 0, &NONCE, &OTHER),
    }
}

// A cell that was left.
fn left(variant: Variant, module: u8) -> [u8; CELL_LENGTH] {
    spelled(b"MMX1", variant, module, 0, &OTHER, &NONCE)
}

// Whether a cell waits for the nonce, or was left under it, as is told.
fn is_for_nonce(cell: &MovedCell, is_left: bool) -> bool {
    match cell {
        MovedCell::Live(_) => false,
        MovedCell::Waiting(cell) => !is_left && cell.nonce == NONCE,
        MovedCell::Retired(cell) => is_left && cell.nonce == NONCE,
    }
}

// Whether bytes are read as such a cell, and it is spelled so.
fn is_read_back(bytes: &[u8; CELL_LENGTH], is_left: bool) -> bool {
    match read_moved(bytes) {
        Ok(cell) => moved_bytes(&cell) == *bytes && is_for_nonce(&cell, is_left),
        Err(_) => false,
    }
}

fn are_read_back(variant: Variant, module: u8) -> bool {
    is_read_back(&waits(variant, module), false) && is_read_back(&left(variant, module), true)
}

fn is_none(bytes: &[u8; CELL_LENGTH]) -> bool {
    matches!(read_moved(bytes), Err(CellFault::Cell))
}

// Whether the bytes are no cell with one of them changed.
fn is_none_with(mut bytes: [u8; CELL_LENGTH], at: usize, byte: u8) -> bool {
    if let Some(place) = bytes.get_mut(at) {
        *place = byte;
    }
    is_none(&bytes)
}

fn number_of(word: &str) -> usize {
    read_decimal(word.as_bytes()).unwrap_or(0) as usize
}

fn byte_of(word: &str) -> u8 {
    u8::try_from(number_of(word)).unwrap_or(0)
}

#[test]
fn cells_are_read_as_they_are_spelled(rt: HostRuntime) -> Result<(), Fail> {
    for module in [0, 1, 128, 255] {
        assert!(rt; are_read_back(Variant::Basic, module) && are_read_back(Variant::Opt, module));
    }
    assert!(rt; matches!(read_moved(&[0; CELL_LENGTH]), Err(CellFault::Blank)));
    Ok(())
}

#[test]
fn each_field_of_a_cell_counts(rt: HostRuntime) -> Result<(), Fail> {
    for line in CHANGES.lines() {
        let (at, byte) = line.split_once(' ').ok_or("no byte")?;
        let at = number_of(at);
        let byte = byte_of(byte);
        assert!(rt; is_none_with(waits(Variant::Basic, 1), at, byte), "{line}");
        assert!(rt; is_none_with(left(Variant::Opt, 128), at, byte), "{line}");
    }
    assert!(rt; is_none_with(waits(Variant::Basic, 1), 72, 1));
    assert!(rt; !is_none_with(left(Variant::Opt, 128), 72, 2));
    Ok(())
}
