//! The non-volatile cell of a platform that a module lives on, is awaited on, or has left.

ghost use Rattle.std.specs.Prelude.{◌≡◌, ◌++◌, [], IfOk};
ghost use Rattle.std.specs.Str.{bytes_eq};
ghost use Rattle.mm_seal.specs.Cell.{blank_cell};
ghost use Rattle.mm_move.specs.Cells.{FitsMoved, head_of, is_fit_for_variant, fits_variant, waiting_spelling, retired_spelling, moved_spelling, waiting_cell_in, retired_cell_in, live_cell_in, moved_cell_in, is_spelled_by, moved_cell_of};

use crate::fields::{part, variant_in};
use mm_bytes::CELL_LENGTH;
use mm_digest::{Digest, Variant, zero};
use mm_seal::{Cell, CellFault, cell_bytes};

/// A platform that was invited: it waits for the ticket with its nonce.
#[derive(Clone, Copy)]
pub struct WaitingCell {
    pub variant: Variant,
    /// The module's id.
    pub module: u8,
    pub nonce: [u8; 32],
    /// The key that snapshots will be sealed under.
    pub key: [u8; 32],
    /// What will guard the register's values in Opt. Zero in Basic.
    pub barrier: [u8; 32],
}

/// A platform that was retired: its module has left it, for the one that waits for this nonce.
#[derive(Clone, Copy)]
pub struct RetiredCell {
    pub variant: Variant,
    /// The module's id.
    pub module: u8,
    /// The summary in Basic, the anchor in Opt, where the module left.
    pub summary: Digest,
    /// The key that its snapshots were sealed under.
    pub key: [u8; 32],
    pub nonce: [u8; 32],
}

/// What the cell holds: the module lives there, is awaited there, or has left.
#[derive(Clone, Copy)]
pub enum MovedCell {
    Live(Cell),
    Waiting(WaitingCell),
    Retired(RetiredCell),
}

/// The cell's 104 bytes. In Basic a live cell has a clear flag, and a live or waiting one a zero
/// barrier.
pub fn moved_bytes(cell: &MovedCell) -> [u8; CELL_LENGTH]
    requires { FitsMoved cell.now }
    ensures { result ≡ moved_spelling cell.now }
{
    match cell {
        MovedCell::Live(cell) => cell_bytes(cell),
        MovedCell::Waiting(cell) => waiting_bytes(cell),
        MovedCell::Retired(cell) => retired_bytes(cell),
    }
}

/// The bytes of a waiting cell.
#[tactic(auto, unfolding(crate::specs::Cells::waiting_spelling))]
pub fn waiting_bytes(cell: &WaitingCell) -> [u8; CELL_LENGTH]
    ensures { result ≡ waiting_spelling cell.now }
{
    let head = head_of(b'W', cell.variant, cell.module);
    laid_out(&head, &cell.nonce, &cell.key, &cell.barrier)
}

/// The bytes of a retired cell.
#[tactic(auto, unfolding(crate::specs::Cells::retired_spelling))]
pub fn retired_bytes(cell: &RetiredCell) -> [u8; CELL_LENGTH]
    ensures { result ≡ retired_spelling cell.now }
{
    let head = head_of(b'X', cell.variant, cell.module);
    laid_out(&head, &cell.summary.bytes, &cell.key, &cell.nonce)
}

// What stands before the fields of a cell, by the letter of its form.
fn head_of(letter: u8, variant: Variant, module: u8) -> [u8; 8]
    ensures { result ≡ head_of letter variant «module» [] }
{
    [b'M', b'M', letter, b'1', variant.byte(), module, 0, 0]
}

// The bytes of a cell: its head, and three fields.
fn laid_out(head: &[u8; 8], first: &[u8; 32], key: &[u8; 32], last: &[u8; 32]) -> [u8; CELL_LENGTH]
    ensures { result ≡ head.now ++ (first.now ++ (key.now ++ last.now)) }
{
    let mut bytes = [0; CELL_LENGTH];
    let (front, rest) = bytes.split_at_mut(8);
    front.copy_from_slice(head);
    let (field, rest) = rest.split_at_mut(32);
    field.copy_from_slice(first);
    let (field, rest) = rest.split_at_mut(32);
    field.copy_from_slice(key);
    rest.copy_from_slice(last);
    bytes
}

/// The cell that these bytes are. Blank exactly on 104 zero bytes, Cell exactly on bytes that are
/// neither blank nor a live, a waiting or a retired cell's.
pub fn read_moved(bytes: &[u8; CELL_LENGTH]) -> Result<MovedCell, CellFault>
    ensures cell { result ≡ moved_cell_of bytes.now }
    ensures fits { IfOk result FitsMoved }
{
    if is_blank(bytes) {
        return Err(CellFault::Blank);
    }
    let cell = moved_in(bytes);
    if is_spelled_by(bytes, &cell) {
        Ok(cell)
    } else {
        Err(CellFault::Cell)
    }
}

// Whether all bytes are zero.
#[tactic(auto, unfolding(mm_seal::specs::Cell::blank_cell))]
fn is_blank(bytes: &[u8; CELL_LENGTH]) -> bool
    ensures { result ≡ bytes_eq bytes.now blank_cell }
{
    *bytes == [0; CELL_LENGTH]
}

// The only cell that the bytes may spell.
fn moved_in(bytes: &[u8; CELL_LENGTH]) -> MovedCell
    ensures { result ≡ moved_cell_in bytes.now }
{
    match bytes[2] {
        b'W' => MovedCell::Waiting(waiting_in(bytes)),
        b'X' => MovedCell::Retired(retired_in(bytes)),
        _ => MovedCell::Live(live_in(bytes)),
    }
}

fn waiting_in(bytes: &[u8; CELL_LENGTH]) -> WaitingCell
    ensures { result ≡ waiting_cell_in bytes.now }
{
    WaitingCell {
        variant: variant_in(bytes),
        module: bytes[5],
        nonce: part(bytes, 8),
        key: part(bytes, 40),
        barrier: part(bytes, 72),
    }
}

fn retired_in(bytes: &[u8; CELL_LENGTH]) -> RetiredCell
    ensures { result ≡ retired_cell_in bytes.now }
{
    RetiredCell {
        variant: variant_in(bytes),
        module: bytes[5],
        summary: Digest {
            bytes: part(bytes, 8),
        },
        key: part(bytes, 40),
        nonce: part(bytes, 72),
    }
}

fn live_in(bytes: &[u8; CELL_LENGTH]) -> Cell
    ensures { result ≡ live_cell_in bytes.now }
{
    Cell {
        variant: variant_in(bytes),
        module: bytes[5],
        flag: bytes[6] == 1,
        summary: Digest {
            bytes: part(bytes, 8),
        },
        key: part(bytes, 40),
        barrier: part(bytes, 72),
    }
}

// Whether the cell fits its variant, and these are its bytes.
fn is_spelled_by(bytes: &[u8; CELL_LENGTH], cell: &MovedCell) -> bool
    ensures { result ≡ is_spelled_by bytes.now cell.now }
{
    fits(cell) && moved_bytes(cell) == *bytes
}

// Whether the cell fits its variant.
fn fits(cell: &MovedCell) -> bool
    ensures { result ≡ is_fit_for_variant cell.now }
{
    match cell {
        MovedCell::Live(cell) => fits_variant(cell.variant, cell.flag, &cell.barrier),
        MovedCell::Waiting(cell) => fits_variant(cell.variant, false, &cell.barrier),
        MovedCell::Retired(_) => true,
    }
}

fn fits_variant(variant: Variant, flag: bool, barrier: &[u8; 32]) -> bool
    ensures { result ≡ fits_variant variant flag barrier.now }
{
    match variant {
        Variant::Basic => !flag && *barrier == zero().bytes,
        Variant::Opt => true,
    }
}
