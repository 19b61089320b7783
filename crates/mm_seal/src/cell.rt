//! The non-volatile cell: what a platform keeps without power.

ghost use Rattle.std.specs.Prelude.{◌≡◌, ◌↔◌, IsTrue, MatchOption};
ghost use Rattle.mm_seal.specs.Cell.{FitsVariant, cell_at, cell_spelling, IsNoCell, IsSpelledWith, SpellsCell, ReadsCell};
ghost use Rattle.mm_seal.specs.CellLaws.{head_of_cell};

use crate::field::{digest_at, version};
use mm_bytes::CELL_LENGTH;
use mm_digest::{Digest, Variant};
use thiserror::Error;

/// What the cell holds once the platform is provisioned.
#[derive(Clone, Copy, PartialEq, Eq)]
pub struct Cell {
    pub variant: Variant,
    /// The module's id.
    pub module: u8,
    /// Whether a segment is open. Clear in Basic.
    pub flag: bool,
    /// The summary in Basic, the anchor in Opt.
    pub summary: Digest,
    /// The key that snapshots are sealed under.
    pub key: [u8; 32],
    /// What guards the register's values in Opt. Zero in Basic.
    pub barrier: [u8; 32],
}

impl Cell {
    /// Whether a Basic cell has a clear flag and a zero barrier; an Opt cell may have any.
    pub fn fits_variant(&self) -> bool
        ensures { IsTrue result ↔ FitsVariant self.now.variant self.now.flag self.now.barrier }
    {
        match self.variant {
            Variant::Basic => !self.flag && self.barrier == mm_digest::zero().bytes,
            Variant::Opt => true,
        }
    }
}

/// Why the cell's bytes are no cell.
#[derive(Clone, Copy, Debug, PartialEq, Eq, Error)]
pub enum CellFault {
    /// All bytes are zero: the platform was never provisioned.
    #[error("the cell is blank")]
    Blank,
    /// The bytes are neither blank nor a cell's.
    #[error("the cell is not spelled")]
    Cell,
}

/// The cell's 104 bytes. A Basic cell has a clear flag and a zero barrier.
#[tactic(auto, unfolding(crate::specs::Cell::cell_spelling, crate::specs::CellLaws::head_of_cell))]
pub fn cell_bytes(cell: &Cell) -> [u8; CELL_LENGTH]
    requires { FitsVariant cell.now.variant cell.now.flag cell.now.barrier }
    ensures { result ≡ cell_spelling cell.now }
{
    let mut bytes = [0; CELL_LENGTH];
    let (front, rest) = bytes.split_at_mut(8);
    front.copy_from_slice(&head_of(cell));
    let (summary, rest) = rest.split_at_mut(32);
    summary.copy_from_slice(&cell.summary.bytes);
    let (key, barrier) = rest.split_at_mut(32);
    key.copy_from_slice(&cell.key);
    barrier.copy_from_slice(&cell.barrier);
    bytes
}

/// The bytes of a cell with another summary, which are its own but for these 32.
pub fn with_summary(bytes: &[u8; CELL_LENGTH], summary: &Digest) -> [u8; CELL_LENGTH]
    ensures { IsSpelledWith summary.now bytes.now result }
{
    let mut next = *bytes;
    next[8..40].copy_from_slice(&summary.bytes);
    next
}

/// The cell that these bytes are. Blank exactly on 104 zero bytes, Cell exactly on bytes that are
/// neither blank nor a cell's.
#[tactic(auto, unfolding(crate::specs::Cell::blank_cell))]
#[inline(always)]
pub fn read_cell(bytes: &[u8; CELL_LENGTH]) -> Result<Cell, CellFault>
    ensures { ReadsCell bytes.now result }
{
    match cell_of(bytes) {
        Some(cell) => Ok(cell),
        None if *bytes == [0; CELL_LENGTH] => Err(CellFault::Blank),
        None => Err(CellFault::Cell),
    }
}

// The cell that these bytes spell: the fields at their offsets, where their cell is spelled so.
fn cell_of(bytes: &[u8; CELL_LENGTH]) -> Option<Cell>
    ensures { MatchOption result (IsNoCell bytes.now) (SpellsCell bytes.now) }
{
    let variant = Variant::of_byte(bytes[4])?;
    let cell = cell_at(variant, bytes);
    if cell.fits_variant() && is_spelled(&cell, bytes) {
        Some(cell)
    } else {
        None
    }
}

// The cell of this variant whose fields stand at their offsets in these bytes.
fn cell_at(variant: Variant, bytes: &[u8; CELL_LENGTH]) -> Cell
    ensures { result ≡ cell_at variant bytes.now }
{
    let Digest { bytes: key } = digest_at(bytes, 40);
    let Digest { bytes: barrier } = digest_at(bytes, 72);
    Cell {
        variant,
        module: bytes[5],
        flag: bytes[6] == 1,
        summary: digest_at(bytes, 8),
        key,
        barrier,
    }
}

// Whether these bytes are the cell's, whose fields are those at their offsets: so it is by the head
// alone.
fn is_spelled(cell: &Cell, bytes: &[u8; CELL_LENGTH]) -> bool
    requires { cell.now ≡ cell_at cell.now.variant bytes.now }
    ensures { IsTrue result ↔ (bytes.now ≡ cell_spelling cell.now) }
{
    &bytes[..8] == head_of(cell).as_slice()
}

// The bytes before the summary.
#[tactic(auto, unfolding(crate::specs::CellLaws::head_of_cell))]
fn head_of(cell: &Cell) -> [u8; 8]
    ensures { result ≡ head_of_cell cell.now }
{
    [
        b'M',
        b'M',
        b'N',
        version(cell.module),
        cell.variant.byte(),
        cell.module,
        u8::from(cell.flag),
        0,
    ]
}
