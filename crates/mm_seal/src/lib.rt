//! The codecs of Memoir: the non-volatile cell, and snapshots, which are sealed under the cell's
//! key.
#![tactic(auto)]

mod cell;
mod field;
mod kept;
mod sealing;
mod snapshot;

pub use cell::{Cell, CellFault, cell_bytes, read_cell, with_summary};
pub use field::split_digest;
pub use kept::KeptKey;
pub use sealing::{SealingKey, TaggedText};
pub use snapshot::{Body, Offered, OpenFault, PartsFault, Place, open, parts, seal, seal_under};
