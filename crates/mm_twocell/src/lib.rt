//! An atomic cell over non-volatile memory whose writes may tear: two cells, and a selector that
//! picks one.
#![tactic(auto)]

mod pair;
mod torn;

pub use pair::TwoCell;
pub use torn::MemRaw;
