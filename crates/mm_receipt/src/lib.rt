//! Receipts and their check: `verify` of mm_receipted for one, and `receipts` pair by pair, as the
//! command `receipts KEY` does.
#![tactic(auto)]

pub mod laws;
mod pair;
mod player;
mod report;
mod tally;
mod text;

pub use mm_receipted::{NotReceipt, Receipted, verify};
pub use player::receipts;
pub use report::ReceiptReport;
