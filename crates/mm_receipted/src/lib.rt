//! Receipts: what a module said to a request, at which position, under a key.
#![tactic(auto)]

pub mod laws;
mod listed;
mod receipt;
mod receipted;

pub use receipt::{NotReceipt, verify};
pub use receipted::Receipted;
