//! The dispenser: random words, each told once.
#![tactic(auto)]

mod dispenser;
mod draws;
pub mod laws;
mod listed;

pub use dispenser::Dispenser;
