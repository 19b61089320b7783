//! Examples of how a program calls a core, to copy from: ask again after a fault, ask twice, close
//! a segment in between. Each is proved over any platform, and shows what the theorem of a call is
//! good for: it knows its history, its requests and the answers that it gets, and no plan, no
//! course and no digest.
#![tactic(auto)]

pub mod basic;
pub mod closing;
mod laws;
pub mod opt;
pub mod parts;

pub use laws::calls_are_complete;
