//! How the program ends, and what it writes last.
#![tactic(auto)]

mod status;
mod stop;
mod telling;

pub use status::Status;
pub use telling::{answered, stopped, written};
