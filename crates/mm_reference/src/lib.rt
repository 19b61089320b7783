//! What digests and snapshots stand for, with none of them: the machine that runs a protected
//! module, and a history as lists. Tests judge the cores by these.
#![tactic(auto)]

mod entries;
mod examples;
mod machine;
mod symbolic;

pub use examples::{after_one_request, after_two_requests};
pub use machine::Machine;
pub use symbolic::Symbolic;
