//! The cores for C: a thin face over proved calls, which keeps nothing and never calls back.
//! `bindings/c/memoir.h` declares it.
#![tactic(auto)]

mod asking;
mod batch;
mod closing;
mod instance;
mod keeping;
mod made;
mod modules;
mod moving;
mod pending;
mod provisioning;
mod receipts;
mod said;

pub use asking::{Instance, Reply};
pub use instance::CellBytes;
pub use keeping::{Kept, Text};
pub use made::Step;
pub use moving::{KeyBytes, MoveReply};
pub use provisioning::{Keys, ProvisionReply};
