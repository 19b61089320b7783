//! The check of a recorded run: whether the premises of the headline hold of it, and whether its
//! replies are those that are expected.
#![tactic(auto)]

mod checking;
mod comparing;
mod deciding;
mod difference;
mod laws;
mod lines;
mod nowhere;
mod player;
mod reading;
mod texts;
mod verdicts;

pub use checking::check;
pub use laws::{premise_is_evidence, premise_is_fixed};
pub use verdicts::{Agreement, Premise, Verdicts};
