//! A theorem without premises: of every schedule the replies are those of one run, up to the first
//! event at which one holds evidence in hand that a premise of the run is broken. What is evidence,
//! and the laws of it. Nothing here runs a schedule.
#![tactic(auto)]

mod laws;

pub use laws::{forged_offers_are_new, one_run_or_evidence, premises_or_evidence};
