//! The steps of a call in flight over a platform in memory: its next one, and one at which it is
//! broken off.
#![tactic(auto)]

mod flying;

pub use flying::{FlightOutcome, break_off, step};
