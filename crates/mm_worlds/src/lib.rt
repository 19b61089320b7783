//! A world of platforms: whatever is done on any number of them, between which a module moves over
//! one link, is one list of requests, and the module is on one of them, or on its way.
#![tactic(auto)]

mod crossing;
mod journey;
mod laws;
mod witness;

pub use crossing::{Crossing, cross_over};
pub use journey::{Journey, Leg, Pass, go_on, travel_round};
pub use laws::{
    basic_world_is_one, evidence_is_no_premise, opt_evidence_is_no_premise, opt_world_is_one,
    opt_world_is_one_or_evidence, world_is_one_or_evidence, worlds_keep_promises,
};
pub use witness::one_move_meets_premises;
