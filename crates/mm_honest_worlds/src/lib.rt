//! A world of platforms over honest stores: on whichever platform the module is, each program goes
//! on where the one list of requests stands.
#![tactic(auto)]

mod arrival;
mod carrying;
mod laws;

pub use arrival::{empty_records, put_arrival};
pub use carrying::{Carried, CarryingFault, carry_over};
pub use laws::{
    basic_world_goes_on, opt_world_goes_on, opt_world_goes_on_or_evidence,
    world_goes_on_or_evidence,
};
