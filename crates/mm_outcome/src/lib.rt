//! What a schedule means: the replies that a run of it has, said twice, and the laws by which they
//! are those of one run of the module. By lists, which know no digest, they are what the list of
//! all requests says; by digests, which know no list, what the code computes. Both agree under what
//! is asked of a run. Nothing here runs a schedule: the definitions stand apart from the code that
//! is proved against them. Whoever runs one takes the bytes that an event offers, and how a reply
//! names an end, from here.
#![tactic(auto)]

mod course;
mod ending;
mod keys;
mod laws;
mod offer;

pub use course::CallPlan;
pub use ending::{cause, way};
pub use keys::{rising, world_barrier, world_key};
pub use laws::{
    basic_is_expected, events_agree, events_keep_names, events_step, expected_runs,
    fronts_are_one_run, issued_snapshots_name_positions, opt_is_expected, premises_are_met,
    schedules_go_on,
};
pub use offer::{OfferedBytes, offered};
