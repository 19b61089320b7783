//! The room of laws at work: all crates put together, at types of devices that exist, in memory.
//! Each function here is proved from the laws, so these ask nothing that no device meets. A law
//! that is to be shown at work gets a caller here; tests stand in mm_device_tests.
#![tactic(auto)]

mod calls;
mod commands;
mod hosts;
mod lives;
mod sessions;

pub use calls::{ask_basic, ask_opt, close_segment};
pub use commands::{
    commands_are_one_life, commands_are_parts_of_life, commands_keep_promises, run_command,
};
pub use hosts::{
    HandedObjects, Host, MemHandedObjects, Verb, live_under_host, run_rounds, run_verb,
};
pub use lives::{
    Checkpoint, LifeObjects, TwoSessions, TwoSessionsFault, live_checkpointed, live_on_copy,
    live_without_power,
};
pub use sessions::{go_on, serve, serve_copy, start, start_and_serve};
