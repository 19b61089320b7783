//! Several modules on one platform, each in a slot of it with its own cell, register, key and
//! snapshots; the power is common. Calls of different slots interleave at single device steps.
#![tactic(auto)]

mod asking;
mod closing;
mod event;
mod first;
mod flight;
mod heading;
mod heads;
mod laws;
mod opening;
mod outside;
mod parts;
mod platform;
mod put;
mod read;
mod report;
mod rows;
mod said;
mod slot_number;
mod stage;
mod tenant;
mod totals;
mod whole;

pub use event::{CallBreak, SlotAction, SlotEvent};
pub use flight::{AskInFlight, AskedRequest, CheckpointInFlight, Flight};
pub use heads::Heads;
pub use laws::{slots_are_alone, slots_are_runs, slots_go_on, slots_run, slots_tell_replies};
pub use opening::SlotsHeading;
pub use platform::SlotPlatform;
pub use put::{put_answer, put_power, put_slot_end};
pub use read::{read_first, read_slot_event};
pub use report::SlotReport;
pub use said::SlotReply;
pub use slot_number::SlotNumber;
pub use stage::SlotsStage;
pub use tenant::Tenant;
pub use whole::slots;
