//! Schedules, from bytes to bytes: each line is answered before the input is asked for more.
#![tactic(auto)]

mod heading;
mod laws;
mod progress;
mod put;
mod replaying;
mod report;
mod schedules;

pub use heading::HeaderLine;
pub use laws::{replays_are_one_run, replays_go_on};
pub use progress::ReplayProgress;
pub use put::put_reply;
pub use replaying::ScheduleReplay;
pub use report::Report;
pub use schedules::replay;
