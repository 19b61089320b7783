//! Schedules made from a number, and such schedules run whole and told in five lines.
#![tactic(auto)]

mod breaks;
mod counts;
mod fault;
pub mod laws;
mod line;
mod run;
mod schedule;
mod summary;
mod turn;
mod words;

pub use counts::ReplyCounts;
pub use fault::BulkFault;
pub use run::bulk;
pub use schedule::gen_;
pub use summary::{Summary, summary_text};
