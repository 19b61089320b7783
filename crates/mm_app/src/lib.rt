//! The words of the command line, and the top call.
#![tactic(auto)]

mod bulk;
mod check;
mod command;
mod help;
mod receipts;
mod replay;
mod schedule;
mod slots;
mod transfer;

pub use command::memoir;
pub use mm_status::Status;
