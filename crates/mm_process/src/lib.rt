//! The process round a program: its words, its input and output, the files of the current
//! directory, its exit status, and why it stopped.
#![tactic(auto)]

mod bad_line;
mod devices;
mod kept;
mod numbers;
mod place;
mod program;
mod reasons;
mod streams;
mod usage;
mod words;

pub use devices::exit_status;
pub use program::Program;
