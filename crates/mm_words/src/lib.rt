//! The words that the program is started with.
#![tactic(auto)]

mod app;
mod command;
mod fault;
mod form;
mod help;
mod read;

pub use command::{CommandLine, GeneratedSchedule};
pub use fault::WordsFault;
pub use help::help_text;
pub use read::read_words;
