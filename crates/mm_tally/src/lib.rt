//! The tally, an example of a module of your own: it counts marks.
#![tactic(auto)]

mod listed;
mod tally;

pub use tally::Tally;

#[cfg(test)]
mod tests;
