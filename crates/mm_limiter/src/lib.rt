//! The limiter: a secret that may be guessed a limited number of times.
#![tactic(auto)]

pub mod laws;
mod limiter;
mod listed;

pub use limiter::Limiter;
