//! What a module brings to the list of modules: its name, its generated requests, and its promise.
#![tactic(auto)]

mod counter;
mod listed;

pub use listed::Listed;
