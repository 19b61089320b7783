//! The modules that Memoir has, by their names and ids.
#![tactic(auto)]

mod any;

pub use any::{AnyModule, by_id, by_name, module_names};
