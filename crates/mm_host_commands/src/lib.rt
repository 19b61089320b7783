//! The commands that use the platform: `init`, `run`, `checkpoint` and `power`.
#![tactic(auto)]

mod checkpoint;
mod power;
mod run;
mod session_status;
mod start;

pub use checkpoint::close_segment;
pub use power::lose_power;
pub use run::run_instance;
pub use start::start_instance;
