//! Calls whose device steps a host makes: they are led on by what the host's devices answered, and
//! say the next step behind that.
#![tactic(auto)]

mod asking;
mod closing;
mod hosting;
mod laws;
mod making;
mod outcome;
mod step;
mod told;

pub use asking::{ask, ask_batch};
pub use closing::checkpoint;
pub use hosting::ask_by_steps;
pub use laws::told_calls_are_calls;
pub use making::make;
pub use outcome::StepsOutcome;
pub use step::{HostStep, MadeStep};
pub use told::{CallProgress, tell};
