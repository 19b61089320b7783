//! The calls of the host program: `init`, `resume` and `ask_next` of mm_recovery, and a session,
//! which goes on after a stop and then answers each line of an input before it reads the next.
#![tactic(auto)]

mod fault;
mod serving;
mod telling;

pub use fault::SessionFault;
pub use mm_ask::Caller;
pub use mm_recovery::{HostFault, InitFault, Resumed, ask_next, init, resume};
pub use serving::session;
