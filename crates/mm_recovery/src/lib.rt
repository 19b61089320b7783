//! The calls of the host program over a platform and a store of four slots: `init` sets both up;
//! after any stop `resume` goes on with the request that waits, and `ask_next` then asks for one
//! request after another.
//!
//! Slots 0 and 1 take turns with the snapshots, by their positions' parity, and slots 2 and 3 with
//! the records of pending requests. A record is written before its request is asked.
#![tactic(auto)]

mod asking;
mod elsewhere;
mod fault;
mod init_fault;
mod next;
mod resuming;
mod setup;
mod slot_laws;
mod waiting;

pub use elsewhere::nothing_is_done_elsewhere;
pub use fault::HostFault;
pub use init_fault::InitFault;
pub use next::ask_next;
pub use resuming::{Resumed, resume};
pub use setup::init;
pub use slot_laws::{first_starts_can_go_on, old_slots_stay_genuine, slots_keep_fitting};
