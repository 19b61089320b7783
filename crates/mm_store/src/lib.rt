//! Where the host keeps its bytes: a store of four slots, which may be dishonest, and the record of
//! a request that is pending.
#![tactic(auto)]

mod fault;
mod four;
mod memory;
mod pending;
mod store;

pub use fault::StoreFault;
pub use four::Four;
pub use memory::MemStore;
pub use pending::{PendingRequest, pending_bytes, read_pending};
pub use store::{LONGEST_SLOT, Store};
