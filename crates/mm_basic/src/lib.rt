//! The core of Basic: one call takes a batch of requests from the offer of a snapshot to its
//! answer, over any module and any platform, one device step at a time.
#![tactic(auto)]

mod call;
mod find;
mod first;
mod operation;
mod whole;

pub use call::{Call, Turn, begin};
pub use first::provision;
pub use mm_call::{Committed, Provisioned};
pub use operation::BasicAsk;
pub use whole::{Prepared, ask, ask_batch, ask_keeping, prepare};
