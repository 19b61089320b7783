//! The core of Opt: one call takes a batch of requests from the offer of a snapshot to its answer,
//! and a checkpoint closes the open segment, over any module and any platform, one device step at a
//! time.
#![tactic(auto)]

mod call;
mod close;
mod closing;
mod find;
mod first;
mod operation;
mod segment;
mod verdicts;
mod whole;

pub use call::{Call, Turn, begin};
pub use close::OptCheckpoint;
pub use closing::{CheckpointCall, CheckpointTurn, begin_checkpoint, checkpoint, closing_result};
pub use first::provision;
pub use mm_call::{Committed, Provisioned};
pub use operation::OptAsk;
pub use segment::{CheckpointRefusal, Checkpointed};
pub use whole::{Prepared, ask, ask_batch, ask_keeping, prepare};
