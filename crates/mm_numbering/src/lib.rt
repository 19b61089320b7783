//! What a check counts: messages by their numbers, the digests that two of them share, and the
//! first event at which others extend the register by the guard of a batch that the run asks.
#![tactic(auto)]

mod digests;
mod guards;
mod messages;
mod texts;

pub use digests::{DigestIndex, NumberPair, first_then};
pub use guards::first_secured;
pub use messages::Numbers;
pub use texts::TextList;
