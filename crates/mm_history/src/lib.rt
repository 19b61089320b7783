//! A history kept in memory: as lists, with what it comes to by digests; whether what a snapshot
//! says names a position of it; and the messages of a call that asks for a batch at a place.
//! Nothing here knows a schedule or a world.
#![tactic(auto)]

mod known_digests;
mod lists;
mod marks;
mod message;
mod messages;
mod naming;
mod waymarks;

pub use known_digests::KnownDigests;
pub use lists::HistoryLists;
pub use marks::HistoryMarks;
pub use message::Message;
pub use messages::{anchored_message, joined, list_known, list_place};
pub use naming::{is_named, names_are_decided};
pub use waymarks::{SegmentStart, Waymark, Waymarks};
