//! What an event of a slot is answered.

use mm_schedule::Reply;

/// The answer to what happens in a slot.
#[derive(Drop)]
pub enum SlotReply {
    /// A call is in flight already.
    Busy,
    /// No call is in flight.
    Idle,
    /// A call has begun.
    Begun,
    /// The call goes on, and this is the number of its next step.
    Going(u64),
    /// The call is over, or never began, with this reply; or others extended the register.
    Replied(Reply),
}
