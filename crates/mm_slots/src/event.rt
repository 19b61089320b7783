//! The events of slots.

use crate::slot_number::SlotNumber;
use mm_bytes::Bytes;
use mm_digest::Digest;
use mm_schedule::Offer;

/// How the next step of a call in flight ends it.
#[derive(Clone, Copy)]
pub enum CallBreak {
    /// Power is lost behind the step and comes back.
    Cut,
    /// The step is made, and the call is broken off.
    Drop,
    /// The step fails, with its effect or without.
    Fail { done: bool },
}

/// What happens in one slot.
#[derive(Drop)]
pub enum SlotAction {
    /// A call begins that asks a request of the offered snapshot.
    Begin { offer: Offer, request: Bytes },
    /// A call begins that closes the open segment.
    Close,
    /// The call in flight makes its next step.
    Step,
    /// The call in flight makes its next step, or fails to, and is over.
    Break(CallBreak),
    /// Others extend the slot's register.
    Extend { value: Digest },
}

/// One event of a platform with slots.
#[derive(Drop)]
pub enum SlotEvent {
    /// Power is lost and returns, for all slots.
    Power,
    /// Something happens in the slot with this number.
    At {
        slot: SlotNumber,
        action: SlotAction,
    },
}
