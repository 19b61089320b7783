//! Calls in flight.

use mm_bytes::Bytes;
use mm_machine::OpCall;
use mm_model::BatchAnswer;
use mm_opt::Checkpointed;
use mm_schedule::Offer;

/// What a call asks: what it offers, the bytes of that, and the request.
#[derive(Drop)]
pub struct AskedRequest {
    pub offer: Offer,
    pub bytes: Bytes,
    pub request: Bytes,
}

/// A call that asks a request, in flight.
#[derive(Drop)]
pub struct AskInFlight {
    pub call: OpCall<BatchAnswer>,
    pub asked: AskedRequest,
}

/// A checkpoint in flight.
#[derive(Drop)]
pub struct CheckpointInFlight {
    pub call: OpCall<Checkpointed>,
}

/// A call between two of its device steps.
#[derive(Drop)]
pub enum Flight {
    Asks(AskInFlight),
    Closes(CheckpointInFlight),
}
