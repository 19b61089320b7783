//! A reply, as a client heard it.

use mm_bytes::Bytes;

/// A reply that was heard whole.
#[derive(Drop)]
pub struct HeardReply {
    pub position: u64,
    pub output: Bytes,
}
