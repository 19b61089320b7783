//! What a run of slots comes to.

/// How many requests were committed, and how many snapshots issued, in all slots together.
#[derive(Clone, Copy)]
pub struct SlotReport {
    pub committed: u64,
    pub issued: u32,
}
