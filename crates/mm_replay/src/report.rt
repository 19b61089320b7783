//! What a replay comes to.

/// How many requests were committed, and how many snapshots issued.
#[derive(Clone, Copy, PartialEq, Eq)]
pub struct Report {
    pub committed: u64,
    pub issued: u32,
}
