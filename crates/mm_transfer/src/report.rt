//! What a transfer comes to.

/// How many requests were committed, how many snapshots issued on each side, and how many tickets
/// handed out.
#[derive(Clone, Copy)]
pub struct TransferReport {
    pub committed: u64,
    pub issued: [u32; 2],
    pub tickets: u32,
}
