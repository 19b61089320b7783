//! What a check found.

/// How many pairs were good, and how many there were.
#[derive(Clone, Copy, PartialEq, Eq)]
pub struct ReceiptReport {
    pub good: u32,
    pub pairs: u32,
}
