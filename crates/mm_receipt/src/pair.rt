//! Pairs of lines: a request at a position, and the output that is said to be its receipt.

use mm_bytes::Bytes;

/// The first line of a pair: a request of at most 4,096 bytes and its position.
#[derive(Drop)]
pub struct AskedRequest {
    pub position: u64,
    pub request: Bytes,
}

/// A pair that was good.
#[derive(Drop)]
pub struct GoodPair {
    pub request: Bytes,
    pub output: Bytes,
}

/// What a pair is answered.
#[derive(Clone, Copy, PartialEq, Eq)]
pub enum PairVerdict {
    /// The output has not the form of a receipt.
    NoForm,
    /// Its digits aren't the tag.
    NoTag,
    /// An earlier good pair of this position had another request or output.
    Clash,
    /// The output is the receipt.
    Good,
}
