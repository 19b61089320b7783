//! What is said of an offer.

/// What is said of an offered snapshot and the batch that is asked of it.
#[derive(Clone, Copy, PartialEq, Eq)]
pub enum Verdict {
    /// The snapshot is the newest: the batch is run and committed.
    Fresh,
    /// The batch is the one last committed, and the snapshot is the one before it.
    Again,
    /// Power was lost inside an open segment, so the history has ended.
    Lost,
    /// The snapshot isn't the newest, nor the one before the batch that was asked last.
    Stale,
}
