//! What two platforms share.

/// What the platforms share between which a module moves.
#[derive(Clone, Copy)]
pub struct Link {
    /// The key that tickets are sealed under.
    pub key: [u8; 32],
    /// The barrier of every module of Opt that moves over this link.
    pub barrier: [u8; 32],
}
