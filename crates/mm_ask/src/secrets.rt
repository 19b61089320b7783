//! What is secret of an instance.

/// The key that an instance's snapshots are sealed under, and the barrier that guards its
/// register's values in Opt. Basic ignores the barrier. Nothing prints them: they have no `Debug`.
#[derive(Clone, Copy, PartialEq, Eq)]
pub struct Secrets {
    pub key: [u8; 32],
    pub barrier: [u8; 32],
}
