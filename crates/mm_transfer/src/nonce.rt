//! The nonce of an invitation.

/// What an invitation is told apart by: a ticket names the one that it answers.
#[derive(Clone, Copy)]
pub struct Nonce {
    pub bytes: [u8; 32],
}
