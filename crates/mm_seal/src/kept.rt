//! The absorbed key that is kept between calls.

ghost use Rattle.std.specs.Prelude.{◌≡◌, IsTrue, IsSome, IfSome};

use crate::sealing::SealingKey;
use std::marker::Model;

/// What absorbing a key gave, kept from one call to the next, with what was sealed last under it:
/// as long as the key stays the same it is absorbed once, and an offer of the bytes that were
/// sealed last takes no second HMAC. It changes no answer, so contracts see nothing of it.
#[derive(Drop)]
pub struct KeptKey {
    kept: Option<SealingKey>,
}

impl Model for KeptKey {
    ghost Value = { Unit {0} };

    ghost view = { λ kept. tt };
}

impl KeptKey {
    /// Nothing was absorbed yet.
    pub fn new() -> KeptKey {
        KeptKey { kept: None }
    }

    /// What is kept is this key.
    pub fn of(key: SealingKey) -> KeptKey {
        KeptKey { kept: Some(key) }
    }

    /// The key that is kept.
    pub fn key(&self) -> Option<&SealingKey> {
        match &self.kept {
            Some(kept) => Some(kept),
            None => None,
        }
    }

    /// The key, absorbed: what is kept, where it is of the very same bytes, and otherwise absorbed
    /// anew and kept from then on. Takes no memory.
    #[inline(always)]
    pub fn under(&mut self, key: &[u8; 32]) -> &mut SealingKey
        ensures { result.now ≡ key.now }
    {
        keep(&mut self.kept, key);
        key_in(&mut self.kept)
    }
}

// Sees to it that this key is kept, absorbed.
#[inline(always)]
fn keep(kept: &mut Option<SealingKey>, key: &[u8; 32])
    ensures some { IsSome kept.new }
    ensures same { IfSome kept.new (λ kept. kept ≡ key.now) }
{
    if is_kept(kept, key) {
        return;
    }
    *kept = Some(SealingKey::new(key));
}

// Whether this key is kept.
fn is_kept(kept: &Option<SealingKey>, key: &[u8; 32]) -> bool
    ensures some { IsTrue result → IsSome kept.now }
    ensures same { IsTrue result → IfSome kept.now (λ kept. kept ≡ key.now) }
{
    match kept {
        Some(kept) => kept.is(key),
        None => false,
    }
}

// The key that is kept.
fn key_in(kept: &mut Option<SealingKey>) -> &mut SealingKey
    requires { IsSome kept.old }
    ensures { IfSome kept.old (λ kept. result.now ≡ kept) }
{
    match kept {
        Some(kept) => kept,
        None => unreachable!(),
    }
}
