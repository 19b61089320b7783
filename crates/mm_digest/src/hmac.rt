//! HMAC-SHA-256 (RFC 2104).

ghost use Rattle.std.specs.Prelude.{◌≡◌, ◌≤◌, ◌++◌, List, ℕ, length};
ghost use Rattle.sha2.specs.Sha256.{sha256};
ghost use Rattle.sha2.specs.Hashers.{Holds256};
ghost use Rattle.mm_digest.specs.Messages.{hmac_of, padded_block, key_block, masked_block};

use crate::digest::Digest;
use sha2::{Digest as _, Sha256};
use std::marker::Model;

/// A key of 32 bytes for many tags, absorbed once: what is hashed in front of each text is kept.
/// Contracts see the key.
#[derive(Drop)]
pub struct HmacKey {
    key: [u8; 32],
    inner: Sha256,
    outer: Sha256,
    ghost inner_key: { ∥ Holds256 inner (masked_block 0x36 (key_block key)) ∥₁ },
    ghost outer_key: { ∥ Holds256 outer (masked_block 0x5c (key_block key)) ∥₁ },
}

impl Model for HmacKey {
    ghost use Rattle.std.specs.Prelude.{List, ℕ};

    ghost Value = { List ℕ };

    ghost view = { λ it. it.key };
}

impl HmacKey {
    /// The key, absorbed.
    pub fn new(key: &[u8; 32]) -> HmacKey
        ensures { result ≡ key.now }
    {
        let block = block_of(key);
        HmacKey {
            key: *key,
            inner: Sha256::new_with_prefix(&masked_by(0x36, &block)),
            outer: Sha256::new_with_prefix(&masked_by(0x5c, &block)),
        }
    }

    /// The tag of a text of any length under this key, as [`hmac_sha256`] gives it.
    #[tactic(auto, unfolding(crate::specs::Messages::hmac_of))]
    pub fn tag(&self, text: &[u8]) -> Digest
        ensures { result.bytes ≡ hmac_of self.now text.now }
    {
        self.closed(&digest_after(&self.inner, text))
    }

    /// The tag of a text in three parts, which follow one another, as [`hmac_sha256`] gives it of
    /// them joined. Takes no memory.
    #[tactic(auto, unfolding(crate::specs::Messages::hmac_of))]
    pub fn tag_of_three(&self, first: &[u8], second: &[u8], third: &[u8]) -> Digest
        ensures { result.bytes ≡ hmac_of self.now (first.now ++ (second.now ++ third.now)) }
    {
        self.closed(&digest_after_three(&self.inner, first, second, third))
    }

    // The tag of a text that has this digest behind the inner key.
    fn closed(&self, inner: &[u8; 32]) -> Digest
        ensures { result.bytes ≡ sha256 (masked_block 0x5c (key_block self.now) ++ inner.now) }
    {
        Digest {
            bytes: digest_after(&self.outer, inner),
        }
    }
}

/// The tag of a text under a key, of any lengths: HMAC of RFC 2104 over SHA-256, with blocks of
/// 64 bytes. A key of more than 64 bytes is replaced by its SHA-256.
#[tactic(auto, unfolding(crate::specs::Messages::hmac_of))]
pub fn hmac_sha256(key: &[u8], text: &[u8]) -> Digest
    ensures { result.bytes ≡ hmac_of key.now text.now }
{
    let block = block_of(key);
    let inner = digest_after(&Sha256::new_with_prefix(&masked_by(0x36, &block)), text);
    Digest {
        bytes: digest_after(&Sha256::new_with_prefix(&masked_by(0x5c, &block)), &inner),
    }
}

// SHA-256 of what was hashed and the text.
fn digest_after(hashed: &Sha256, text: &[u8]) -> [u8; 32]
    ensures { (before : List ℕ) → ∥ Holds256 hashed.now before ∥₁
        → result ≡ sha256 (before ++ text.now) }
{
    let mut hasher = hashed.clone().unwrap();
    hasher.update(text);
    hasher.finalize()
}

// SHA-256 of what was hashed and the three texts, one after another.
fn digest_after_three(hashed: &Sha256, first: &[u8], second: &[u8], third: &[u8]) -> [u8; 32]
    ensures { (before : List ℕ) → ∥ Holds256 hashed.now before ∥₁
        → result ≡ sha256 (before ++ (first.now ++ (second.now ++ third.now))) }
{
    let mut hasher = hashed.clone().unwrap();
    hasher.update(first);
    hasher.update(second);
    hasher.update(third);
    hasher.finalize()
}

// The block that a key makes.
fn block_of(key: &[u8]) -> [u8; 64]
    ensures { result ≡ key_block key.now }
{
    if key.len() > 64 {
        let hashed = Sha256::digest(key);
        return padded_with_zeros(&hashed);
    }
    padded_with_zeros(key)
}

// The bytes, filled up with zero bytes.
fn padded_with_zeros(bytes: &[u8]) -> [u8; 64]
    requires { length bytes.now ≤ 64 }
    ensures { result ≡ padded_block bytes.now }
{
    let mut block = [0; 64];
    let (front, _) = block.split_at_mut(bytes.len());
    front.copy_from_slice(bytes);
    block
}

// The block with each byte xored with the pad.
fn masked_by(pad: u8, block: &[u8; 64]) -> [u8; 64]
    ensures { result ≡ masked_block pad block.now }
{
    let mut out = [0; 64];
    'bytes: for (i, byte) in block.iter().enumerate() {
        out[i] = *byte ^ pad;
    }
    out
}
