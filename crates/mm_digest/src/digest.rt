//! The digests of a platform's history, each SHA-256 of one message.

ghost use Rattle.std.specs.Prelude.{◌≡◌, ◌<◌, [], ◌∷◌, ◌++◌, length};
ghost use Rattle.sha2.specs.Sha256.{sha256};
ghost use Rattle.mm_digest.specs.Messages.{zero_bytes, start_digest_of, anchored_digest_of, extended_digest_of, successor_digest_of};
ghost use Rattle.mm_digest.specs.Messages.{secured_digest_of, successor_batch_digest_of, secured_batch_digest_of};

use crate::variant::Variant;
use sha2::{Digest as _, Sha256};

/// 32 bytes: a SHA-256 digest, or the zero that stands for "nothing yet".
#[derive(Clone, Copy, PartialEq, Eq)]
pub struct Digest {
    pub bytes: [u8; 32],
}

/// The zero digest: 32 zero bytes, the value of a register that nothing has extended.
#[tactic(auto, unfolding(crate::specs::Messages::zero_bytes))]
pub fn zero() -> Digest
    ensures { result.bytes ≡ zero_bytes }
{
    Digest { bytes: [0; 32] }
}

/// What a platform of this variant and module starts from: SHA-256 of byte 00, the variant's byte
/// and the module's id (3 bytes in all).
#[tactic(auto, unfolding(crate::specs::Messages::start_digest_of))]
pub fn start(variant: Variant, id: u8) -> Digest
    ensures { result.bytes ≡ start_digest_of variant id }
{
    Digest {
        bytes: Sha256::digest(&[0, variant.byte(), id]),
    }
}

/// The summary after one more request: SHA-256 of byte 01, the summary and the request.
#[tactic(auto, unfolding(crate::specs::Messages::successor_digest_of))]
pub fn successor(summary: &Digest, request: &[u8]) -> Digest
    ensures { result.bytes ≡ successor_digest_of summary.now.bytes request.now }
{
    tagged(1, &summary.bytes, request)
}

/// The register's value for one request: SHA-256 of byte 02, the barrier and the request.
#[tactic(auto, unfolding(crate::specs::Messages::secured_digest_of))]
pub fn secured(barrier: &[u8; 32], request: &[u8]) -> Digest
    ensures { result.bytes ≡ secured_digest_of barrier.now request.now }
{
    tagged(2, barrier, request)
}

/// The anchor after one more segment: SHA-256 of byte 03, the anchor and the register's value
/// (65 bytes).
#[tactic(auto, unfolding(crate::specs::Messages::anchored_digest_of))]
pub fn anchored(anchor: &Digest, register: &Digest) -> Digest
    ensures { result.bytes ≡ anchored_digest_of anchor.now.bytes register.now.bytes }
{
    tagged(3, &anchor.bytes, &register.bytes)
}

/// The summary after a batch of several requests: SHA-256 of byte 04, the summary and the batch's
/// text, which is its requests joined by TAB.
#[tactic(auto, unfolding(crate::specs::Messages::successor_batch_digest_of))]
pub fn successor_batch(summary: &Digest, text: &[u8]) -> Digest
    ensures { result.bytes ≡ successor_batch_digest_of summary.now.bytes text.now }
{
    tagged(4, &summary.bytes, text)
}

/// The register's value for a batch of several requests: SHA-256 of byte 05, the barrier and the
/// batch's text, which is its requests joined by TAB.
#[tactic(auto, unfolding(crate::specs::Messages::secured_batch_digest_of))]
pub fn secured_batch(barrier: &[u8; 32], text: &[u8]) -> Digest
    ensures { result.bytes ≡ secured_batch_digest_of barrier.now text.now }
{
    tagged(5, barrier, text)
}

/// What a register holds after it took in a value: SHA-256 of its old value and that value
/// (64 bytes).
#[tactic(auto, unfolding(crate::specs::Messages::extended_digest_of))]
pub fn extended(old: &Digest, value: &Digest) -> Digest
    ensures { result.bytes ≡ extended_digest_of old.now.bytes value.now.bytes }
{
    Digest {
        bytes: Sha256::digest(&joined(&old.bytes, &value.bytes)),
    }
}

// The bytes of both, one behind the other: a whole block.
fn joined(first: &[u8; 32], second: &[u8; 32]) -> [u8; 64]
    ensures { result ≡ first.now ++ second.now }
{
    let mut block = [0; 64];
    let (front, back) = block.split_at_mut(32);
    front.copy_from_slice(first);
    back.copy_from_slice(second);
    block
}

// SHA-256 of the tag, the 32 bytes and the rest.
fn tagged(tag: u8, fixed: &[u8; 32], rest: &[u8]) -> Digest
    ensures { result.bytes ≡ sha256 (tag ∷ (fixed.now ++ rest.now)) }
{
    if rest.len() < 32 {
        return tagged_in_block(tag, fixed, rest);
    }
    let mut hasher = Sha256::new();
    hasher.update(&front_of(tag, fixed));
    hasher.update(rest);
    Digest {
        bytes: hasher.finalize(),
    }
}

// The same of a rest that fits into a block with them, which is hashed at once.
fn tagged_in_block(tag: u8, fixed: &[u8; 32], rest: &[u8]) -> Digest
    requires { length rest.now < 32 }
    ensures { result.bytes ≡ sha256 (tag ∷ (fixed.now ++ rest.now)) }
{
    let mut block = [tag; 64];
    let (_, behind) = block.split_at_mut(1);
    let (middle, behind) = behind.split_at_mut(32);
    middle.copy_from_slice(fixed);
    let (text, _) = behind.split_at_mut(rest.len());
    text.copy_from_slice(rest);
    Digest {
        bytes: Sha256::digest(&block[..33 + rest.len()]),
    }
}

// The tag and the 32 bytes.
fn front_of(tag: u8, fixed: &[u8; 32]) -> [u8; 33]
    ensures { result ≡ tag ∷ fixed.now }
{
    let mut front = [tag; 33];
    let (_, behind) = front.split_at_mut(1);
    behind.copy_from_slice(fixed);
    front
}
