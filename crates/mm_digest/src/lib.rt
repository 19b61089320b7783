//! The digests of Memoir: SHA-256 (FIPS 180-4) of messages whose first byte tells what they are
//! for, and HMAC-SHA-256 (RFC 2104), which seals snapshots.
#![tactic(auto)]

mod digest;
mod hmac;
mod variant;

pub use digest::{
    Digest, anchored, extended, secured, secured_batch, start, successor, successor_batch, zero,
};
pub use hmac::{HmacKey, hmac_sha256};
pub use variant::Variant;
