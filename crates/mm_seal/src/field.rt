//! Fields of fixed length at the front of a byte list.

ghost use Rattle.std.specs.Prelude.{◌≡◌, ◌+◌, ◌<◌, ◌≤◌, ◌++◌, length, MatchOption};
ghost use Rattle.mm_seal.specs.Cell.{version_of};
ghost use Rattle.mm_seal.specs.Parts.{digest_at};

use mm_digest::{Digest, zero};

// The version of a module's cells and snapshots.
pub fn version(id: u8) -> u8
    ensures { result ≡ version_of id }
{
    if id < 128 { b'1' } else { b'2' }
}

// The 32 bytes from `at` on, as a digest.
pub fn digest_at(bytes: &[u8], at: usize) -> Digest
    requires { at + 32 ≤ length bytes.now }
    ensures { result ≡ digest_at at bytes.now }
{
    let mut digest = zero();
    let (_, behind) = bytes.split_at(at);
    let (field, _) = behind.split_at(32);
    digest.bytes.copy_from_slice(field);
    digest
}

/// The digest in the 32 bytes in front, and the rest. None exactly where there are fewer bytes.
pub fn split_digest(bytes: &[u8]) -> Option<(Digest, &[u8])>
    ensures { MatchOption result (length bytes.now < 32)
        (λ p. (bytes.now ≡ p.0.bytes ++ p.1.now) × (length p.0.bytes ≡ 32)) }
{
    let (front, rest) = bytes.split_first_chunk::<32>()?;
    Some((Digest { bytes: *front }, rest))
}
