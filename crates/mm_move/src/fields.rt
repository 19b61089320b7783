//! Fields at fixed offsets.

ghost use Rattle.std.specs.Prelude.{◌≡◌, ◌+◌, ◌≤◌, length};
ghost use Rattle.mm_move.specs.Cells.{part, variant_in, number_at};

use mm_digest::Variant;

// The 32 bytes at this offset.
pub fn part(bytes: &[u8], at: usize) -> [u8; 32]
    requires { at + 32 ≤ length bytes.now }
    ensures { result ≡ part at bytes.now }
{
    let mut part = [0; 32];
    part.copy_from_slice(&bytes[at..at + 32]);
    part
}

// The number in the 8 bytes at this offset.
pub fn number_at(bytes: &[u8], at: usize) -> u64
    requires { at + 8 ≤ length bytes.now }
    ensures { result ≡ number_at at bytes.now }
{
    let mut eight = [0; 8];
    eight.copy_from_slice(&bytes[at..at + 8]);
    u64::from_be_bytes(eight)
}

// The variant that the bytes may name.
pub fn variant_in(bytes: &[u8]) -> Variant
    requires { 5 ≤ length bytes.now }
    ensures { result ≡ variant_in bytes.now }
{
    if bytes[4] == 2 {
        Variant::Opt
    } else {
        Variant::Basic
    }
}
