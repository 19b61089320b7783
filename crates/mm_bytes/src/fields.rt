//! Numbers of 4 and of 8 bytes, the highest byte first.

ghost use Rattle.std.specs.Prelude.{◌≡◌, ◌<◌, ◌^◌, ◌++◌, length, MatchOption};
ghost use Rattle.mm_bytes.specs.Limits.{eight_bytes, four_bytes};

/// The number in the 8 bytes in front, and the rest. None exactly where there are fewer bytes.
pub fn split_u64(bytes: &[u8]) -> Option<(u64, &[u8])>
    ensures { MatchOption result (length bytes.now < 8)
        (λ p. (bytes.now ≡ eight_bytes p.0 ++ p.1.now) × (p.0 < 2 ^ 64)) }
{
    let (front, rest) = bytes.split_first_chunk::<8>()?;
    Some((u64::from_be_bytes(*front), rest))
}

/// The number in the 4 bytes in front, and the rest. None exactly where there are fewer bytes.
pub fn split_u32(bytes: &[u8]) -> Option<(u32, &[u8])>
    ensures { MatchOption result (length bytes.now < 4)
        (λ p. (bytes.now ≡ four_bytes p.0 ++ p.1.now) × (p.0 < 2 ^ 32)) }
{
    let (front, rest) = bytes.split_first_chunk::<4>()?;
    Some((u32::from_be_bytes(*front), rest))
}

/// The number in 8 bytes.
#[tactic(auto, unfolding(crate::specs::Limits::eight_bytes))]
pub fn bytes_of_u64(n: u64) -> [u8; 8]
    ensures { result ≡ eight_bytes n }
{
    n.to_be_bytes()
}

/// The number in 4 bytes.
#[tactic(auto, unfolding(crate::specs::Limits::four_bytes))]
pub fn bytes_of_u32(n: u32) -> [u8; 4]
    ensures { result ≡ four_bytes n }
{
    n.to_be_bytes()
}
