//! The key and the barrier of each world in memory.

ghost use Rattle.std.specs.Prelude.{◌≡◌, ◌≤◌};
ghost use Rattle.mm_outcome.specs.OneRun.{rising_bytes_from, world_key, world_barrier};

/// The key: the bytes 00 to 1f.
#[tactic(auto, unfolding(crate::specs::OneRun::rising_bytes_from))]
pub fn world_key() -> [u8; 32]
    ensures { result ≡ world_key }
{
    [
        0, 1, 2, 3, 4, 5, 6, 7, 8, 9, 10, 11, 12, 13, 14, 15, 16, 17, 18, 19, 20, 21, 22, 23, 24,
        25, 26, 27, 28, 29, 30, 31,
    ]
}

/// The barrier: the bytes 20 to 3f.
#[tactic(auto, unfolding(crate::specs::OneRun::rising_bytes_from))]
pub fn world_barrier() -> [u8; 32]
    ensures { result ≡ world_barrier }
{
    [
        32, 33, 34, 35, 36, 37, 38, 39, 40, 41, 42, 43, 44, 45, 46, 47, 48, 49, 50, 51, 52, 53, 54,
        55, 56, 57, 58, 59, 60, 61, 62, 63,
    ]
}

/// 32 bytes in rising order, from this one on.
pub fn rising(first: u8) -> [u8; 32]
    requires { first ≤ 224 }
    ensures { result ≡ rising_bytes_from first }
{
    let mut bytes = [first; 32];
    for place in 0..32 {
        bytes[place] = first + place as u8;
    }
    bytes
}
