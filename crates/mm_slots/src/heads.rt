//! The header lines of slots that are read.

ghost use Rattle.std.specs.Prelude.{◌≤◌, ◌<◌, length};

use mm_schedule::Header;

/// The number of slots, and the headers read so far, which are fewer.
#[derive(Drop)]
pub struct Heads {
    pub count: u8,
    pub headers: Vec<Header>,
    ghost fewer: { length headers.items < count },
    ghost most: { count ≤ 16 },
}
