//! Parts of seats.

ghost use Rattle.std.specs.Prelude.{◌≡◌};
ghost use Rattle.mm_world.specs.Lengths.{length_if};

use mm_bytes::Bytes;

/// How many bytes there are, if any.
pub fn length_if(bytes: &Option<Bytes>) -> u64
    ensures { result ≡ length_if bytes.now }
{
    match bytes {
        Some(bytes) => bytes.as_slice().len() as u64,
        None => 0,
    }
}
