//! A sink for a player that writes nothing.

ghost use Rattle.std.specs.Prelude.{None};

use mm_base::Sink;
use mm_bytes::Failed;

/// A sink that takes every byte and keeps none.
#[derive(Drop)]
pub(crate) struct NullSink {}

impl Sink for NullSink {
    ghost received = { λ _. None };

    ghost faults = { λ _. 0 };

    fn give(&mut self, piece: &[u8]) -> Result<usize, Failed> {
        Ok(piece.len())
    }
}
