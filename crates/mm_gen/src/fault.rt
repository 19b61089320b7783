//! Why a schedule was not run to its end.

ghost use Rattle.std.specs.Prelude.{◌≡◌};
ghost use Rattle.mm_gen.specs.declared.fault.BulkFault.TheVariants.{Memory as memory};

use mm_bytes::Memory;
use thiserror::Error;

/// Why a schedule was not run to its end.
#[derive(Clone, Copy, Debug, Error)]
pub enum BulkFault {
    /// Want of memory.
    #[error("out of memory")]
    Memory,
    /// The event lines and the snapshots issued have too many bytes.
    #[error("too many bytes are kept")]
    TooMuch,
}

impl From<Memory> for BulkFault {
    ghost from_gives = { λ _ fault. fault ≡ memory };

    fn from(_fault: Memory) -> BulkFault {
        BulkFault::Memory
    }
}
