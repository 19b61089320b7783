//! How a store fails.

ghost use Rattle.std.specs.Prelude.{◌≡◌};
ghost use Rattle.mm_store.specs.declared.fault.StoreFault.TheVariants.{Memory as wanting};

use mm_bytes::Memory;
use thiserror::Error;

/// A call of a store failed.
#[derive(Clone, Copy, Debug, PartialEq, Eq, Error)]
pub enum StoreFault {
    /// Memory was wanting. No slot has changed.
    #[error("out of memory")]
    Memory,
    /// The store failed, and raised its count of faults.
    #[error("the store failed")]
    Failed,
}

impl From<Memory> for StoreFault {
    ghost from_gives = { λ _ fault. fault ≡ wanting };

    fn from(_memory: Memory) -> StoreFault {
        StoreFault::Memory
    }
}
