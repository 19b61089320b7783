//! Why a line gave no event.

use mm_bytes::Memory;
use thiserror::Error;

/// Why a line gave no event.
#[derive(Clone, Copy, Debug, Error)]
pub enum EventFault {
    /// Want of memory.
    #[error("out of memory")]
    Memory,
    /// The line is outside the grammar.
    #[error("the line is no event")]
    Bad,
}

impl From<Memory> for EventFault {
    ghost use Rattle.std.specs.Prelude.{◌≡◌};
    ghost use Rattle.mm_schedule.specs.declared.fault.EventFault.TheVariants.{Memory};

    ghost from_gives = { λ _ fault. fault ≡ Memory };

    fn from(_fault: Memory) -> EventFault {
        EventFault::Memory
    }
}
