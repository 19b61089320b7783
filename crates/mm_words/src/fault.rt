//! Why words gave no command.

use mm_bytes::Memory;
use thiserror::Error;

/// Why words gave no command.
#[derive(Clone, Copy, Debug, Error)]
pub enum WordsFault {
    /// Want of memory.
    #[error("out of memory")]
    Memory,
    /// The words spell no command.
    #[error("the words are no command")]
    Usage,
}

impl From<Memory> for WordsFault {
    ghost use Rattle.std.specs.Prelude.{◌≡◌};
    ghost use Rattle.mm_words.specs.declared.fault.WordsFault.TheVariants.{Memory};

    ghost from_gives = { λ _ fault. fault ≡ Memory };

    fn from(_fault: Memory) -> WordsFault {
        WordsFault::Memory
    }
}
