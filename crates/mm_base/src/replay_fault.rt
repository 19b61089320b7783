//! Why a command that reads lines and answers each stopped.

ghost use Rattle.std.specs.Prelude.{◌≡◌};
ghost use Rattle.mm_base.specs.declared.replay_fault.ReplayFault.TheVariants.{Memory as memory, WriteFault as write_fault};

use mm_bytes::{Memory, WriteFault};
use thiserror::Error;

/// Why a command that reads lines and answers each stopped. Lines are numbered from 1.
#[derive(Clone, Copy, Debug, PartialEq, Eq, Error)]
pub enum ReplayFault {
    /// Want of memory.
    #[error("out of memory")]
    Memory,
    /// The input failed.
    #[error("the input failed")]
    ReadFault,
    /// The output failed.
    #[error("the output failed")]
    WriteFault,
    /// The line is outside the grammar, has no LF, or is missing.
    #[error("line {line} is no line of this input")]
    BadLine { line: u32 },
    /// The line has too many bytes.
    #[error("line {line} is too long")]
    LineLong { line: u32 },
    /// The events or the bytes kept are too many.
    #[error("the input is too large")]
    TooMuch,
}

impl From<Memory> for ReplayFault {
    ghost from_gives = { λ _ fault. fault ≡ memory };

    fn from(_fault: Memory) -> ReplayFault {
        ReplayFault::Memory
    }
}

impl From<WriteFault> for ReplayFault {
    ghost from_gives = { λ _ fault. fault ≡ write_fault };

    fn from(_fault: WriteFault) -> ReplayFault {
        ReplayFault::WriteFault
    }
}
