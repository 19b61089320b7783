//! Why a call was refused.

ghost use Rattle.std.specs.Prelude.{◌≡◌};

use mm_bytes::Memory;
use mm_platform::StepFault;
use thiserror::Error;

/// Why a call was refused, in the order in which a call looks for it, but for Device and Memory.
#[derive(Clone, Copy, Debug, PartialEq, Eq, Error)]
pub enum Refusal {
    /// Want of memory, before anything was changed.
    #[error("out of memory")]
    Memory,
    /// The text of the batch has more than 4,096 bytes or an LF, or there are more than 64
    /// requests.
    #[error("the request is too long")]
    Long,
    /// A step of the platform failed.
    #[error("a step of the platform failed")]
    Device(StepFault),
    /// The cell is blank: 104 zero bytes.
    #[error("the cell is blank")]
    Blank,
    /// The cell isn't one of this variant and module.
    #[error("the cell isn't one of this module")]
    Cell,
    /// Power was lost inside an open segment.
    #[error("power was lost inside an open segment")]
    Lost,
    /// The offered bytes aren't a snapshot.
    #[error("the offer isn't a snapshot")]
    Form,
    /// The offered snapshot is of another variant or module.
    #[error("the snapshot is of another variant or module")]
    Kind,
    /// The offered state isn't one of the module's.
    #[error("the snapshot's state isn't one of the module's")]
    State,
    /// The offered snapshot isn't sealed under the cell's key.
    #[error("the snapshot isn't sealed under the platform's key")]
    Tag,
    /// The offered snapshot is neither the newest nor the one before a repeated batch.
    #[error("the snapshot is stale")]
    Stale,
    /// The position after the batch would exceed 2^48.
    #[error("there are no positions left")]
    Full,
}

impl From<Memory> for Refusal {
    ghost use Rattle.mm_model.specs.declared.refusal.Refusal.TheVariants.{Memory};

    ghost from_gives = { λ _ refusal. refusal ≡ Memory };

    fn from(_memory: Memory) -> Refusal {
        Refusal::Memory
    }
}

impl From<StepFault> for Refusal {
    ghost use Rattle.mm_model.specs.declared.refusal.Refusal.TheVariants.{Device};

    ghost from_gives = { λ fault refusal. refusal ≡ Device fault };

    fn from(fault: StepFault) -> Refusal {
        Refusal::Device(fault)
    }
}

impl Refusal {
    ghost use Rattle.mm_model.specs.Messages.{code_of};

    /// The refusal's number, from 1 to 12.
    pub fn code(&self) -> u8
        ensures { result ≡ code_of self.now }
    {
        match self {
            Refusal::Memory => 1,
            Refusal::Long => 2,
            Refusal::Device(_) => 3,
            Refusal::Blank => 4,
            Refusal::Cell => 5,
            Refusal::Lost => 6,
            Refusal::Form => 7,
            Refusal::Kind => 8,
            Refusal::State => 9,
            Refusal::Tag => 10,
            Refusal::Stale => 11,
            Refusal::Full => 12,
        }
    }
}
