//! How a first start fails.

ghost use Rattle.std.specs.Prelude.{◌≡◌};
ghost use Rattle.mm_recovery.specs.FirstStart.{init_fault_as};
ghost use Rattle.mm_recovery.specs.declared.init_fault.InitFault.TheVariants as init_fault;

use mm_bytes::{Failed, Memory};
use mm_platform::StepFault;
use mm_store::StoreFault;
use thiserror::Error;

/// Why a platform and a store were not set up.
#[derive(Clone, Copy, Debug, PartialEq, Eq, Error)]
pub enum InitFault {
    /// Memory was wanting.
    #[error("out of memory")]
    Memory,
    /// A step of the platform failed.
    #[error("the platform failed")]
    Platform(StepFault),
    /// The cell is not blank: the platform is in use.
    #[error("the cell is not blank")]
    Already,
    /// The source of entropy failed.
    #[error("the source of entropy failed")]
    ReadFault,
    /// The source of entropy ended after `got` bytes, fewer than 64.
    #[error("the source of entropy has too few bytes")]
    Short { got: u8 },
    /// The store failed.
    #[error("the store failed")]
    Store,
}

impl From<StepFault> for InitFault {
    ghost from_gives = { λ fault init. init ≡ init_fault.Platform fault };

    fn from(fault: StepFault) -> InitFault {
        InitFault::Platform(fault)
    }
}

impl From<Failed> for InitFault {
    ghost from_gives = { λ fault init. init ≡ init_fault.ReadFault };

    fn from(_fault: Failed) -> InitFault {
        InitFault::ReadFault
    }
}

impl From<Memory> for InitFault {
    ghost from_gives = { λ fault init. init ≡ init_fault.Memory };

    fn from(_fault: Memory) -> InitFault {
        InitFault::Memory
    }
}

impl From<StoreFault> for InitFault {
    ghost from_gives = { λ fault init. init ≡ init_fault_as fault };

    fn from(fault: StoreFault) -> InitFault {
        match fault {
            StoreFault::Memory => InitFault::Memory,
            StoreFault::Failed => InitFault::Store,
        }
    }
}
