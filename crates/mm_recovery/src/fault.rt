//! How the host program's calls fail.

ghost use Rattle.std.specs.Prelude.{◌≡◌};
ghost use Rattle.mm_recovery.specs.CellWrites.{refusal_fault, store_fault_as};

use mm_model::Refusal;
use mm_store::StoreFault;
use thiserror::Error;

/// Why the host program can't go on.
#[derive(Clone, Copy, Debug, PartialEq, Eq, Error)]
pub enum HostFault {
    /// Memory was wanting, in the store or in a call too.
    #[error("out of memory")]
    Memory,
    /// The store failed.
    #[error("the store failed")]
    Store,
    /// The call was refused: never as Memory or Long.
    #[error("the call was refused")]
    Refused(Refusal),
}

impl From<StoreFault> for HostFault {
    ghost from_gives = { λ fault host. host ≡ store_fault_as fault };

    fn from(fault: StoreFault) -> HostFault {
        match fault {
            StoreFault::Memory => HostFault::Memory,
            StoreFault::Failed => HostFault::Store,
        }
    }
}

impl From<Refusal> for HostFault {
    ghost from_gives = { λ refusal host. host ≡ refusal_fault refusal };

    fn from(refusal: Refusal) -> HostFault {
        match refusal {
            Refusal::Memory => HostFault::Memory,
            _ => HostFault::Refused(refusal),
        }
    }
}
