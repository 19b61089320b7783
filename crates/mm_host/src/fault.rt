//! How a session ends before its input does.

ghost use Rattle.std.specs.Prelude.{◌≡◌};
ghost use Rattle.mm_recovery.specs.declared.fault.HostFault.TheVariants.{Memory as memory};
ghost use Rattle.mm_host.specs.declared.fault.SessionFault.TheVariants as session;

use mm_base::ReplayFault;
use mm_bytes::Memory;
use mm_recovery::HostFault;
use thiserror::Error;

/// Why a session ended before its input did. Lines are numbered from 1.
#[derive(Clone, Copy, Debug, PartialEq, Eq, Error)]
pub enum SessionFault {
    /// The host can't go on. Want of memory is told so, before the first line too.
    #[error(transparent)]
    Host(HostFault),
    /// The input or the output failed; or a line has more than 4,096 bytes, or no LF, or is behind
    /// 1,000,000 others.
    #[error(transparent)]
    Lines(ReplayFault),
}

impl From<Memory> for SessionFault {
    ghost from_gives = { λ _ fault. fault ≡ session.Host memory };

    fn from(_memory: Memory) -> SessionFault {
        SessionFault::Host(HostFault::Memory)
    }
}
