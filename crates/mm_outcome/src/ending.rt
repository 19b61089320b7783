//! How a reply names the end of a call.

ghost use Rattle.std.specs.Prelude.{◌≡◌};
ghost use Rattle.mm_outcome.specs.Premises.{way_of, cause_of};

use mm_model::Refusal;
use mm_platform::Stop;
use mm_schedule::{Cause, Way};

/// How a call that is stopped so is broken off.
pub fn way(stop: Stop) -> Way
    ensures { result ≡ way_of stop }
{
    match stop {
        Stop::Cut(_) => Way::Cut,
        Stop::Drop(_) => Way::Drop,
        Stop::Quiet | Stop::Fail { .. } => Way::Fault,
    }
}

/// The cause that a reply names. A planned call is never refused for want of memory, nor as Device;
/// such a refusal would be named as a long request is.
pub fn cause(refusal: Refusal) -> Cause
    ensures { result ≡ cause_of refusal }
{
    match refusal {
        Refusal::Lost => Cause::Lost,
        Refusal::Form => Cause::Form,
        Refusal::Kind => Cause::Kind,
        Refusal::State => Cause::State,
        Refusal::Tag => Cause::Tag,
        Refusal::Stale => Cause::Stale,
        Refusal::Full => Cause::Full,
        Refusal::Blank => Cause::Blank,
        Refusal::Cell => Cause::Cell,
        Refusal::Memory | Refusal::Long | Refusal::Device(_) => Cause::Long,
    }
}
