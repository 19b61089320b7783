//! The command `power`: the platform loses its power, and gets it back.

ghost use Rattle.mm_host_commands.specs.Outside.{Outside, with_platform, LosesPower};

use mm_base::Sink;
use mm_platform::Platform;
use mm_status::{Status, stopped, written};

/// Lets the platform lose its power and get it back.
pub fn lose_power<P: Platform, K: Sink>(platform: &mut P, out: &mut K) -> Status
    // Whatever the other objects tell (`it`).
    ensures { (it : Outside) → LosesPower
        (with_platform it (P.standing platform.old) (K.received out.old) (K.faults out.old))
        (with_platform it (P.standing platform.new) (K.received out.new) (K.faults out.new))
        result }
{
    match platform.cycle() {
        Ok(()) => written(b"power\n", out),
        Err(_) => stopped(Status::PlatformFault, out),
    }
}
