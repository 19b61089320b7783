//! Our own devices, killed at any call of what they stand on.
#![tactic(auto)]

ghost use Rattle.mm_killed_devices.specs.Devices.{CellCyclesStop, CellStepsStop, KillsReachCalls, PageReadsStop, PageWritesStop};

/// The two cells and the store of pages, killed at a call of their memory or of their device, leave
/// what a call of theirs may leave that is killed: so a kill at a write of raw bytes, which tears,
/// is one at a device call.
pub fn devices_stop()
    ensures steps { CellStepsStop }
    ensures cycles { CellCyclesStop }
    ensures reads { PageReadsStop }
    ensures writes { PageWritesStop }
    ensures reach { KillsReachCalls }
{}
