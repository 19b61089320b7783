//! Asking the next request, with its records in the store.

ghost use Rattle.std.specs.Prelude.{◌≡◌, ◌+◌, ◌≤◌, ◌%◌, IfOk};
ghost use Rattle.mm_base.specs.Input.{IsLineFront};
ghost use Rattle.mm_bytes.specs.Limits.{last_position, longest_request};
ghost use Rattle.mm_store.specs.StoreStanding.{WritesSlot};
ghost use Rattle.mm_store.specs.PendingRecord.{pending_spelling};
ghost use Rattle.mm_recovery.specs.HostStanding.{BlamesHostFault, IsNamed, host_standing, IsSized, AsksNextRequest};
ghost use Rattle.mm_recovery.specs.CellWrites.{RequestWrites};

use crate::fault::HostFault;
use crate::resuming::{Resumed, ask_and_keep};
use mm_ask::Caller;
use mm_module::Module;
use mm_platform::Platform;
use mm_store::{Store, StoreFault, pending_bytes};
use std::alloc::Global;

/// Asks for one more request, from where the last answer (or the start) stands.
///
/// The request has at most 4,096 bytes, and no LF. Where the last answer has position p (0 at the
/// start), the record of position p + 1 is written to slot 2 + (p + 1) mod 2; the request is asked
/// with the last snapshot; and the answer's snapshot is written to the slot of its position's
/// parity. After a stop in between `resume` asks for it again.
pub fn ask_next<M: Module, P: Platform, T: Store>(
    caller: &Caller<M>,
    platform: &mut P,
    store: &mut T,
    last: &Resumed,
    request: &[u8],
) -> Result<Resumed, HostFault>
    requires sized { IsSized last.now }
    requires line { IsLineFront longest_request request.now }
    ensures asks { AsksNextRequest caller.now.variant (M.meaning caller.now.«module».now)
        (host_standing (P.standing platform.old) (T.kept store.old))
        (host_standing (P.standing platform.new) (T.kept store.new))
        last.now request.now result }
    ensures faults { BlamesHostFault result
        (host_standing (P.standing platform.old) (T.kept store.old))
        (host_standing (P.standing platform.new) (T.kept store.new)) }
    ensures named { IsNamed result }
    ensures sized { IfOk result IsSized }
    ensures writes { RequestWrites caller.now.variant (P.standing platform.old)
        (P.standing platform.new) result }
{
    ask_next_inner(caller, platform, store, last, request)
}

// Writes the record of a request, asks for it, and keeps the answer's snapshot.
#[tactic(auto, using(crate::proofs::BatchMeeting::askable))]
fn ask_next_inner<M: Module, P: Platform, T: Store>(
    caller: &Caller<M>,
    platform: &mut P,
    store: &mut T,
    last: &Resumed,
    request: &[u8],
) -> Result<Resumed, HostFault>
    requires sized { IsSized last.now }
    requires line { IsLineFront longest_request request.now }
    ensures asks { AsksNextRequest caller.now.variant (M.meaning caller.now.«module».now)
        (host_standing (P.standing platform.old) (T.kept store.old))
        (host_standing (P.standing platform.new) (T.kept store.new))
        last.now request.now result }
    ensures sized { IfOk result IsSized }
{
    match write_record(caller.alloc, store, last.position() + 1, request) {
        Err(fault) => Err(HostFault::from(fault)),
        Ok(()) => ask_and_keep(caller, platform, store, last.snapshot(), request),
    }
}

// Writes the record of a request that is to take this position.
fn write_record<T: Store>(
    alloc: Global,
    store: &mut T,
    position: u64,
    request: &[u8],
) -> Result<(), StoreFault>
    requires least { 1 ≤ position }
    requires most { position ≤ last_position + 1 }
    requires line { IsLineFront longest_request request.now }
    ensures { WritesSlot (2 + position % 2)
        (pending_spelling (record { position = position; request = request.now }))
        (T.kept store.old) (T.kept store.new) result }
{
    let bytes = pending_bytes(alloc, position, request)?;
    store.write((2 + position % 2) as u8, bytes.as_slice())
}
