//! What a host puts into its store when a module arrives.

ghost use Rattle.std.specs.Prelude.{◌<◌, ◌≤◌, IfOk, length};
ghost use Rattle.mm_base.specs.Input.{IsLineFront};
ghost use Rattle.mm_bytes.specs.Limits.{last_position, longest_request};
ghost use Rattle.mm_store.specs.declared.store.TheConstants.{LONGEST_SLOT};
ghost use Rattle.mm_recovery.specs.FirstStart.{PutsAll};
ghost use Rattle.mm_honest_worlds.specs.Arrivals.{EmptiesRecords, EmptyingGoes, PutsArrival, PuttingGoes, arrival_puts};

use mm_move::Accepted;
use mm_store::{Store, StoreFault, pending_bytes};
use std::alloc::Global;

/// Empties slots 2 and 3, which may have records of an earlier stay, before a ticket is accepted.
/// Slots 0 and 1 stay.
pub fn empty_records<T: Store>(store: &mut T) -> Result<(), StoreFault>
    ensures goes { EmptyingGoes (T.kept store.old) (T.kept store.new) result }
    ensures empties { IfOk result (λ it. EmptiesRecords (T.kept store.old) (T.kept store.new)) }
{
    store.write(2, &[])?;
    store.write(3, &[])
}

/// Puts what belongs to an acceptance into a store without records: its snapshot into the slot of
/// its position mod 2, and the record of the next request, which a session tells first. The other
/// slots stay. After want of memory the record isn't there, and the snapshot may be.
pub fn put_arrival<T: Store>(
    alloc: Global,
    store: &mut T,
    accepted: &Accepted,
    request: &[u8],
) -> Result<(), StoreFault>
    requires room { accepted.now.position < last_position }
    requires short { length accepted.now.snapshot ≤ LONGEST_SLOT }
    requires line { IsLineFront longest_request request.now }
    ensures goes { PuttingGoes accepted.now request.now (T.kept store.old) (T.kept store.new)
        result }
    ensures puts { IfOk result
        (λ it. PutsArrival accepted.now (T.kept store.old) (T.kept store.new)) }
{
    put_arrival_inner(alloc, store, accepted, request)
}

fn put_arrival_inner<T: Store>(
    alloc: Global,
    store: &mut T,
    accepted: &Accepted,
    request: &[u8],
) -> Result<(), StoreFault>
    requires room { accepted.now.position < last_position }
    requires short { length accepted.now.snapshot ≤ LONGEST_SLOT }
    requires line { IsLineFront longest_request request.now }
    ensures { PutsAll (arrival_puts accepted.now request.now) (T.kept store.old)
        (T.kept store.new) result }
{
    let record = pending_bytes(alloc, accepted.position + 1, request)?;
    store.write((accepted.position % 2) as u8, accepted.snapshot.as_slice())?;
    store.write((2 + (accepted.position + 1) % 2) as u8, record.as_slice())
}
