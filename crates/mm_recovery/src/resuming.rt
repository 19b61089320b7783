//! Going on after a stop.

ghost use Rattle.std.specs.Prelude.{◌≡◌, ◌≤◌, IfOk, false, length};
ghost use Rattle.mm_module.specs.Batch.{One};
ghost use Rattle.mm_model.specs.Moves.{is_long};
ghost use Rattle.mm_store.specs.declared.store.TheConstants.{LONGEST_SLOT};
ghost use Rattle.mm_recovery.specs.HostStanding.{IsAskable, BlamesHostFault, IsNamed, StartsFromSlot, RepeatsPendingRecord};
ghost use Rattle.mm_recovery.specs.HostStanding.{AsksAndKeepsAnswer, KeepsAnswer, HostResumes, host_standing, IsSized};
ghost use Rattle.mm_recovery.specs.Recovery.{HostRecovers};
ghost use Rattle.mm_recovery.specs.CellWrites.{RequestWrites};

use crate::asking::ask;
use crate::fault::HostFault;
use crate::waiting::{WaitingRequest, find_waiting};
use mm_ask::Caller;
use mm_bytes::Bytes;
use mm_digest::Variant;
use mm_model::Answer;
use mm_module::Module;
use mm_platform::Platform;
use mm_store::Store;
use std::alloc::Global;

/// Where a session stands: how it begins, or what it came to last.
#[derive(Drop)]
pub enum Resumed {
    /// No request waits: the first snapshot, as slot 0 has it.
    Start(Bytes),
    /// The answer to the last request, which is at first the one that waited.
    Answered(Answer),
}

impl Resumed {
    ghost use Rattle.mm_recovery.specs.HostStanding.{position_at, snapshot_at};

    /// The position of the last answer, and 0 at the start.
    pub fn position(&self) -> u64
        ensures { result ≡ position_at self.now }
    {
        match self {
            Resumed::Start(_) => 0,
            Resumed::Answered(answer) => answer.position,
        }
    }

    /// The newest snapshot.
    pub fn snapshot(&self) -> &[u8]
        ensures { result.now ≡ snapshot_at self.now }
    {
        match self {
            Resumed::Start(first) => first.as_slice(),
            Resumed::Answered(answer) => answer.snapshot.as_slice(),
        }
    }
}

/// Goes on after a stop. Slots 2 and 3 are read. Where no record in them is valid, it gives the
/// bytes of slot 0, and asks nothing. Otherwise the request of the later record, which is to take
/// position P, is asked with the snapshot in slot (P - 1) mod 2, and the answer's snapshot is
/// written to the slot of its position's parity.
pub fn resume<M: Module, P: Platform, T: Store>(
    alloc: Global,
    variant: Variant,
    module: &M,
    platform: &mut P,
    store: &mut T,
) -> Result<Resumed, HostFault>
    ensures resumes { HostResumes variant (M.meaning «module».now)
        (host_standing (P.standing platform.old) (T.kept store.old))
        (host_standing (P.standing platform.new) (T.kept store.new)) result }
    ensures faults { BlamesHostFault result
        (host_standing (P.standing platform.old) (T.kept store.old))
        (host_standing (P.standing platform.new) (T.kept store.new)) }
    ensures named { IsNamed result }
    ensures sized { IfOk result IsSized }
    ensures recovers { HostRecovers variant (M.meaning «module».now)
        (host_standing (P.standing platform.old) (T.kept store.old))
        (host_standing (P.standing platform.new) (T.kept store.new)) result }
    ensures writes { RequestWrites variant (P.standing platform.old) (P.standing platform.new)
        result }
{
    let caller = Caller {
        alloc,
        variant,
        module,
    };
    resume_by_steps(&caller, platform, store)
}

// Finds what waits, and goes on by that.
fn resume_by_steps<M: Module, P: Platform, T: Store>(
    caller: &Caller<M>,
    platform: &mut P,
    store: &mut T,
) -> Result<Resumed, HostFault>
    ensures { HostResumes caller.now.variant (M.meaning caller.now.«module».now)
        (host_standing (P.standing platform.old) (T.kept store.old))
        (host_standing (P.standing platform.new) (T.kept store.new))
        result }
{
    match find_waiting(caller.alloc, store) {
        Err(fault) => Err(HostFault::from(fault)),
        Ok(None) => start(caller.alloc, store),
        Ok(Some(waiting)) => repeat(caller, platform, store, &waiting),
    }
}

// Reads the first snapshot.
fn start<T: Store>(alloc: Global, store: &mut T) -> Result<Resumed, HostFault>
    ensures { StartsFromSlot (T.kept store.old) (T.kept store.new) result }
{
    match store.read(alloc, 0) {
        Err(fault) => Err(HostFault::from(fault)),
        Ok(snapshot) => Ok(Resumed::Start(snapshot)),
    }
}

// Asks for the request that waits, with the snapshot before its position.
fn repeat<M: Module, P: Platform, T: Store>(
    caller: &Caller<M>,
    platform: &mut P,
    store: &mut T,
    waiting: &WaitingRequest,
) -> Result<Resumed, HostFault>
    requires { IsAskable waiting.now }
    ensures { RepeatsPendingRecord caller.now.variant (M.meaning caller.now.«module».now)
        (host_standing (P.standing platform.old) (T.kept store.old))
        (host_standing (P.standing platform.new) (T.kept store.new))
        waiting.now result }
{
    let slot = ((waiting.position - 1) % 2) as u8;
    match store.read(caller.alloc, slot) {
        Err(fault) => Err(HostFault::from(fault)),
        Ok(offer) => ask_and_keep(
            caller,
            platform,
            store,
            offer.as_slice(),
            waiting.request.as_slice(),
        ),
    }
}

/// Asks for a request, and keeps the answer's snapshot.
pub fn ask_and_keep<M: Module, P: Platform, T: Store>(
    caller: &Caller<M>,
    platform: &mut P,
    store: &mut T,
    offer: &[u8],
    request: &[u8],
) -> Result<Resumed, HostFault>
    requires { is_long (One request.now) ≡ false }
    ensures asks { AsksAndKeepsAnswer caller.now.variant (M.meaning caller.now.«module».now)
        (host_standing (P.standing platform.old) (T.kept store.old))
        (host_standing (P.standing platform.new) (T.kept store.new))
        offer.now request.now result }
{
    match ask(caller, platform, offer, request) {
        Err(refusal) => Err(HostFault::from(refusal)),
        Ok(answer) => keep(store, answer),
    }
}

// Writes the answer's snapshot to the slot of its position's parity.
fn keep<T: Store>(store: &mut T, answer: Answer) -> Result<Resumed, HostFault>
    requires { length answer.snapshot ≤ LONGEST_SLOT }
    ensures { KeepsAnswer answer (T.kept store.old) (T.kept store.new) result }
{
    match store.write((answer.position % 2) as u8, answer.snapshot.as_slice()) {
        Err(fault) => Err(HostFault::from(fault)),
        Ok(()) => Ok(Resumed::Answered(answer)),
    }
}
