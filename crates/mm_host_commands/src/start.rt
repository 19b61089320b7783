//! The command `init`: an instance of a variant and a module is started on a blank platform.

ghost use Rattle.std.specs.Prelude.{ℕ, List, Option};
ghost use Rattle.mm_host_commands.specs.Outside.{StartsInstance, init_line, outside};
ghost use Rattle.mm_status.specs.Status.{TellsLines};

use mm_base::{Sink, Source};
use mm_host::{InitFault, init};
use mm_platform::Platform;
use mm_schedule::Header;
use mm_status::{Status, stopped, written};
use mm_store::Store;
use std::alloc::Global;

/// Starts an instance of a variant and a module.
pub fn start_instance<P: Platform, T: Store, E: Source, K: Sink>(
    alloc: Global,
    header: &Header,
    platform: &mut P,
    store: &mut T,
    entropy: &mut E,
    out: &mut K,
) -> Status
    // Whatever the input tells, which isn't read (`left`, `reads`).
    ensures { (left : Option (List ℕ)) (reads : ℕ) → StartsInstance header.now
        (outside (P.standing platform.old) (T.kept store.old) left reads (E.left entropy.old)
        (E.faults entropy.old) (K.received out.old) (K.faults out.old))
        (outside (P.standing platform.new) (T.kept store.new) left reads (E.left entropy.new)
        (E.faults entropy.new) (K.received out.new) (K.faults out.new)) result }
{
    let answer = init(
        alloc,
        header.variant,
        &header.module,
        platform,
        store,
        entropy,
    );
    tell_start(answer, out)
}

// Tells what a first start came to.
fn tell_start<K: Sink>(answer: Result<(), InitFault>, out: &mut K) -> Status
    ensures { TellsLines (init_line answer)
        (K.received out.old) (K.received out.new) (K.faults out.old) (K.faults out.new) result }
{
    match answer {
        Ok(()) => written(b"made\n", out),
        Err(InitFault::Memory) => stopped(Status::Memory, out),
        Err(InitFault::Platform(_)) => stopped(Status::PlatformFault, out),
        Err(InitFault::Already) => stopped(Status::Already, out),
        Err(InitFault::ReadFault) => stopped(Status::ReadFault, out),
        Err(InitFault::Short { got }) => stopped(Status::Short { got }, out),
        Err(InitFault::Store) => stopped(Status::StoreFault, out),
    }
}
