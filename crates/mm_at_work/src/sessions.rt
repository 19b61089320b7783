//! The host program over two cells and pages in memory.

ghost use Rattle.std.specs.Prelude.{◌≡◌, ℕ, List, Some, IfOk, OnOk, length};
ghost use Rattle.mm_host.specs.AnySlots.{SessionRunsOnce, SessionContinues};
ghost use Rattle.mm_recovery.specs.FirstStart.{InitLeaves};
ghost use Rattle.mm_host.specs.Sessions.{IsSession};
ghost use Rattle.mm_host.specs.Continuation.{SessionWrites};
ghost use Rattle.mm_at_work.specs.Devices.{first_devices, memory_host, memory_session, session_in_memory, two_cells, BeginsAndServes};
ghost use Rattle.mm_at_work.specs.Devices.{ServesCopy, RecoversInMemory, StartsInMemory};

use mm_base::{MemSink, MemSource};
use mm_digest::Variant;
use mm_host::{HostFault, InitFault, Resumed, SessionFault, init, resume, session};
use mm_module::Module;
use mm_pages::{MemPages, PageStore};
use mm_twocell::{MemRaw, TwoCell};
use std::alloc::Global;

/// A first start.
pub fn start<M: Module>(
    alloc: Global,
    variant: Variant,
    module: &M,
    platform: &mut TwoCell<MemRaw>,
    store: &mut PageStore<MemPages>,
    entropy: &mut MemSource,
) -> Result<(), InitFault>
    ensures leaves { InitLeaves variant (M.meaning «module».now)
        (first_devices platform.old store.old entropy.old)
        (first_devices platform.new store.new entropy.new) result }
    ensures starts { OnOk result
        (StartsInMemory variant (M.meaning «module».now) platform.new store.new
        entropy.old.left entropy.new.left) }
{
    tells_cell(platform);
    init(alloc, variant, module, platform, store, entropy)
}

// A memory has its 209 bytes, so that a cell is told.
pub(crate) fn tells_cell(platform: &TwoCell<MemRaw>)
    ensures { (cell : List ℕ) × ((two_cells platform.now).cell ≡ Some cell) }
{
    let bytes = platform.raw().bytes();
    has_size(bytes);
}

// An array has its size.
fn has_size(bytes: &[u8; 209])
    ensures { length bytes.now ≡ 209 }
{
    let _bytes = *bytes;
}

/// Going on after a stop.
pub fn go_on<M: Module>(
    alloc: Global,
    variant: Variant,
    module: &M,
    platform: &mut TwoCell<MemRaw>,
    store: &mut PageStore<MemPages>,
) -> Result<Resumed, HostFault>
    ensures { RecoversInMemory variant (M.meaning «module».now)
        (memory_host platform.old store.old) (memory_host platform.new store.new) result }
{
    resume(alloc, variant, module, platform, store)
}

/// A session.
pub fn serve<M: Module>(
    alloc: Global,
    variant: Variant,
    module: &M,
    platform: &mut TwoCell<MemRaw>,
    store: &mut PageStore<MemPages>,
    input: &mut MemSource,
    out: &mut MemSink,
) -> Result<(), SessionFault>
    ensures sessions { IsSession variant (M.meaning «module».now)
        (session_in_memory platform.old store.old input.old.left out.old.received)
        (session_in_memory platform.new store.new input.new.left out.new.received) result }
    ensures continues { SessionContinues variant (M.meaning «module».now)
        (session_in_memory platform.old store.old input.old.left out.old.received)
        (session_in_memory platform.new store.new input.new.left out.new.received) result }
    ensures once { SessionRunsOnce variant (M.meaning «module».now)
        (session_in_memory platform.old store.old input.old.left out.old.received)
        (session_in_memory platform.new store.new input.new.left out.new.received) result }
    ensures writes { SessionWrites variant (M.meaning «module».now)
        (session_in_memory platform.old store.old input.old.left out.old.received)
        (session_in_memory platform.new store.new input.new.left out.new.received) result }
{
    session(alloc, variant, module, platform, store, input, out)
}

/// Puts a copy of the pages in their place, however old it is, and holds a session over it.
pub fn serve_copy<M: Module>(
    alloc: Global,
    variant: Variant,
    module: &M,
    platform: &mut TwoCell<MemRaw>,
    store: &mut PageStore<MemPages>,
    copy: PageStore<MemPages>,
    input: &mut MemSource,
    out: &mut MemSink,
) -> Result<(), SessionFault>
    ensures { ServesCopy variant (M.meaning «module».now)
        (memory_session platform.old copy input.old.left out.old.received)
        (memory_session platform.new store.new input.new.left out.new.received) result }
{
    *store = copy;
    serve(alloc, variant, module, platform, store, input, out)
}

/// A first start of an instance of Basic, and then a session on the lines of an input.
pub fn start_and_serve<M: Module>(
    alloc: Global,
    module: &M,
    platform: &mut TwoCell<MemRaw>,
    store: &mut PageStore<MemPages>,
    entropy: &mut MemSource,
    input: &mut MemSource,
    out: &mut MemSink,
) -> Result<Result<(), SessionFault>, InitFault>
    ensures { IfOk result (λ served. BeginsAndServes (M.meaning «module».now) entropy.old.left
        entropy.new.left (memory_session platform.old store.old input.old.left out.old.received)
        (memory_session platform.new store.new input.new.left out.new.received) served) }
{
    match start(alloc, Variant::Basic, module, platform, store, entropy) {
        Err(fault) => Err(fault),
        Ok(()) => Ok(serve(alloc, Variant::Basic, module, platform, store, input, out)),
    }
}
