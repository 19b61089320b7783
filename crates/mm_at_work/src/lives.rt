//! Lives over two cells and pages in memory: a first start, and two sessions, the second over a
//! copy in the pages' place.

ghost use Rattle.std.specs.Prelude.{IfOk};
ghost use Rattle.mm_at_work.specs.Lives.{LivesCheckpointed, LivesOnCopy, LivesWithoutPower, memory_life};

use crate::calls::close_segment;
use crate::sessions::{serve, start};
use mm_base::{MemSink, MemSource};
use mm_digest::Variant::{Basic, Opt};
use mm_host::SessionFault;
use mm_life::{basic_life_is_one, device_calls_are_deeds, opt_life_is_one, sessions_offer_slots};
use mm_module::Module;
use mm_opt::{CheckpointRefusal, Checkpointed};
use mm_pages::{MemPages, PageStore};
use mm_platform::{Platform, StepFault};
use mm_recovery::InitFault;
use mm_twocell::{MemRaw, TwoCell};
use std::alloc::Global;

/// What such a life is led over, besides the pages.
#[derive(Drop)]
pub struct LifeObjects {
    pub platform: TwoCell<MemRaw>,
    pub entropy: MemSource,
    pub first: MemSource,
    pub second: MemSource,
    pub out: MemSink,
}

/// How two sessions ended.
#[derive(Drop)]
pub struct TwoSessions {
    pub first: Result<(), SessionFault>,
    pub second: Result<(), SessionFault>,
}

/// How two sessions ended, and what the checkpoint between them said.
#[derive(Drop)]
pub struct Checkpoint {
    pub sessions: TwoSessions,
    pub said: Result<Checkpointed, CheckpointRefusal>,
}

/// Why there weren't two sessions.
#[derive(Clone, Copy, PartialEq, Eq)]
pub enum TwoSessionsFault {
    /// The first start failed.
    Starting(InitFault),
    /// The platform failed when it was to lose its power.
    LosingPower(StepFault),
}

/// A first start of an instance of Basic, and a session; then, with a copy in the pages' place,
/// however old or altered it is, a session over it.
pub fn live_on_copy<M: Module>(
    alloc: Global,
    module: &M,
    it: &mut LifeObjects,
    store: &mut PageStore<MemPages>,
    copy: &mut PageStore<MemPages>,
) -> Result<TwoSessions, InitFault>
    ensures { IfOk result (λ both. LivesOnCopy (M.meaning «module».now)
        (memory_life it.old copy.old) (memory_life it.new copy.new) both.first both.second) }
{
    // Laws, which do nothing: the clauses rest on their contracts.
    basic_life_is_one();
    sessions_offer_slots();
    let platform = &mut it.platform;
    let out = &mut it.out;
    match start(alloc, Basic, module, platform, store, &mut it.entropy) {
        Err(fault) => Err(fault),
        Ok(()) => {
            let first = serve(alloc, Basic, module, platform, store, &mut it.first, out);
            let second = serve(alloc, Basic, module, platform, copy, &mut it.second, out);
            Ok(TwoSessions { first, second })
        }
    }
}

/// A first start of an instance of Basic, and a session; then power is lost and comes back; and,
/// with a copy in the pages' place, a session over it.
pub fn live_without_power<M: Module>(
    alloc: Global,
    module: &M,
    it: &mut LifeObjects,
    store: &mut PageStore<MemPages>,
    copy: &mut PageStore<MemPages>,
) -> Result<TwoSessions, TwoSessionsFault>
    ensures { IfOk result (λ both. LivesWithoutPower (M.meaning «module».now)
        (memory_life it.old copy.old) (memory_life it.new copy.new) both.first both.second) }
{
    // Laws, which do nothing: the clauses rest on their contracts.
    basic_life_is_one();
    sessions_offer_slots();
    device_calls_are_deeds();
    let platform = &mut it.platform;
    let out = &mut it.out;
    match start(alloc, Basic, module, platform, store, &mut it.entropy) {
        Err(fault) => Err(TwoSessionsFault::Starting(fault)),
        Ok(()) => {
            let first = serve(alloc, Basic, module, platform, store, &mut it.first, out);
            match platform.cycle() {
                Err(fault) => Err(TwoSessionsFault::LosingPower(fault)),
                Ok(()) => {
                    let second = serve(alloc, Basic, module, platform, copy, &mut it.second, out);
                    Ok(TwoSessions { first, second })
                }
            }
        }
    }
}

/// A first start of an instance of Opt, and a session; then the segment is closed, if one is open;
/// and, with a copy in the pages' place, a session over it.
pub fn live_checkpointed<M: Module>(
    alloc: Global,
    module: &M,
    it: &mut LifeObjects,
    store: &mut PageStore<MemPages>,
    copy: &mut PageStore<MemPages>,
) -> Result<Checkpoint, InitFault>
    ensures { IfOk result (λ all. LivesCheckpointed (M.meaning «module».now)
        (memory_life it.old copy.old) (memory_life it.new copy.new) all.sessions.first all.said
        all.sessions.second) }
{
    // Laws, which do nothing: the clauses rest on their contracts.
    opt_life_is_one();
    sessions_offer_slots();
    let platform = &mut it.platform;
    let out = &mut it.out;
    match start(alloc, Opt, module, platform, store, &mut it.entropy) {
        Err(fault) => Err(fault),
        Ok(()) => {
            let first = serve(alloc, Opt, module, platform, store, &mut it.first, out);
            let said = close_segment(platform);
            let second = serve(alloc, Opt, module, platform, copy, &mut it.second, out);
            let sessions = TwoSessions { first, second };
            Ok(Checkpoint { sessions, said })
        }
    }
}
