//! A life over any devices and one store: a first start, a session, a loss of power, and a session
//! over what the first one left; in Opt with a checkpoint before power is lost.

ghost use Rattle.std.specs.Prelude.{IfOk};
ghost use Rattle.mm_recovery.specs.FirstStart.{devices};
ghost use Rattle.mm_life.specs.OneStore.{LivesOnOneStore, LivesOverCheckpoint, life_standing};

use crate::honest::{basic_life_goes_on, opt_life_goes_on};
use crate::laws::{device_calls_are_deeds, lives_write_once};
use mm_base::{Sink, Source};
use mm_digest::Variant::{Basic, Opt};
use mm_host::{InitFault, SessionFault, init, session};
use mm_module::Module;
use mm_opt::{CheckpointRefusal, Checkpointed, checkpoint};
use mm_platform::{Platform, StepFault};
use mm_store::Store;
use std::alloc::Global;

/// How two sessions ended.
#[derive(Drop)]
pub struct BothSessions {
    pub first: Result<(), SessionFault>,
    pub second: Result<(), SessionFault>,
}

/// How two sessions ended, and what the checkpoint between them said.
#[derive(Drop)]
pub struct CheckedSessions {
    pub first: Result<(), SessionFault>,
    pub checkpoint: Result<Checkpointed, CheckpointRefusal>,
    pub second: Result<(), SessionFault>,
}

/// Why there weren't two sessions.
#[derive(Clone, Copy, PartialEq, Eq)]
pub enum BothSessionsFault {
    /// The first start failed.
    Starting(InitFault),
    /// The platform failed when it was to lose its power.
    LosingPower(StepFault),
}

/// A first start of an instance of Basic, and a session; then power is lost and comes back; and a
/// session over the store that the first one left.
pub fn live_on_one_store<M: Module, P: Platform, T: Store, E: Source, S: Source, K: Sink>(
    alloc: Global,
    module: &M,
    platform: &mut P,
    store: &mut T,
    entropy: &mut E,
    first_input: &mut S,
    second_input: &mut S,
    out: &mut K,
) -> Result<BothSessions, BothSessionsFault>
    ensures { IfOk result (λ both. LivesOnOneStore (M.meaning «module».now)
        (life_standing (devices (P.standing platform.old) (T.kept store.old) (E.left entropy.old)
        (E.faults entropy.old)) (S.left first_input.old) (S.left second_input.old)
        (K.received out.old))
        (life_standing (devices (P.standing platform.new) (T.kept store.new) (E.left entropy.new)
        (E.faults entropy.new)) (S.left first_input.new) (S.left second_input.new)
        (K.received out.new)) both.first both.second) }
{
    // Laws, which do nothing: the clauses rest on their contracts.
    basic_life_goes_on();
    device_calls_are_deeds();
    lives_write_once();
    match init(alloc, Basic, module, platform, store, entropy) {
        Err(fault) => Err(BothSessionsFault::Starting(fault)),
        Ok(()) => {
            let first = session(alloc, Basic, module, platform, store, first_input, out);
            match platform.cycle() {
                Err(fault) => Err(BothSessionsFault::LosingPower(fault)),
                Ok(()) => {
                    let second = session(alloc, Basic, module, platform, store, second_input, out);
                    Ok(BothSessions { first, second })
                }
            }
        }
    }
}

/// A first start of an instance of Opt, and a session; then a checkpoint, whatever it says, and
/// power is lost and comes back; and a session over the store that the first one left.
pub fn live_over_checkpoint<M: Module, P: Platform, T: Store, E: Source, S: Source, K: Sink>(
    alloc: Global,
    module: &M,
    platform: &mut P,
    store: &mut T,
    entropy: &mut E,
    first_input: &mut S,
    second_input: &mut S,
    out: &mut K,
) -> Result<CheckedSessions, BothSessionsFault>
    ensures { IfOk result (λ held. LivesOverCheckpoint (M.meaning «module».now)
        (life_standing (devices (P.standing platform.old) (T.kept store.old) (E.left entropy.old)
        (E.faults entropy.old)) (S.left first_input.old) (S.left second_input.old)
        (K.received out.old))
        (life_standing (devices (P.standing platform.new) (T.kept store.new) (E.left entropy.new)
        (E.faults entropy.new)) (S.left first_input.new) (S.left second_input.new)
        (K.received out.new)) held.first held.checkpoint held.second) }
{
    // Laws, which do nothing: the clauses rest on their contracts.
    opt_life_goes_on();
    device_calls_are_deeds();
    lives_write_once();
    match init(alloc, Opt, module, platform, store, entropy) {
        Err(fault) => Err(BothSessionsFault::Starting(fault)),
        Ok(()) => {
            let first = session(alloc, Opt, module, platform, store, first_input, out);
            let said = checkpoint(platform);
            match platform.cycle() {
                Err(fault) => Err(BothSessionsFault::LosingPower(fault)),
                Ok(()) => {
                    let second = session(alloc, Opt, module, platform, store, second_input, out);
                    Ok(CheckedSessions {
                        first,
                        checkpoint: said,
                        second,
                    })
                }
            }
        }
    }
}
