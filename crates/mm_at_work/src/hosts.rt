//! Commands of the program that a host has run, one after another.

ghost use Rattle.std.specs.Prelude.{OnOk};
ghost use Rattle.mm_host_commands.specs.Outside.{outside};
ghost use Rattle.mm_at_work.specs.Lives.{LivesUnderHost, HaveRun, verb_command};
ghost use Rattle.mm_at_work.specs.Commands.{IsCommandRun};
ghost use Rattle.mm_at_work.specs.Devices.{first_devices, memory_objects, two_cells};

use crate::commands::{commands_keep_promises, run_command};
use crate::sessions::{start, tells_cell};
use mm_app::Status;
use mm_base::{MemSink, MemSource, Sink, Source};
use mm_digest::Variant;
use mm_modules::AnyModule;
use mm_pages::{MemPages, PageStore};
use mm_platform::Platform;
use mm_recovery::InitFault;
use mm_store::Store;
use mm_twocell::{MemRaw, TwoCell};
use std::alloc::Global;

/// A command that goes on with an instance.
#[derive(Clone, Copy, PartialEq, Eq)]
pub enum Verb {
    Run,
    Checkpoint,
    Power,
}

/// What a host hands a command, besides the platform.
#[derive(Drop)]
pub struct HandedObjects<T, S, E, K> {
    pub store: T,
    pub input: S,
    pub entropy: E,
    pub out: K,
}

/// A host: it does what it likes to what it hands the next command, and says which that is. Nothing
/// is asked of it.
pub trait Host<T, S, E, K> {
    ghost use Rattle.mm_at_work.specs.declared.hosts.HandedObjects.{HandedObjects};
    ghost use Rattle.mm_at_work.specs.declared.hosts.Verb.{Verb};

    /// How it hands: the host and the objects before and behind, and the command that it says.
    ghost hands: { Self → Self → HandedObjects T S E K → HandedObjects T S E K → Verb → Type 0 };

    fn hand(&mut self, handed: &mut HandedObjects<T, S, E, K>) -> Verb
        ensures { hands self.old self.new handed.old handed.new result };
}

/// Runs one of the commands that go on with an instance.
pub fn run_verb<P: Platform, T: Store, S: Source, E: Source, K: Sink>(
    alloc: Global,
    verb: Verb,
    platform: &mut P,
    handed: &mut HandedObjects<T, S, E, K>,
) -> Status
    ensures { let old = outside (P.standing platform.old) (T.kept handed.old.store)
        (S.left handed.old.input) (S.faults handed.old.input) (E.left handed.old.entropy)
        (E.faults handed.old.entropy) (K.received handed.old.out) (K.faults handed.old.out) in
        let new = outside (P.standing platform.new) (T.kept handed.new.store)
        (S.left handed.new.input) (S.faults handed.new.input) (E.left handed.new.entropy)
        (E.faults handed.new.entropy) (K.received handed.new.out) (K.faults handed.new.out) in
        IsCommandRun (record {
          command = verb_command verb;
          old = old;
          new = new;
          status = result;
        }) }
{
    let HandedObjects {
        store,
        input,
        entropy,
        out,
    } = handed;
    match verb {
        Verb::Run => run_command(alloc, &["run"], platform, store, input, entropy, out),
        Verb::Checkpoint => {
            run_command(alloc, &["checkpoint"], platform, store, input, entropy, out)
        }
        Verb::Power => run_command(alloc, &["power"], platform, store, input, entropy, out),
    }
}

/// Runs so many commands over one platform, each as the host hands it: the one that it says, over
/// the objects that it left.
pub fn run_rounds<P: Platform, T: Store, S: Source, E: Source, K: Sink, H: Host<T, S, E, K>>(
    alloc: Global,
    rounds: u32,
    platform: &mut P,
    host: &mut H,
    handed: &mut HandedObjects<T, S, E, K>,
)
    ensures { HaveRun H.hands (λ standing objects. outside standing (T.kept objects.store)
        (S.left objects.input) (S.faults objects.input) (E.left objects.entropy)
        (E.faults objects.entropy) (K.received objects.out) (K.faults objects.out))
        (P.standing platform.old) (P.standing platform.new) host.old host.new handed.old handed.new
        rounds }
{
    for round in 0..rounds {
        let verb = host.hand(handed);
        run_verb(alloc, verb, platform, handed);
    }
}

/// What a host hands over pages and streams in memory.
pub type MemHandedObjects = HandedObjects<PageStore<MemPages>, MemSource, MemSource, MemSink>;

/// Starts an instance of Basic, and runs so many commands over it, each as the host hands it.
pub fn live_under_host<H: Host<PageStore<MemPages>, MemSource, MemSource, MemSink>>(
    alloc: Global,
    module: &AnyModule,
    rounds: u32,
    platform: &mut TwoCell<MemRaw>,
    host: &mut H,
    handed: &mut MemHandedObjects,
) -> Result<(), InitFault>
    ensures { OnOk result (LivesUnderHost H.hands (λ standing objects. memory_objects standing
        objects.store objects.input objects.entropy objects.out) «module».now
        (first_devices platform.old handed.old.store handed.old.entropy) (two_cells platform.new)
        host.old host.new handed.new rounds) }
{
    // Laws, which do nothing: the clauses rest on their contracts.
    commands_keep_promises();
    tells_cell(platform);
    match start(
        alloc,
        Variant::Basic,
        module,
        platform,
        &mut handed.store,
        &mut handed.entropy,
    ) {
        Err(fault) => Err(fault),
        Ok(()) => {
            run_rounds(alloc, rounds, platform, host, handed);
            Ok(())
        }
    }
}
