//! What the words of the command line do.

ghost use Rattle.std.specs.Prelude.{◌≡◌, map};
ghost use Rattle.mm_play.specs.PlaysInput.{IsBlamed};
ghost use Rattle.mm_words.specs.Commands.{IsInBounds, SpellsCommand};
ghost use Rattle.mm_words.specs.declared.command.CommandLine.{CommandLine as Told};
ghost use Rattle.mm_words.specs.declared.command.CommandLine.TheVariants.{Replay, Slots, Transfer};
ghost use Rattle.mm_app.specs.Commands.{BlamesOutput, BlamesSource, tells_platform_fault, tells_store_fault, DoesOrLacks, ReadsInput};
ghost use Rattle.mm_app.specs.Commands.{SpellNo, SpellNone, TakesEntropy, UsesPlatform, UsesStore, ReplaysOneRun, InterleavesRuns};
ghost use Rattle.mm_app.specs.Commands.{IsRefused, MovesOneRun};
ghost use Rattle.mm_app.specs.Completeness.{CanBeAnswered, CanBeDone, IsDoneOrFailed};
ghost use Rattle.mm_app.specs.StatusFacts.{TellsLost, TellsRefusal, TellsAlready, TellsBlank, TellsCell, TellsKind, TellsMuch, TellsShort};
ghost use Rattle.mm_app.specs.StatusFacts.{words_status};
ghost use Rattle.mm_host_commands.specs.Outside.{outside};
ghost use Rattle.mm_status.specs.Status.{EndsUnrefused};
ghost use Rattle.mm_status.specs.declared.status.Status.TheVariants.{Usage};

use crate::bulk::run_in_bulk;
use crate::check::check_run;
use crate::help::write_help;
use crate::receipts::check_receipts;
use crate::replay::replay_and_stop;
use crate::schedule::write_schedule;
use crate::slots::play_slots;
use crate::transfer::play_transfer;
use mm_base::{Sink, Source};
use mm_host_commands::{close_segment, lose_power, run_instance, start_instance};
use mm_platform::Platform;
use mm_status::{Status, stopped};
use mm_store::Store;
use mm_words::{CommandLine, WordsFault, read_words};
use std::alloc::Global;

// Does what a command says.
fn done<P: Platform, T: Store, S: Source, E: Source, K: Sink>(
    alloc: Global,
    command: &CommandLine,
    platform: &mut P,
    store: &mut T,
    input: &mut S,
    entropy: &mut E,
    out: &mut K,
) -> Status
    requires { IsInBounds command.now }
    ensures does { let old = outside (P.standing platform.old) (T.kept store.old) (S.left input.old)
        (S.faults input.old) (E.left entropy.old) (E.faults entropy.old) (K.received out.old)
        (K.faults out.old) in
        let new = outside (P.standing platform.new) (T.kept store.new) (S.left input.new)
        (S.faults input.new) (E.left entropy.new) (E.faults entropy.new) (K.received out.new)
        (K.faults out.new) in
        DoesOrLacks command.now old new result }
    ensures complete { CanBeAnswered command.now (S.left input.old) → EndsUnrefused result }
    ensures platform { (UsesPlatform command.now → ⊥) → platform.new ≡ platform.old }
    ensures store { (UsesStore command.now → ⊥) → store.new ≡ store.old }
    ensures input { (ReadsInput command.now → ⊥) → input.new ≡ input.old }
    ensures entropy { (TakesEntropy command.now → ⊥) → entropy.new ≡ entropy.old }
{
    match command {
        CommandLine::Replay => replay_and_stop(alloc, input, out),
        CommandLine::Gen(it) => write_schedule(alloc, it, out),
        CommandLine::Bulk(it) => run_in_bulk(alloc, it, out),
        CommandLine::Slots => play_slots(alloc, input, out),
        CommandLine::Receipts { key } => check_receipts(alloc, key, input, out),
        CommandLine::Transfer => play_transfer(alloc, input, out),
        CommandLine::Checkpoint => close_segment(platform, out),
        CommandLine::Power => lose_power(platform, out),
        CommandLine::Help => write_help(alloc, out),
        CommandLine::Init(header) => start_instance(alloc, header, platform, store, entropy, out),
        CommandLine::Run => run_instance(alloc, platform, store, input, out),
        CommandLine::Check => check_run(alloc, input, out),
    }
}

/// Does what the words after the program's name say, writes the stop line of any other status than
/// `Done` and `WriteFault`, and answers the status. `replay` replays the schedule that the input
/// gives, `gen NUMBER COUNT VARIANT MODULE` writes a schedule made from a number, `bulk` with the
/// same words runs it and tells what came of it in five lines, `slots` plays the lines that the
/// input gives for several modules on one platform, `transfer` plays those of two platforms between
/// which a module moves, `check` decides the premises of the schedule that the input gives and
/// compares recorded replies, `receipts KEY` checks the receipts that the input gives, `checkpoint`
/// closes the platform's open segment, `init VARIANT MODULE` starts an instance on a blank
/// platform, `run` serves the lines of the input by the instance, `power` lets the platform lose
/// its power and get it back, and `--help` alone lists the forms of words.
///
/// Where the stop line can't be written the status stays that of the first cause.
pub fn memoir<P: Platform, T: Store, S: Source, E: Source, K: Sink>(
    alloc: Global,
    words: &[&str],
    platform: &mut P,
    store: &mut T,
    input: &mut S,
    entropy: &mut E,
    out: &mut K,
) -> Status
    ensures does { let old = outside (P.standing platform.old) (T.kept store.old) (S.left input.old)
        (S.faults input.old) (E.left entropy.old) (E.faults entropy.old) (K.received out.old)
        (K.faults out.old) in
        let new = outside (P.standing platform.new) (T.kept store.new) (S.left input.new)
        (S.faults input.new) (E.left entropy.new) (E.faults entropy.new) (K.received out.new)
        (K.faults out.new) in
        (command : Told) → SpellsCommand command (map (λ s. s.now) words.now)
        → DoesOrLacks command old new result }

    // An input within the grammar and the limits is not refused.
    ensures complete { (command : Told) → SpellsCommand command (map (λ s. s.now) words.now)
        → CanBeAnswered command (S.left input.old) → EndsUnrefused result }

    // Nor is a command of the host, where what the objects tell allows it.
    ensures host { let old = outside (P.standing platform.old) (T.kept store.old) (S.left input.old)
        (S.faults input.old) (E.left entropy.old) (E.faults entropy.old) (K.received out.old)
        (K.faults out.old) in
        let new = outside (P.standing platform.new) (T.kept store.new) (S.left input.new)
        (S.faults input.new) (E.left entropy.new) (E.faults entropy.new) (K.received out.new)
        (K.faults out.new) in
        (command : Told) → SpellsCommand command (map (λ s. s.now) words.now)
        → CanBeDone command old new → IsDoneOrFailed result }

    // The headline: which lines of a schedule are answered, by the status, and what is written; it
    // is one run of the module on one list of requests, in each first part of the events that gives
    // no evidence.
    ensures headline { SpellsCommand Replay (map (λ s. s.now) words.now)
        → ReplaysOneRun (S.left input.old) (S.left input.new) (K.received out.old)
        (K.received out.new) result }

    // What is written for slots is one run of each slot's module on a list of its own.
    ensures interleaved { SpellsCommand Slots (map (λ s. s.now) words.now)
        → InterleavesRuns (S.left input.old) (S.left input.new) (K.received out.old)
        (K.received out.new) result }

    // What is written for a module that moves is one run of it, on one list of requests.
    ensures one_transfer { SpellsCommand Transfer (map (λ s. s.now) words.now)
        → MovesOneRun (S.left input.old) (S.left input.new) (K.received out.old)
        (K.received out.new) result }

    // Usage comes exactly where the words spell no command, but for want of memory.
    ensures usage { result ≡ Usage → SpellNone (map (λ s. s.now) words.now) }
    ensures none { SpellNone (map (λ s. s.now) words.now)
        → IsRefused (K.received out.old) (K.received out.new) (K.faults out.old) (K.faults out.new)
        result }

    // What a device held is told exactly where it held that, but for want of memory and faults: of
    // the platform's cell, of the entropy, of the register, of what the store offers.
    ensures blank { TellsBlank (map (λ s. s.now) words.now) (P.standing platform.old) result }
    ensures already { TellsAlready (map (λ s. s.now) words.now) (P.standing platform.old) result }
    ensures cell { TellsCell (map (λ s. s.now) words.now) (P.standing platform.old) result }
    ensures kind { TellsKind (map (λ s. s.now) words.now) (P.standing platform.old) result }
    ensures short { TellsShort (map (λ s. s.now) words.now) (P.standing platform.old)
        (E.left entropy.old) result }
    ensures lost { let old = outside (P.standing platform.old) (T.kept store.old) (S.left input.old)
        (S.faults input.old) (E.left entropy.old) (E.faults entropy.old) (K.received out.old)
        (K.faults out.old) in
        let new = outside (P.standing platform.new) (T.kept store.new) (S.left input.new)
        (S.faults input.new) (E.left entropy.new) (E.faults entropy.new) (K.received out.new)
        (K.faults out.new) in
        TellsLost (map (λ s. s.now) words.now) old new result }
    ensures refused { let old = outside (P.standing platform.old) (T.kept store.old)
        (S.left input.old) (S.faults input.old) (E.left entropy.old) (E.faults entropy.old)
        (K.received out.old) (K.faults out.old) in
        let new = outside (P.standing platform.new) (T.kept store.new) (S.left input.new)
        (S.faults input.new) (E.left entropy.new) (E.faults entropy.new) (K.received out.new)
        (K.faults out.new) in
        TellsRefusal (map (λ s. s.now) words.now) old new result }
    ensures much { TellsMuch (map (λ s. s.now) words.now) result }

    // A command leaves the objects that it doesn't use as they were.
    ensures platform { SpellNo UsesPlatform (map (λ s. s.now) words.now)
        → platform.new ≡ platform.old }
    ensures store { SpellNo UsesStore (map (λ s. s.now) words.now) → store.new ≡ store.old }
    ensures input { SpellNo ReadsInput (map (λ s. s.now) words.now) → input.new ≡ input.old }
    ensures entropy { SpellNo TakesEntropy (map (λ s. s.now) words.now)
        → entropy.new ≡ entropy.old }

    // A count of faults rose exactly where the status blames it; the output's too where its stop
    // line was cut short.
    ensures device { IsBlamed (tells_platform_fault result) (P.standing platform.old).faults
        (P.standing platform.new).faults }
    ensures disk { IsBlamed (tells_store_fault result) (T.kept store.old).faults
        (T.kept store.new).faults }
    ensures source { let old = outside (P.standing platform.old) (T.kept store.old)
        (S.left input.old) (S.faults input.old) (E.left entropy.old) (E.faults entropy.old)
        (K.received out.old) (K.faults out.old) in
        let new = outside (P.standing platform.new) (T.kept store.new) (S.left input.new)
        (S.faults input.new) (E.left entropy.new) (E.faults entropy.new) (K.received out.new)
        (K.faults out.new) in
        (command : Told) → SpellsCommand command (map (λ s. s.now) words.now)
        → BlamesSource command old new result }
    ensures wrote { BlamesOutput result (K.faults out.old) (K.faults out.new) }
{
    match read_words(alloc, words) {
        Ok(command) => done(alloc, &command, platform, store, input, entropy, out),
        Err(fault) => stopped(of_words(fault), out),
    }
}

// How the program ends where the words gave no command.
fn of_words(fault: WordsFault) -> Status
    ensures { result ≡ words_status fault }
{
    match fault {
        WordsFault::Usage => Status::Usage,
        WordsFault::Memory => Status::Memory,
    }
}
