//! The commands of the program, composed.

ghost use Rattle.std.specs.Prelude.{map};
ghost use Rattle.mm_host_commands.specs.Outside.{outside};
ghost use Rattle.mm_words.specs.Commands.{SpellsCommand};
ghost use Rattle.mm_words.specs.declared.command.CommandLine.{CommandLine};
ghost use Rattle.mm_at_work.specs.Lives.{BasicCommandsKeepPromises, OptCommandsKeepPromises};
ghost use Rattle.mm_at_work.specs.Commands.{CommandsAreLife, CommandsFromBlank, IsCommandRun};
ghost use Rattle.mm_at_work.specs.CommandLives.{CheckpointsArePartsOfLife, InitBeginsLife, LossesArePartsOfLife, RunsArePartsOfLife, RunsFindTheInstance};

use mm_app::{Status, memoir};
use mm_base::{Sink, Source};
use mm_host::InitFault;
use mm_killed::any_program_stops;
use mm_life::{
    basic_life_is_one, device_calls_are_deeds, killed_programs_live, lives_keep_promises,
    opt_life_is_one, sessions_offer_slots,
};
use mm_moments::{call_stops_anywhere, session_stops_anywhere};
use mm_platform::Platform;
use mm_store::Store;
use std::alloc::Global;

/// `init` begins a life where it ended well. What `run`, `checkpoint` and `power` do then, by the
/// clause of each, is a part of it, and a run finds the instance for which the platform stands: so
/// the laws of a life speak of commands of the program, one after another.
pub fn commands_are_parts_of_life()
    ensures init { InitBeginsLife }
    ensures run { RunsArePartsOfLife }
    ensures finds { RunsFindTheInstance }
    ensures checkpoint { CheckpointsArePartsOfLife }
    ensures power { LossesArePartsOfLife }
{
    device_calls_are_deeds();
}

/// Commands of the program, run one after another over one platform, each to its end or until it is
/// killed, are one life, whatever the host leaves in the slots and hands each of them: from any
/// history for which the platform stands; and from a blank cell, where one of them begins an
/// instance.
pub fn commands_are_one_life()
    ensures life { CommandsAreLife }
    ensures blank { CommandsFromBlank }
{
    any_program_stops::<Result<(), InitFault>>();
    call_stops_anywhere();
    device_calls_are_deeds();
    killed_programs_live();
    session_stops_anywhere();
}

/// Behind an `init` that began an instance they keep what its module promises: a limiter gives no
/// more wrong guesses than it has tries between two `set` or `open`. With the first slots put back
/// before each command that rests on clear messages alone, in Opt besides on others' values, which
/// are no guards.
pub fn commands_keep_promises()
    ensures basic { BasicCommandsKeepPromises }
    ensures opt { OptCommandsKeepPromises }
{
    commands_are_one_life();
    basic_life_is_one();
    opt_life_is_one();
    lives_keep_promises();
    sessions_offer_slots();
}

/// Runs a command over these objects.
pub fn run_command<P: Platform, T: Store, S: Source, E: Source, K: Sink>(
    alloc: Global,
    words: &[&str],
    platform: &mut P,
    store: &mut T,
    input: &mut S,
    entropy: &mut E,
    out: &mut K,
) -> Status
    ensures { let old = outside (P.standing platform.old) (T.kept store.old) (S.left input.old)
        (S.faults input.old) (E.left entropy.old) (E.faults entropy.old) (K.received out.old)
        (K.faults out.old) in
        let new = outside (P.standing platform.new) (T.kept store.new) (S.left input.new)
        (S.faults input.new) (E.left entropy.new) (E.faults entropy.new) (K.received out.new)
        (K.faults out.new) in
        (command : CommandLine) → SpellsCommand command (map (λ s. s.now) words.now)
        → IsCommandRun (record { command = command; old = old; new = new; status = result }) }
{
    memoir(alloc, words, platform, store, input, entropy, out)
}
