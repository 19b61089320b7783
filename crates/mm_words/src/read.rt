//! Words as a command.

ghost use Rattle.std.specs.Prelude.{◌≡◌, Err, IfOk, map};
ghost use Rattle.std.specs.List.{list_any};
ghost use Rattle.clap.specs.Words.{kind_of};
ghost use Rattle.mm_words.specs.Commands.{IsInBounds, SpellsCommand, GetsCommand, IsMatched, is_refused};
ghost use Rattle.mm_words.specs.declared.command.CommandLine.{CommandLine as Told};
ghost use Rattle.mm_words.specs.declared.fault.WordsFault.TheVariants as fault;

use crate::app::command_line;
use crate::command::{CommandLine, is_alone};
use crate::fault::WordsFault;
use crate::form::command_in;
use clap::Error;
use clap::error::ErrorKind;
use std::alloc::Global;

/// The most words of a command.
const LONGEST: usize = 5;

/// The command that these words spell, those after the program's name; words spell at most one.
/// `Usage` comes exactly where they spell none, but for want of memory.
pub fn read_words(alloc: Global, words: &[&str]) -> Result<CommandLine, WordsFault>
    ensures ok { IfOk result (λ command. SpellsCommand command (map (λ s. s.now) words.now)) }
    ensures one { IfOk result (λ command. (other : Told)
        → SpellsCommand other (map (λ s. s.now) words.now) → other ≡ command) }
    ensures usage { result ≡ Err fault.Usage → (command : Told)
        → SpellsCommand command (map (λ s. s.now) words.now) → ⊥ }
{
    if is_alone(words, "--help") {
        return Ok(CommandLine::Help);
    }
    if words.len() > LONGEST || has_refused(words) {
        return Err(WordsFault::Usage);
    }
    let command = parsed(alloc, words)?;
    if !command.is_spelled(words) {
        return Err(WordsFault::Usage);
    }
    Ok(command)
}

/// Whether a word is empty, begins with `-` or is `help`: no command but `--help` has such a word.
fn has_refused(words: &[&str]) -> bool
    ensures { result ≡ list_any (λ word. is_refused word.now) words.now }
{
    words.iter().any(|word| is_refused(word))
}

fn is_refused(word: &str) -> bool
    ensures { result ≡ is_refused word.now }
{
    word.is_empty() || word.as_bytes()[0] == b'-' || word == "help"
}

/// The command that `clap` finds in the words.
fn parsed(alloc: Global, words: &[&str]) -> Result<CommandLine, WordsFault>
    ensures allowed { IfOk result IsInBounds }
    ensures gets { (command : Told) → SpellsCommand command (map (λ s. s.now) words.now)
        → IsMatched command → GetsCommand command result }
{
    let Ok(line) = command_line(alloc) else {
        return Err(WordsFault::Memory);
    };
    let matches = match line.try_get_matches_from(words) {
        Ok(matches) => matches,
        Err(error) => return Err(fault_of(&error)),
    };
    let Some((name, inner)) = matches.subcommand() else {
        return Err(WordsFault::Usage);
    };
    match command_in(name, inner) {
        Some(command) => Ok(command),
        None => Err(WordsFault::Usage),
    }
}

/// What an error of `clap` comes to.
fn fault_of(error: &Error) -> WordsFault
    ensures { kind_of error.now ≡ ErrorKind.OutOfMemory → result ≡ fault.Memory }
{
    match error.kind() {
        ErrorKind::OutOfMemory => WordsFault::Memory,
        _ => WordsFault::Usage,
    }
}
