//! Commands as `clap` matched them.

ghost use Rattle.std.specs.Prelude.{◌≡◌, ◌≤◌, IfSome};
ghost use Rattle.clap.specs.Words.{found_of};
ghost use Rattle.mm_bytes.specs.Limits.{most_events};
ghost use Rattle.mm_words.specs.Commands.{IsInBounds, IsGenerated, command_in, count_at, schedule_in, header_in, key_of_words};

use crate::command::{CommandLine, GeneratedSchedule};
use clap::ArgMatches;
use mm_bytes::{MOST_EVENTS, read_decimal};
use mm_module::value_in;
use mm_modules::by_name;
use mm_schedule::{Header, read_variant};

/// The command of a subcommand with this name and these matches.
#[tactic(auto, unfolding(crate::specs::Commands::command_in))]
pub fn command_in(name: &str, matches: &ArgMatches<'_>) -> Option<CommandLine>
    ensures allowed { IfSome result IsInBounds }
    ensures matched { result ≡ command_in name.now (found_of matches.now) }
{
    match name {
        "init" => {
            let header = header_in(matches)?;
            Some(CommandLine::Init(header))
        }
        "run" => Some(CommandLine::Run),
        "checkpoint" => Some(CommandLine::Checkpoint),
        "power" => Some(CommandLine::Power),
        "replay" => Some(CommandLine::Replay),
        "check" => Some(CommandLine::Check),
        "gen" => {
            let generated = generated_in(matches)?;
            Some(CommandLine::Gen(generated))
        }
        "bulk" => {
            let generated = generated_in(matches)?;
            Some(CommandLine::Bulk(generated))
        }
        "slots" => Some(CommandLine::Slots),
        "receipts" => {
            let key = key_in(matches)?;
            Some(CommandLine::Receipts { key })
        }
        "transfer" => Some(CommandLine::Transfer),
        _ => None,
    }
}

/// A generated schedule's words, None where one of them is not what it has to be.
#[tactic(auto, unfolding(crate::specs::Commands::schedule_in))]
fn generated_in(matches: &ArgMatches<'_>) -> Option<GeneratedSchedule>
    ensures allowed { IfSome result IsGenerated }
    ensures matched { result ≡ schedule_in (found_of matches.now) }
{
    let number = matches.get_str("NUMBER")?;
    let count = matches.get_str("COUNT")?;
    let number = read_decimal(number.as_bytes())?;
    let count = read_count(count)?;
    let header = header_in(matches)?;
    Some(GeneratedSchedule {
        number,
        count,
        header,
    })
}

/// The words of a variant and a module, None where one of them is not what it has to be.
#[tactic(auto, unfolding(crate::specs::Commands::header_in))]
fn header_in(matches: &ArgMatches<'_>) -> Option<Header>
    ensures { result ≡ header_in (found_of matches.now) }
{
    let variant = matches.get_str("VARIANT")?;
    let module = matches.get_str("MODULE")?;
    let variant = read_variant(variant.as_bytes())?;
    let module = by_name(module.as_bytes())?;
    Some(Header { variant, module })
}

/// The key of a word, None where the word is not 64 hexadecimal digits.
#[tactic(auto, unfolding(crate::specs::Commands::key_of_words))]
fn key_in(matches: &ArgMatches<'_>) -> Option<[u8; 32]>
    ensures { result ≡ key_of_words (found_of matches.now) }
{
    let digits = matches.get_str("KEY")?;
    value_in(digits.as_bytes())
}

/// The number of events that a word writes, None where it is no decimal or over 20,000.
fn read_count(word: &str) -> Option<u32>
    ensures few { IfSome result (λ count. count ≤ most_events) }
    ensures count { result ≡ count_at word.now }
{
    let count = read_decimal(word.as_bytes())?;
    if count > u64::from(MOST_EVENTS) {
        return None;
    }
    Some(count as u32)
}
