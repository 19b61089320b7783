//! What is wrong with words that are no command: which word, and what was expected there. The
//! program's version stands before.

use mm_bytes::{MOST_EVENTS, read_decimal};
use mm_modules::{by_name, module_names};
use std::{io, str};

/// The program's version, which CHANGELOG begins with.
const VERSION: &str = "1.0.0";

/// A word that a command expects behind its name.
#[derive(Clone, Copy)]
enum Place {
    Number,
    Count,
    Variant,
    Module,
    Key,
}

impl Place {
    // Whether this word may stand there.
    fn takes(self, word: &str) -> bool {
        match self {
            Place::Number => read_decimal(word.as_bytes()).is_some(),
            Place::Count => is_count(word),
            Place::Variant => word == "basic" || word == "opt",
            Place::Module => by_name(word.as_bytes()).is_some(),
            Place::Key => is_key(word),
        }
    }

    // What may stand there.
    fn expected(self) -> &'static str {
        match self {
            Place::Number => "NUMBER, a decimal of at most 18446744073709551615",
            Place::Count => "COUNT, a decimal of at most 20000",
            Place::Variant => "VARIANT, which is basic or opt",
            Place::Module => "MODULE, which is ",
            Place::Key => "KEY, 64 hexadecimal digits",
        }
    }

    // Which these are, of a module.
    fn names(self) -> &'static str {
        match self {
            Place::Module => str::from_utf8(module_names()).unwrap_or(""),
            _ => "",
        }
    }
}

// Whether a word is a number of events.
fn is_count(word: &str) -> bool {
    match read_decimal(word.as_bytes()) {
        Some(count) => count <= u64::from(MOST_EVENTS),
        None => false,
    }
}

// Whether a word is the digits of a key.
fn is_key(word: &str) -> bool {
    word.len() == 64 && word.as_bytes().iter().all(u8::is_ascii_hexdigit)
}

// What a command expects behind its name, None where this is no command.
fn places_of(command: &str) -> Option<&'static [Place]> {
    match command {
        "init" => Some(&[Place::Variant, Place::Module]),
        "gen" | "bulk" => Some(&[Place::Number, Place::Count, Place::Variant, Place::Module]),
        "receipts" => Some(&[Place::Key]),
        "run" | "checkpoint" | "power" | "replay" | "check" | "slots" | "transfer" | "--help" => {
            Some(&[])
        }
        _ => None,
    }
}

/// Says what is wrong with these words, behind the program's version.
pub fn say_usage(rt: &HostRuntime, words: &[&str]) -> io::Result<()> {
    eprint!(rt; "memoir {VERSION}: ")?;
    match words {
        [] => eprint!(rt; "no command is given, or no UTF-8: `memoir --help` lists commands\n"),
        [command, rest @ ..] => match places_of(command) {
            Some(places) => say_wrong(rt, command, places, rest),
            None => eprint!(rt; "{command:?} is no command: `memoir --help` lists them\n"),
        },
    }
}

// Says which of the words behind a command's name is wrong, the first of them.
fn say_wrong(rt: &HostRuntime, command: &str, places: &[Place], words: &[&str]) -> io::Result<()> {
    for at in 0..places.len() {
        let place = places[at];
        match words.get(at) {
            Some(word) if place.takes(word) => {}
            word => return say_word(rt, command, place, word.copied()),
        }
    }
    say_behind(rt, command, words.get(places.len()).copied())
}

// Says that this word, or none, stands in a place.
fn say_word(rt: &HostRuntime, command: &str, place: Place, word: Option<&str>) -> io::Result<()> {
    let expected = place.expected();
    let names = place.names();
    match word {
        Some(word) => eprint!(rt; "{command}: {word:?} stands for {expected}{names}\n"),
        None => eprint!(rt; "{command}: there is no {expected}{names}\n"),
    }
}

// Where the input of a command is that has one.
fn input_of(command: &str) -> &'static str {
    match command {
        "run" | "replay" | "check" | "slots" | "transfer" | "receipts" =>
            ": it reads standard input",
        _ => "",
    }
}

// Says that this word is one too many.
fn say_behind(rt: &HostRuntime, command: &str, word: Option<&str>) -> io::Result<()> {
    let input = input_of(command);
    match word {
        Some(word) => eprint!(rt; "{command}: {word:?} is a word too many{input}\n"),
        None => eprint!(rt; "the words are no command: `memoir --help` lists them\n"),
    }
}
