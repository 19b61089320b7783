//! What is wrong with a bad line: which word, and what was expected there.

use crate::kept::{KeptLine, KeptText};
use crate::place::{Input, Place, Walk, slot_count};
use std::io;

/// How many bytes of a word are shown.
const SHOWN: usize = 40;

/// A word that is wrong, none where the line ends before it.
#[derive(Drop)]
struct WrongWord<'a> {
    place: Place,
    word: Option<&'a [u8]>,
    /// Which word of the line it is, and at which of its bytes it begins, both from 1.
    number: usize,
    column: usize,
}

// The input that a command reads by words.
fn input_of(command: &str, text: &KeptText) -> Option<Input> {
    match command {
        "replay" => Some(Input::Schedule),
        "check" => Some(Input::Check),
        "slots" => Some(Input::Slots(slots_in(text))),
        "transfer" => Some(Input::Transfer),
        "receipts" => Some(Input::Receipts),
        _ => None,
    }
}

// How many slots the first line tells, where it is kept.
fn slots_in(text: &KeptText) -> u64 {
    match text.line(1) {
        Some(line) => line
            .text
            .strip_prefix(b"memoir slots 1 ")
            .and_then(slot_count)
            .unwrap_or(0),
        None => 0,
    }
}

/// Whether a command reads an input by words.
pub fn is_read_by_words(words: &[&str]) -> bool {
    matches!(
        words.first().copied(),
        Some("replay" | "check" | "slots" | "transfer" | "receipts")
    )
}

// The first word of a line that is wrong.
fn wrong_word<'a>(walk: &mut Walk, first: Place, line: &'a [u8]) -> Option<WrongWord<'a>> {
    let mut place = first;
    let mut rest = line;
    for number in 1..usize::MAX {
        let column = line.len().saturating_sub(rest.len()).saturating_add(1);
        let (word, behind) = split_word(rest);
        match (place, walk.next(place, word), behind) {
            (Place::Text, _, _) | (_, Some(Place::End), None) => return None,
            (Place::End, _, _) => return Some(WrongWord {
                place,
                word: Some(rest),
                number,
                column,
            }),
            (_, None, _) => return Some(WrongWord {
                place,
                word: Some(word),
                number,
                column,
            }),
            (_, Some(next), None) => {
                let number = number.saturating_add(1);
                let column = line.len().saturating_add(1);
                return Some(WrongWord {
                    place: next,
                    word: None,
                    number,
                    column,
                });
            }
            (_, Some(next), Some(behind)) => {
                place = next;
                rest = behind;
            }
        }
    }
    None
}

// The first word, and what stands behind the space that ends it.
fn split_word(line: &[u8]) -> (&[u8], Option<&[u8]>) {
    match line.iter().position(|byte| *byte == b' ') {
        Some(at) => {
            let (word, rest) = line.split_at(at);
            (word, rest.get(1..))
        }
        None => (line, None),
    }
}

/// Says what is wrong with the line of this number. `Ok(false)` where that isn't known.
pub fn say_bad_line(
    rt: &HostRuntime,
    command: &str,
    number: u32,
    text: &KeptText,
) -> io::Result<bool> {
    match (input_of(command, text), text.line(number)) {
        (
            Some(input),
            Some(
                KeptLine {
                    text: line,
                    is_ended: true,
                },
            ),
        ) => {
            let mut walk = Walk::new(input);
            let first = walk.first(number);
            match wrong_word(&mut walk, first, line) {
                Some(wrong) => say_word(rt, input, number, &wrong),
                None => Ok(false),
            }
        }
        (
            Some(_),
            Some(
                KeptLine {
                    text: [_, ..],
                    is_ended: false,
                },
            ),
        ) => {
            eprint!(rt; "line {number}: no line feed ends it\n")?;
            Ok(true)
        }
        _ => Ok(false),
    }
}

// Says of a word that it is wrong.
fn say_word(rt: &HostRuntime, input: Input, line: u32, wrong: &WrongWord<'_>) -> io::Result<bool> {
    let place = wrong.place;
    let (expected, names) = (place.expected(input), place.names());
    let (number, column) = (wrong.number, wrong.column);
    eprint!(rt; "line {line}, word {number} (column {column}): ")?;
    match wrong.word {
        None => eprint!(rt; "there is no {expected}{names}")?,
        Some(word) => say_shown(rt, word)?,
    }
    match (wrong.word, place) {
        (None, _) => {}
        (_, Place::End) => eprint!(rt; " stands behind the line's last word")?,
        _ => eprint!(rt; " stands for {expected}{names}")?,
    }
    eprint!(rt; "; more in man memoir and docs/FORMATS.md\n")?;
    Ok(true)
}

// Shows the front of a word.
fn say_shown(rt: &HostRuntime, word: &[u8]) -> io::Result<()> {
    let (front, rest) = word.split_at(word.len().min(SHOWN));
    let shown = front.escape_ascii();
    let dots = if rest.is_empty() { "" } else { ".." };
    eprint!(rt; "\"{shown}{dots}\"")
}
