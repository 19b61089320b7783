//! Commands one after another over the same devices.

ghost use Rattle.std.specs.Prelude.{◌<◌};

use crate::lines::{given, is_told, told, without_mark};
use crate::notes::TableNotes;
use crate::setup::Setup;
use mm_app::memoir;
use mm_base::{MemSink, MemSource, Sink, Source};
use mm_bytes::{Bytes, Memory, read_decimal};
use mm_platform::Platform;
use mm_store::{LONGEST_SLOT, Store};
use std::alloc::Global;

// Does what the words say, and answers the exit status.
fn code<P: Platform, T: Store, S: Source, E: Source, K: Sink>(
    alloc: Global,
    words: &[&str],
    platform: &mut P,
    store: &mut T,
    input: &mut S,
    entropy: &mut E,
    out: &mut K,
) -> u8 {
    memoir(alloc, words, platform, store, input, entropy, out).code()
}

fn size(number: u64) -> usize {
    usize::try_from(number).unwrap_or(usize::MAX)
}

/// What the entropy gives.
const SECRETS: [u8; 64] = [7; 64];

// The input.
fn input_over(alloc: Global, setup: &Setup, content: &[u8]) -> Result<MemSource, Memory> {
    let piece = size(setup.piece).max(1);
    MemSource::in_pieces(alloc, content, &[setup.read], piece)
}

// The entropy.
fn entropy_over(alloc: Global, setup: &Setup) -> Result<MemSource, Memory> {
    let piece = size(setup.secrets_piece).max(1);
    let (secrets, _) = SECRETS.split_at(size(setup.secrets).min(64));
    MemSource::in_pieces(alloc, secrets, &[setup.secret], piece)
}

/// Does what the words say over these devices on such an input, notes what was written, and answers
/// the exit status.
pub fn run<P: Platform, T: Store>(
    notes: &mut TableNotes,
    words: &[&str],
    setup: &Setup,
    content: &[u8],
    platform: &mut P,
    store: &mut T,
) -> Result<u64, Memory> {
    let alloc = notes.alloc;
    let mut input = input_over(alloc, setup, content)?;
    let mut entropy = entropy_over(alloc, setup)?;
    let mut out = MemSink::new(alloc, size(setup.room), &[setup.write])?;
    let code = code(
        alloc,
        words,
        platform,
        store,
        &mut input,
        &mut entropy,
        &mut out,
    );
    notes.write(out.content())?;
    Ok(u64::from(code))
}

// The words of a text; `()` is none.
fn words_of(alloc: Global, text: &str) -> Result<Vec<&str>, Memory> {
    let mut words = Vec::new(alloc);
    for word in text.split(" ") {
        if word != "()" {
            words.push(word)?;
        }
    }
    Ok(words)
}

// Puts a slot of a store into another one.
fn copy_slot<T: Store>(alloc: Global, slot: u8, store: &mut T, into: &mut T) -> bool
    requires { slot < 4 }
{
    let Ok(bytes) = store.read(alloc, slot) else {
        return false;
    };
    let bytes = bytes.as_slice();
    bytes.len() <= LONGEST_SLOT && into.write(slot, bytes).is_ok()
}

// Puts a store's slots into another one.
fn copy_slots<T: Store>(alloc: Global, store: &mut T, into: &mut T) -> bool {
    for slot in 0..4 {
        if !copy_slot(alloc, slot, store, into) {
            return false;
        }
    }
    true
}

// The status that a row tells, or else the options.
fn status_in(row: &str, setup: &Setup) -> Option<u64> {
    if row.is_empty() {
        return Some(setup.status);
    }
    let (word, _) = row.split_once(" ").unwrap_or((row, ""));
    read_decimal(word.as_bytes())
}

// The words of a command's first line, and its options.
fn head_of(command: &str) -> (&str, &str) {
    let head = command.lines().next().unwrap_or("");
    head.split_once(" | ").unwrap_or((head, "status 0"))
}

// What a command is given.
fn input_of(notes: &TableNotes, command: &str, setup: &Setup) -> Result<Bytes, Memory> {
    if setup.piped == 0 {
        return given(notes.alloc, command);
    }
    Bytes::copy_of(notes.alloc, notes.last.as_slice())
}

// Runs a command with these options, and says whether it comes to what a row or else its own lines
// tell.
fn does_with<P: Platform, T: Store>(
    notes: &mut TableNotes,
    command: &str,
    setup: &Setup,
    row: &str,
    platform: &mut P,
    store: &mut T,
) -> Result<bool, Memory> {
    let (text, _) = head_of(command);
    let words = words_of(notes.alloc, text)?;
    let input = input_of(notes, command, setup)?;
    let expected = told(notes.alloc, command, row)?;
    let content = without_mark(input.as_slice());
    let code = run(notes, &words, setup, content, platform, store)?;
    let is_code = status_in(row, setup) == Some(code);
    let is_so = is_code && is_told(notes.last.as_slice(), expected.as_slice());
    notes.tell(is_so, command, code)
}

/// The same of a command whose options stand in its first line; `keep` puts the store's slots by,
/// and `back` puts them back.
pub fn does<P: Platform, T: Store>(
    notes: &mut TableNotes,
    command: &str,
    row: &str,
    platform: &mut P,
    store: &mut T,
    old: &mut T,
) -> Result<bool, Memory> {
    match command {
        "keep" => return Ok(copy_slots(notes.alloc, store, old)),
        "back" => return Ok(copy_slots(notes.alloc, old, store)),
        _ => {}
    }
    let (_, options) = head_of(command);
    match Setup::of(options) {
        Some(setup) => does_with(notes, command, &setup, row, platform, store),
        None => notes.tell(false, command, 0),
    }
}

/// Whether the commands of a scene come to what a row tells, a part for each; or else to what their
/// own lines tell.
pub fn plays<P: Platform, T: Store>(
    notes: &mut TableNotes,
    scene: &str,
    row: &str,
    platform: &mut P,
    store: &mut T,
    old: &mut T,
) -> Result<bool, Memory> {
    let mut parts = row.split(" / ");
    for command in scene.split("\n$ ") {
        let part = match parts.next() {
            Some(part) => part,
            None if row.is_empty() => "",
            None => return notes.tell(false, command, 0),
        };
        if !does(notes, command, part, platform, store, old)? {
            return Ok(false);
        }
    }
    Ok(parts.next().is_none())
}
