//! Lines with one reply for each event: given in pieces, cut off at each byte, and over an input
//! and an output of which one call fails.

use crate::devices::alone;
use crate::lines::{given, told};
use crate::notes::TableNotes;
use crate::setup::Setup;
use mm_bytes::{Bytes, Memory, put_decimal};
use std::alloc::Global;

// Lines that a command plays: its word, the lines, what is written for them, and how many of them
// stand before the first event.
#[derive(Clone, Copy)]
struct PlayedLines<'a> {
    word: &'a str,
    lines: &'a [u8],
    replies: &'a [u8],
    heads: usize,
}

// Whether lines in pieces of so many bytes get the same replies.
fn is_same_in(
    notes: &mut TableNotes,
    played: &PlayedLines<'_>,
    piece: u64,
) -> Result<bool, Memory> {
    let mut setup = Setup::new();
    setup.piece = piece;
    let code = alone(notes, played.word, &setup, played.lines)?;
    Ok(code == 0 && notes.last.as_slice() == played.replies)
}

fn play_pieces(notes: &mut TableNotes, played: &PlayedLines<'_>) -> Result<(), Memory> {
    for piece in [1, 2, 7, 4096] {
        let is_so = is_same_in(notes, played, piece)?;
        notes.count(is_so, "pieces")?;
    }
    Ok(())
}

// The first lines of a text.
fn first_lines(text: &[u8], count: usize) -> &[u8] {
    let mut rest = text;
    for _ in 0..count {
        rest = match rest.iter().position(|byte| *byte == b'\n') {
            Some(end) => rest.split_at(end + 1).1,
            None => &[],
        };
    }
    text.split_at(text.len().saturating_sub(rest.len())).0
}

// The stop line of a line with this number.
fn stop_at(alloc: Global, line: u64) -> Result<Bytes, Memory> {
    let mut stop = Bytes::copy_of(alloc, b"stop line ")?;
    put_decimal(&mut stop, line)?;
    stop.push(b'\n')?;
    Ok(stop)
}

// Whether what is written behind the replies is an end, or the line of a stop where the last line
// is cut off.
fn is_ended(
    alloc: Global,
    last: &[u8],
    code: u64,
    whole: usize,
    is_whole: bool,
) -> Result<bool, Memory> {
    if is_whole {
        return Ok(code == 0 && last.starts_with(b"end "));
    }
    let stop = stop_at(alloc, (whole as u64).saturating_add(1))?;
    Ok(code == 13 && last == stop.as_slice())
}

// Whether the first bytes of lines get the replies to the whole lines among them.
fn is_cut(notes: &mut TableNotes, played: &PlayedLines<'_>, input: &[u8]) -> Result<bool, Memory> {
    let whole = input.iter().filter(|byte| **byte == b'\n').count();
    let answered = first_lines(played.replies, whole.saturating_sub(played.heads));
    let is_whole = whole >= played.heads && input.last() == Some(&b'\n');
    let code = alone(notes, played.word, &Setup::new(), input)?;
    match notes.last.as_slice().strip_prefix(answered) {
        Some(last) => is_ended(notes.alloc, last, code, whole, is_whole),
        None => Ok(false),
    }
}

fn play_cut(notes: &mut TableNotes, played: &PlayedLines<'_>) -> Result<(), Memory> {
    for length in 0..played.lines.len() {
        let (input, _) = played.lines.split_at(length);
        let is_so = is_cut(notes, played, input)?;
        notes.count(is_so, "cut off")?;
    }
    Ok(())
}

// Whether a failed call was told: replies before it, and the line of its stop.
fn is_stopped(written: &[u8], replies: &[u8], stop: &[u8]) -> bool {
    match written.strip_suffix(stop) {
        Some(before) => written != replies && replies.starts_with(before),
        None => false,
    }
}

// Plays lines over streams of which one call fails, and counts that where it was made.
fn play_failing(
    notes: &mut TableNotes,
    played: &PlayedLines<'_>,
    setup: &Setup,
    stop: &[u8],
    status: u64,
) -> Result<(), Memory> {
    let code = alone(notes, played.word, setup, played.lines)?;
    let written = notes.last.as_slice();
    if code == 0 && written == played.replies {
        return Ok(());
    }
    let is_so = code == status && is_stopped(written, played.replies, stop);
    notes.count(is_so, "failing")
}

// The same with the input in pieces of 7 bytes; and byte by byte where a call of the output fails,
// so that each reply is a call of its own.
fn play_stops(notes: &mut TableNotes, played: &PlayedLines<'_>) -> Result<(), Memory> {
    let mut reading = Setup::new();
    reading.piece = 7;
    let mut writing = Setup::new();
    writing.piece = 1;
    for call in 1..100 {
        reading.read = call;
        play_failing(notes, played, &reading, b"stop read\n", 3)?;
        writing.write = call;
        play_failing(notes, played, &writing, b"", 4)?;
    }
    Ok(())
}

// The lines before the first event.
fn heads_of(word: &str) -> usize {
    if word == "slots" { 3 } else { 1 }
}

/// Plays the lines behind a word in all these ways, each a case.
pub fn play_broken(notes: &mut TableNotes, scene: &str) -> Result<(), Memory> {
    let word = scene.lines().next().unwrap_or("");
    let lines = given(notes.alloc, scene)?;
    let replies = told(notes.alloc, scene, "")?;
    let played = PlayedLines {
        word,
        lines: lines.as_slice(),
        replies: replies.as_slice(),
        heads: heads_of(word),
    };
    play_pieces(notes, &played)?;
    play_cut(notes, &played)?;
    play_stops(notes, &played)
}
