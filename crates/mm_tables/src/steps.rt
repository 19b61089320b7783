//! Schedules with a step of a call, or its stop, a line: played by a slot of a platform, where each
//! call goes step by step.

use crate::devices::alone;
use crate::lines::told;
use crate::notes::TableNotes;
use crate::setup::Setup;
use mm_bytes::{Bytes, Memory};
use std::alloc::Global;

// The step that stands behind a word, and what stands behind it.
fn step_behind<'a>(line: &'a str, word: &str) -> Option<(&'a str, &'a str)> {
    line.strip_prefix(word)?.split_once(" ")
}

// The step before which others bring a value, the value, and the rest of an event's line.
fn meddle_in(line: &str) -> (&str, &str, &str) {
    let Some((step, rest)) = step_behind(line, "meddle ") else {
        return ("", "", line);
    };
    match rest.split_once(" ") {
        Some((value, call)) => (step, value, call),
        None => ("", "", line),
    }
}

// The step that ends a call, how it does, and the rest of an event's line.
fn stop_in(line: &str) -> (&str, &'static str, &str) {
    if let Some((step, call)) = step_behind(line, "cut ") {
        return (step, "cut", call);
    }
    if let Some((step, call)) = step_behind(line, "drop ") {
        return (step, "drop", call);
    }
    let Some((step, rest)) = step_behind(line, "fail ") else {
        return ("", "", line);
    };
    match rest.split_once(" ") {
        Some(("done", call)) => (step, "fail done", call),
        Some((_, call)) => (step, "fail undone", call),
        None => ("", "", line),
    }
}

// Puts a line of two parts.
fn put_line(lines: &mut Bytes, front: &str, back: &str) -> Result<(), Memory> {
    lines.append(front.as_bytes())?;
    lines.append(back.as_bytes())?;
    lines.push(b'\n')
}

// Puts the line that begins a call of slot 0, or that is common to all slots.
fn put_beginning(lines: &mut Bytes, call: &str) -> Result<(), Memory> {
    if let Some(asked) = call.strip_prefix("ask ") {
        return put_line(lines, "0 begin ", asked);
    }
    put_line(
        lines,
        "",
        if call == "checkpoint" {
            "0 close"
        } else {
            call
        },
    )
}

// Puts the lines of an event, of a call with more steps than it has.
fn put_event(lines: &mut Bytes, line: &str) -> Result<(), Memory> {
    let (step_of_value, value, rest) = meddle_in(line);
    let (step_of_end, end, call) = stop_in(rest);
    put_beginning(lines, call)?;
    for step in ["1", "2", "3", "4", "5", "6"] {
        if step == step_of_value {
            put_line(lines, "0 extend ", value)?;
        }
        put_line(lines, "0 ", if step == step_of_end { end } else { "step" })?;
    }
    Ok(())
}

// The lines of a platform with one slot for a schedule, of which the first line is none.
fn in_steps(alloc: Global, scene: &str) -> Result<Bytes, Memory> {
    let mut lines = Bytes::copy_of(alloc, b"memoir slots 1 1\n")?;
    for line in scene.lines().skip(1) {
        match line.strip_prefix("memoir 1 ") {
            Some(slot) => put_line(&mut lines, "", slot)?,
            None => put_event(&mut lines, line)?,
        }
    }
    Ok(lines)
}

// Whether a line of slot 0 tells the reply of no event.
fn tells_no_end(said: &[u8]) -> bool {
    said == b"begun".as_slice()
        || said == b"no idle".as_slice()
        || said == b"extended".as_slice()
        || said.starts_with(b"going ")
}

// Puts the reply that a line of slot 0 tells, as a replay tells it.
fn put_told(replies: &mut Bytes, line: &[u8]) -> Result<(), Memory> {
    if let Some(counts) = line.strip_prefix(b"end 0") {
        replies.append(b"end")?;
        replies.append(counts)?;
        return replies.push(b'\n');
    }
    let said = line.strip_prefix(b"0 ").unwrap_or(line);
    if said.is_empty() || tells_no_end(said) {
        return Ok(());
    }
    replies.append(said)?;
    replies.push(b'\n')
}

// The replies to events.
fn replies_in(alloc: Global, written: &[u8]) -> Result<Bytes, Memory> {
    let mut replies = Bytes::new(alloc);
    for line in written.split(|byte| *byte == b'\n') {
        put_told(&mut replies, line)?;
    }
    Ok(replies)
}

/// Whether a schedule gets the replies of a row from a slot; what a call in flight is told is left
/// out.
pub fn over_slot(notes: &mut TableNotes, scene: &str, row: &str) -> Result<bool, Memory> {
    let lines = in_steps(notes.alloc, scene)?;
    let code = alone(notes, "slots", &Setup::new(), lines.as_slice())?;
    let replies = replies_in(notes.alloc, notes.last.as_slice())?;
    let expected = told(notes.alloc, "", row)?;
    notes.tell(
        code == 0 && replies.as_slice() == expected.as_slice(),
        scene,
        code,
    )
}
