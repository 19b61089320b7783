//! The lines of a table, and what stands for many bytes in them.

use mm_bytes::{Bytes, Memory, put_numbered, read_decimal};
use std::alloc::Global;

/// The first of the numbers of a range, as `1..40`, and the one behind its last.
pub fn range_in(text: &str) -> Option<(u64, u64)> {
    let (first, last) = text.split_once("..")?;
    let first = read_decimal(first.as_bytes())?;
    let last = read_decimal(last.as_bytes())?;
    Some((first, last.saturating_add(1)))
}

// Puts a text. `a^40` at its end stands for 40 letters.
fn put_text(into: &mut Bytes, text: &str) -> Result<(), Memory> {
    let Some((front, count)) = text.split_once("a^") else {
        return into.append(text.as_bytes());
    };
    into.append(front.as_bytes())?;
    let count = read_decimal(count.as_bytes()).unwrap_or(0);
    for _ in 0..count {
        into.push(b'a')?;
    }
    Ok(())
}

// Puts a line with its LF. One that ends with `…` is cut off there, and keeps that mark.
fn put_line(into: &mut Bytes, line: &str) -> Result<(), Memory> {
    let Some(text) = line.strip_suffix("…") else {
        put_text(into, line)?;
        return into.push(b'\n');
    };
    put_text(into, text)?;
    into.append("…".as_bytes())
}

// Puts a line with a number in the place of `#`.
fn put_filled(into: &mut Bytes, line: &str, number: u64) -> Result<(), Memory> {
    let Some((front, back)) = line.split_once("#") else {
        return put_line(into, line);
    };
    put_numbered(into, front.as_bytes(), number)?;
    put_line(into, back)
}

// A range and a line, as `1..40: add #`, which stands for so many lines.
fn ranged(line: &str) -> Option<(u64, u64, &str)> {
    let (numbers, text) = line.split_once(": ")?;
    let (first, end) = range_in(numbers)?;
    Some((first, end, text))
}

/// Puts the lines that a line of a table stands for.
pub fn put_lines(into: &mut Bytes, line: &str) -> Result<(), Memory> {
    let Some((first, end, text)) = ranged(line) else {
        return put_line(into, line);
    };
    for number in first..end {
        put_filled(into, text, number)?;
    }
    Ok(())
}

/// The lines that a command is given: those behind its words that aren't told behind an arrow.
pub fn given(alloc: Global, command: &str) -> Result<Bytes, Memory> {
    let mut lines = Bytes::new(alloc);
    for line in command.lines().skip(1) {
        if !line.starts_with("=> ") {
            put_lines(&mut lines, line)?;
        }
    }
    Ok(lines)
}

// The lines that are told behind arrows.
fn told_behind_arrows(alloc: Global, command: &str) -> Result<Bytes, Memory> {
    let mut lines = Bytes::new(alloc);
    for line in command.lines() {
        if let Some(told) = line.strip_prefix("=> ") {
            put_lines(&mut lines, told)?;
        }
    }
    Ok(lines)
}

// The lines that stand between commas.
fn told_between_commas(alloc: Global, text: &str) -> Result<Bytes, Memory> {
    let mut lines = Bytes::new(alloc);
    for line in text.split(", ") {
        put_lines(&mut lines, line)?;
    }
    Ok(lines)
}

/// The lines that a command has to write: those of a row behind its status, or of its own where
/// there is no row.
pub fn told(alloc: Global, command: &str, row: &str) -> Result<Bytes, Memory> {
    if row.is_empty() {
        return told_behind_arrows(alloc, command);
    }
    match row.split_once(" ") {
        Some((_, text)) => told_between_commas(alloc, text),
        None => Ok(Bytes::new(alloc)),
    }
}

/// Bytes without the mark of a line that is cut off.
pub fn without_mark(bytes: &[u8]) -> &[u8] {
    bytes.strip_suffix("…".as_bytes()).unwrap_or(bytes)
}

/// Whether these bytes are those that are told. Where these have the mark in a line of its own,
/// others may follow.
pub fn is_told(written: &[u8], told: &[u8]) -> bool {
    match told.strip_suffix("…".as_bytes()) {
        Some(front) if front.is_empty() || front.ends_with(b"\n") => written.starts_with(front),
        Some(front) => written == front,
        None => written == told,
    }
}
