//! What a line asks.

use mm_bytes::read_decimal;

/// A word, and the numbers behind it, 0 where there is none.
#[derive(Drop)]
pub struct WatchCommand<'a> {
    pub word: &'a str,
    pub first: u16,
    pub second: u16,
    pub third: u16,
}

/// What this line asks.
pub fn read_line(line: &str) -> WatchCommand<'_> {
    let (word, rest) = front_of(line);
    let (first, rest) = front_of(rest);
    let (second, third) = front_of(rest);
    WatchCommand {
        word,
        first: number(first),
        second: number(second),
        third: number(third),
    }
}

// The first word of a text, and the rest.
fn front_of(text: &str) -> (&str, &str) {
    match text.split_once(' ') {
        Some((word, rest)) => (word, rest),
        None => (text, ""),
    }
}

fn number(word: &str) -> u16 {
    read_decimal(word.as_bytes()).unwrap_or(0).min(65535) as u16
}

/// What a call answers that gives nothing: 0, and none where it fails.
pub fn done<E: Drop>(outcome: Result<(), E>) -> Option<u64> {
    match outcome {
        Ok(()) => Some(0),
        Err(_) => None,
    }
}

/// A byte of these, 0 for a place beyond their end.
pub fn byte_in(bytes: &[u8], at: u16) -> u64 {
    match bytes.get(usize::from(at)) {
        Some(byte) => u64::from(*byte),
        None => 0,
    }
}
