//! The input, of which what was handed out last is kept: a line that the program calls bad can be
//! looked at then.

ghost use Rattle.std.specs.Prelude.{◌≡◌};

use mm_base::Source;
use mm_bytes::{Failed, Memory};
use std::alloc::Global;

/// How many bytes are kept at least, as far as there were so many: as many as a reader of lines
/// holds.
const KEPT: usize = 32768;

/// The bytes that were handed out last.
#[derive(Drop)]
pub struct KeptText {
    alloc: Global,
    // None where they aren't kept, or there was want of memory.
    bytes: Option<Vec<u8>>,
    // How many lines ended before these bytes, and whether they begin inside another.
    lines: u32,
    is_cut: bool,
}

/// A line, without its line feed.
#[derive(Clone, Copy)]
pub struct KeptLine<'a> {
    pub text: &'a [u8],
    /// Whether a line feed ends it.
    pub is_ended: bool,
}

impl KeptText {
    fn new(alloc: Global, is_kept: bool) -> KeptText {
        KeptText {
            alloc,
            bytes: if is_kept { Some(Vec::new(alloc)) } else { None },
            lines: 0,
            is_cut: false,
        }
    }

    fn keep(&mut self, piece: &[u8]) {
        if self.add(piece).is_err() {
            self.bytes = None;
        }
    }

    // Adds these behind the others, of which the first are let go where they are many.
    fn add(&mut self, piece: &[u8]) -> Result<(), Memory> {
        let Some(bytes) = &mut self.bytes else {
            return Ok(());
        };
        let count = bytes.len();
        if count >= 2 * KEPT {
            let (front, back) = bytes.split_at(count - KEPT);
            self.lines = self.lines.saturating_add(line_feeds(front));
            self.is_cut = !front.ends_with(b"\n");
            let back = Vec::from_slice(self.alloc, back)?;
            *bytes = back;
        }
        bytes.extend_from_slice(piece)?;
        Ok(())
    }

    /// The line of this number, from 1, or what stands behind the last of them. None where it isn't
    /// kept.
    pub fn line(&self, number: u32) -> Option<KeptLine<'_>> {
        let mut rest = self.bytes.as_ref()?.as_slice();
        let before = number.checked_sub(1)?.checked_sub(self.lines)?;
        if before == 0 && self.is_cut {
            return None;
        }
        for _ in 0..before {
            rest = split_line(rest)?.1;
        }
        match split_line(rest) {
            Some((text, _)) => Some(KeptLine {
                text,
                is_ended: true,
            }),
            None => Some(KeptLine {
                text: rest,
                is_ended: false,
            }),
        }
    }
}

// How many line feeds there are.
fn line_feeds(bytes: &[u8]) -> u32 {
    let mut count: u32 = 0;
    for byte in bytes {
        if *byte == b'\n' {
            count = count.saturating_add(1);
        }
    }
    count
}

// What stands before the first line feed, and behind it.
fn split_line(bytes: &[u8]) -> Option<(&[u8], &[u8])> {
    let at = bytes.iter().position(|byte| *byte == b'\n')?;
    let (line, rest) = bytes.split_at(at);
    Some((line, rest.split_first()?.1))
}

/// A source over another, which tells what that tells.
#[derive(Drop)]
pub struct KeptSource<S> {
    pub source: S,
    pub text: KeptText,
}

impl<S: Source> KeptSource<S> {
    /// That over this source, which keeps what it hands out or doesn't.
    pub fn new(alloc: Global, source: S, is_kept: bool) -> KeptSource<S>
        ensures { result.source ≡ source }
    {
        KeptSource {
            source,
            text: KeptText::new(alloc, is_kept),
        }
    }
}

impl<S: Source> Source for KeptSource<S> {
    ghost left = { λ it. S.left it.source };

    ghost faults = { λ it. S.faults it.source };

    fn take(&mut self, buf: &mut [u8]) -> Result<usize, Failed> {
        let count = self.source.take(buf)?;
        self.text.keep(&buf[..count]);
        Ok(count)
    }
}
