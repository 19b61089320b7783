//! Lines of a source, one at a time.

ghost use Rattle.std.specs.Prelude.{◌≡◌, ◌≢◌, ◌+◌, ◌-◌, ◌<◌, ◌≤◌, List, ℕ, [], length, drop, take, slice_index, slice_range, IfOk, MatchOption};
ghost use Rattle.std.specs.Io.KnownBytes.{ReadConsumes};
ghost use Rattle.mm_bytes.specs.Limits.{CountsFaults, longest_line};
ghost use Rattle.mm_base.specs.declared.lines.TheConstants.{ROOM};
ghost use Rattle.std.specs.Borrow.{sem};
ghost use Rattle.std.specs.Io.BufRead.{Rests};
ghost use Rattle.mm_base.specs.Input.{IsUnbroken, HasBreakAt, CountsReads, SeesLine, SourceRefills, ReaderSees, seen_line_at_end};

use crate::source::{Source, copy_front};
use memchr::memchr;
use mm_bytes::{Failed, Memory};
use std::alloc::Global;
use std::marker::Model;
use thiserror::Error;

/// The bytes that a reader holds at most, which are far more than a line has, so that held bytes
/// are seldom moved.
const ROOM: usize = 32768;

/// What `next` read.
#[derive(Clone, Copy)]
pub enum Read<'a> {
    /// The bytes up to the next line feed, without it.
    Line(&'a [u8]),
    /// The input ended after bytes without a line feed, which stay held.
    Tail,
    /// The input ended and nothing is held.
    End,
}

/// Why `next` read nothing.
#[derive(Clone, Copy, Debug, PartialEq, Eq, Error)]
pub enum LineFault {
    /// The source failed. The bytes held stay, and the next call goes on.
    #[error("the input failed")]
    ReadFault,
    /// More bytes than a line may have came without a line feed. They stay held.
    #[error("a line is too long")]
    LineLong,
}

/// What stands at the front of the bytes held.
enum SeenLine {
    Line { size: usize },
    Tail,
    End,
}

/// A reader of lines. Contracts see it as the bytes that it holds: those taken from the source and
/// not yet given out. It may take more of the source than the line that it gives.
#[derive(Drop)]
pub struct LineReader {
    held: HeldBytes,
}

impl Model for LineReader {
    ghost use Rattle.std.specs.Prelude.{List, ℕ};
    ghost use Rattle.mm_base.specs.Streams.{held_bytes};

    ghost Value = { List ℕ };

    ghost view = { λ reader. held_bytes reader.held };
}

impl LineReader {
    ghost use Rattle.mm_base.specs.Streams.{ReadsNextLine};
    ghost use Rattle.mm_base.specs.Input.{HoldsLine};
    ghost use Rattle.mm_base.specs.contracts.lines.LineReader.{the_row};

    /// A reader that holds nothing. Reserves all its room, 32,768 bytes.
    pub fn new(alloc: Global) -> Result<LineReader, Memory>
        ensures { IfOk result (λ reader. reader ≡ []) }
    {
        let held = HeldBytes::new(alloc)?;
        Ok(LineReader { held })
    }

    /// Whether a whole line is held, of any length, so that `next` asks the source for nothing.
    pub fn has_line(&mut self) -> bool
        ensures same { self.new ≡ self.old }
        ensures held { HoldsLine self.old result }
    {
        self.held.find_break().is_some()
    }

    /// The next line of the source, of at most `limit` bytes. Takes no memory.
    pub fn next<S: Source>(&mut self, source: &mut S, limit: usize) -> Result<Read<'_>, LineFault>
        requires { limit ≤ longest_line }
        ensures* after { sem 𝓛
            (Rests the_row self.entry
            (ReadsNextLine limit (S.left source.old) (S.left source.new) self.old result)) }
        ensures counted { CountsReads (S.faults source.old) (S.faults source.new) result }
    {
        match self.held.see(source, limit)? {
            SeenLine::Line { size } => {
                self.held.skip(size);
                let end = self.held.start - 1;
                Ok(Read::Line(&self.held.buffer[end - size..end]))
            }
            SeenLine::Tail => Ok(Read::Tail),
            SeenLine::End => Ok(Read::End),
        }
    }
}

/// The bytes taken from a source and not yet given out: those of `buffer` from `start` to `end`. No
/// line feed stands before `scanned`, so that no byte is scanned twice.
#[derive(Drop)]
struct HeldBytes {
    buffer: Vec<u8>,
    start: usize,
    scanned: usize,
    end: usize,
    ghost room: { length buffer.items ≡ ROOM },
    ghost begun: { start ≤ scanned },
    ghost seen: { scanned ≤ end },
    ghost within: { end ≤ ROOM },
    ghost unbroken: { IsUnbroken (slice_range buffer.items start scanned) },
}

impl HeldBytes {
    ghost use Rattle.mm_base.specs.Streams.{held_bytes};

    fn new(alloc: Global) -> Result<HeldBytes, Memory>
        ensures { IfOk result (λ held. held_bytes held ≡ []) }
    {
        let buffer = vec![in alloc; 0; ROOM]?;
        Ok(HeldBytes {
            buffer,
            start: 0,
            scanned: 0,
            end: 0,
        })
    }

    /// Where the first line ends, counted from the first byte held.
    fn find_break(&mut self) -> Option<usize>
        ensures same { held_bytes self.new ≡ held_bytes self.old }
        ensures found { MatchOption result (IsUnbroken (held_bytes self.old))
            (HasBreakAt (held_bytes self.old)) }
    {
        let unseen = &self.buffer[self.scanned..self.end];
        let Some(at) = line_feed(unseen) else {
            self.scanned = self.end;
            return None;
        };
        self.scanned += at;
        Some(self.scanned - self.start)
    }

    /// Looks for a line of at most `limit` bytes, and answers its length.
    fn look(&mut self, limit: usize) -> Result<Option<usize>, LineFault>
        ensures same { held_bytes self.new ≡ held_bytes self.old }
        ensures looks { SeesLine limit (held_bytes self.old) result }
    {
        match self.find_break() {
            Some(size) if size <= limit => Ok(Some(size)),
            None if self.end - self.start <= limit => Ok(None),
            _ => Err(LineFault::LineLong),
        }
    }

    /// Takes bytes until a line, the end of the input or a fault is seen.
    fn see<S: Source>(&mut self, source: &mut S, limit: usize) -> Result<SeenLine, LineFault>
        requires { limit ≤ longest_line }
        ensures seen { ReaderSees limit (S.left source.old) (S.left source.new)
            (held_bytes self.old)
            (held_bytes self.new) result }
        ensures counted { CountsReads (S.faults source.old) (S.faults source.new) result }
    {
        'refills: loop {
            if let Some(size) = self.look(limit)? {
                return Ok(SeenLine::Line { size });
            }
            match self.refill(source) {
                Err(Failed) => return Err(LineFault::ReadFault),
                Ok(0) => return Ok(self.ending()),
                Ok(_) => {}
            }
        }
    }

    /// What the end of the input leaves.
    fn ending(&self) -> SeenLine
        ensures { result ≡ seen_line_at_end (held_bytes self.now) }
    {
        if self.start == self.end {
            SeenLine::End
        } else {
            SeenLine::Tail
        }
    }

    /// Lets go of the first line, which stands before `start` then.
    fn skip(&mut self, size: usize)
        requires { HasBreakAt (held_bytes self.old) size }
        ensures rest { held_bytes self.new ≡ drop (size + 1) (held_bytes self.old) }
        ensures room { size < self.new.start }
        ensures line { slice_range self.new.buffer.items (self.new.start - 1 - size)
            (self.new.start - 1) ≡ take size (held_bytes self.old) }
    {
        self.start += size + 1;
        self.scanned = self.start;
    }

    /// Takes more bytes from the source, and answers how many.
    fn refill<S: Source>(&mut self, source: &mut S) -> Result<usize, Failed>
        requires { length (held_bytes self.old) ≤ longest_line }
        ensures refilled { SourceRefills (S.left source.old) (S.left source.new)
            (held_bytes self.old)
            (held_bytes self.new) result }
        ensures counted { CountsFaults (S.faults source.old) (S.faults source.new) result }
    {
        self.make_room();
        let Ok(count) = take_behind(source, &mut self.buffer, self.end) else {
            return Err(Failed);
        };
        self.end += count;
        Ok(count)
    }

    /// Moves the bytes to the front of the buffer where they stand at its end.
    fn make_room(&mut self)
        requires { length (held_bytes self.old) ≤ longest_line }
        ensures same { held_bytes self.new ≡ held_bytes self.old }
        ensures room { self.new.end < ROOM }
    {
        if self.end < ROOM {
            return;
        }
        let count = self.end - self.start;
        move_to_front(&mut self.buffer, self.start, count);
        self.scanned -= self.start;
        self.start = 0;
        self.end = count;
    }
}

/// Where the first line feed stands. In front it is found without a search, as one that was found
/// before is.
fn line_feed(bytes: &[u8]) -> Option<usize>
    ensures { MatchOption result (IsUnbroken bytes.now) (HasBreakAt bytes.now) }
{
    match bytes {
        [b'\n', ..] => Some(0),
        _ => memchr(b'\n', bytes),
    }
}

/// Takes bytes from the source into the buffer behind its first `at` bytes.
fn take_behind<S: Source>(source: &mut S, buffer: &mut Vec<u8>, at: usize) -> Result<usize, Failed>
    requires { at < length buffer.old.items }
    ensures room { length buffer.new.items ≡ length buffer.old.items }
    ensures front { take at buffer.new.items ≡ take at buffer.old.items }
    ensures within { IfOk result (λ count. at + count ≤ length buffer.old.items) }
    ensures taken { ReadConsumes (S.left source.old) (S.left source.new) result
        (drop at buffer.new.items) }
    ensures counted { CountsFaults (S.faults source.old) (S.faults source.new) result }
{
    let (_, free) = buffer.split_at_mut(at);
    source.take(free)
}

/// Moves the `count` bytes from `start` on to the front.
fn move_to_front(buffer: &mut [u8], start: usize, count: usize)
    requires apart { count ≤ start }
    requires within { start + count ≤ length buffer.old }
    ensures { take count buffer.new ≡ take count (drop start buffer.old) }
{
    let (front, back) = buffer.split_at_mut(start);
    copy_front(back, front, count);
}
