//! The program's input and output over a reader and a writer of which one call fails; and an input
//! that waits for replies.

ghost use Rattle.std.specs.Prelude.{None};

use crate::commands::{command, replay};
use mm_base::{MemSink, MemSource, Sink, Source};
use mm_bytes::{Failed, Memory};
use mm_files::{StdSink, StdSource};
use mm_platform::MemPlatform;
use mm_store::MemStore;
use std::alloc::Global;
use std::cell::Cell;
use std::io;
use std::io::{ErrorKind, Read, Write};
use std::test::Fail;

/// 38 bytes.
const SCHEDULE: &[u8] = b"memoir 1 basic counter\nask last add 5\n";

/// A reader of at most 7 bytes a call, of which the call with the number `failing` fails.
#[derive(Drop)]
struct FailingReader<'a> {
    left: &'a [u8],
    calls: u64,
    failing: u64,
}

impl Read for FailingReader<'_> {
    fn read(&mut self, buf: &mut [u8]) -> io::Result<usize> {
        self.calls = self.calls.saturating_add(1);
        if self.calls == self.failing {
            return Err(io::Error::from(ErrorKind::Other));
        }
        let count = self.left.len().min(buf.len()).min(7);
        let (given, left) = self.left.split_at(count);
        let (front, _) = buf.split_at_mut(count);
        front.copy_from_slice(given);
        self.left = left;
        Ok(count)
    }
}

/// A writer of at most 3 bytes a call, of which the call with the number `failing` fails.
#[derive(Drop)]
struct FailingWriter {
    received: Vec<u8>,
    calls: u64,
    failing: u64,
}

impl Write for FailingWriter {
    fn write(&mut self, buf: &[u8]) -> io::Result<usize> {
        self.calls = self.calls.saturating_add(1);
        if self.calls == self.failing {
            return Err(io::Error::from(ErrorKind::Other));
        }
        let count = buf.len().min(3);
        let (taken, _) = buf.split_at(count);
        self.received.extend_from_slice(taken)?;
        Ok(count)
    }

    fn flush(&mut self) -> io::Result<()> {
        Ok(())
    }
}

// Whether these bytes are written for an input, with this exit status.
fn comes_to<S: Source>(
    alloc: Global,
    input: &mut S,
    written: &[u8],
    code: u8,
) -> Result<bool, Memory> {
    let mut out = MemSink::new(alloc, 100, &[])?;
    Ok(replay(alloc, input, &mut out) == code && out.content() == written)
}

// The same where this call of the reader fails.
fn reads(alloc: Global, failing: u64, written: &[u8], code: u8) -> Result<bool, Memory> {
    let mut input = StdSource::new(FailingReader {
        left: SCHEDULE,
        calls: 0,
        failing,
    });
    comes_to(alloc, &mut input, written, code)
}

#[test]
fn an_error_of_the_reader_is_no_end(rt: HostRuntime) -> Result<(), Fail> {
    assert!(&rt; reads(rt.alloc(), 1, b"stop read\n", 3)?);
    assert!(&rt; reads(rt.alloc(), 6, b"stop read\n", 3)?);
    assert!(&rt; reads(rt.alloc(), 7, b"ok 1 5\nstop read\n", 3)?);
    assert!(&rt; reads(rt.alloc(), 8, b"ok 1 5\nend 1 2\n", 0)?);
    Ok(())
}

// Replays an input into a writer, and answers the exit status.
fn replay_into(alloc: Global, input: &mut MemSource, writer: &mut FailingWriter) -> u8 {
    let mut out = StdSink::new(writer);
    replay(alloc, input, &mut out)
}

// Replays the schedule into a writer, and answers the exit status.
fn code_into(alloc: Global, writer: &mut FailingWriter) -> Result<u8, Memory> {
    let mut input = MemSource::new(alloc, SCHEDULE, &[])?;
    Ok(replay_into(alloc, &mut input, writer))
}

// Whether the exit status is this one where this call of the writer fails, and the writer received
// these bytes.
fn gives(alloc: Global, failing: u64, received: &[u8], code: u8) -> Result<bool, Memory> {
    let mut writer = FailingWriter {
        received: Vec::new(alloc),
        calls: 0,
        failing,
    };
    let is_code = code_into(alloc, &mut writer)? == code;
    Ok(is_code && writer.received.as_slice() == received)
}

#[test]
fn an_error_of_the_writer_is_no_write(rt: HostRuntime) -> Result<(), Fail> {
    assert!(&rt; gives(rt.alloc(), 1, b"", 4)?);
    assert!(&rt; gives(rt.alloc(), 3, b"ok 1 5", 4)?);
    assert!(&rt; gives(rt.alloc(), 5, b"ok 1 5\nend", 4)?);
    assert!(&rt; gives(rt.alloc(), 7, b"ok 1 5\nend 1 2\n", 0)?);
    Ok(())
}

/// A source that gives one line a call, one and three others, and fails where a line that it gave
/// was not answered yet, but for so many of the first.
#[derive(Drop)]
struct Waiting<'a> {
    first: &'a [u8],
    others: &'a [u8],
    unanswered: u64,
    given: u64,
    replies: &'a Cell<u64>,
    faults: u64,
}

impl Source for Waiting<'_> {
    ghost left = { λ _. None };

    ghost faults = { λ source. source.faults };

    fn take(&mut self, buf: &mut [u8]) -> Result<usize, Failed> {
        if self.replies.get() < self.given.saturating_sub(self.unanswered) {
            self.faults = self.faults.saturating_add(1);
            return Err(Failed);
        }
        let line = match self.given {
            0 => self.first,
            1..=3 => self.others,
            _ => return Ok(0),
        };
        self.given += 1;
        let count = line.len().min(buf.len());
        let (given, _) = line.split_at(count);
        let (front, _) = buf.split_at_mut(count);
        front.copy_from_slice(given);
        Ok(count)
    }
}

/// A sink that counts the lines that it receives.
#[derive(Drop)]
struct Counting<'a> {
    replies: &'a Cell<u64>,
}

impl Sink for Counting<'_> {
    ghost received = { λ _. None };

    ghost faults = { λ _. 0 };

    fn give(&mut self, piece: &[u8]) -> Result<usize, Failed> {
        let lines = piece.iter().filter(|byte| **byte == b'\n').count() as u64;
        self.replies.set(self.replies.get().saturating_add(lines));
        Ok(piece.len())
    }
}

// Starts a counter and serves an input by it, and answers the exit status.
fn serve<S: Source, K: Sink>(alloc: Global, input: &mut S, out: &mut K) -> u8 {
    let mut platform = MemPlatform::new(alloc, &[0; 104]);
    let mut store = MemStore::new(alloc);
    let replies = Cell::new(0);
    let mut made = Counting { replies: &replies };
    let words = ["init", "basic", "counter"];
    command(alloc, &words, &mut platform, &mut store, input, &mut made);
    command(alloc, &["run"], &mut platform, &mut store, input, out)
}

/// Source and sink are two values, so that no contract on both tells which was called first.
#[test]
fn each_reply_is_out_before_the_source_is_asked_again(rt: HostRuntime) -> Result<(), Fail> {
    let replies = Cell::new(0);
    let mut input = Waiting {
        first: b"memoir 1 basic counter\n",
        others: b"ask last add 5\n",
        unanswered: 1,
        given: 0,
        replies: &replies,
        faults: 0,
    };
    let mut out = Counting { replies: &replies };
    assert!(&rt; replay(rt.alloc(), &mut input, &mut out) == 0);
    assert!(&rt; replies.get() == 4);
    Ok(())
}

/// The same of a session.
#[test]
fn each_reply_of_a_session_is_out_before_the_next_line(rt: HostRuntime) -> Result<(), Fail> {
    let replies = Cell::new(0);
    let mut input = Waiting {
        first: b"add 5\n",
        others: b"add 7\n",
        unanswered: 0,
        given: 0,
        replies: &replies,
        faults: 0,
    };
    let mut out = Counting { replies: &replies };
    assert!(&rt; serve(rt.alloc(), &mut input, &mut out) == 0);
    assert!(&rt; replies.get() == 4);
    Ok(())
}
