//! Inputs that are too long to stand in a table.

ghost use Rattle.std.specs.Prelude.{None};

use crate::commands::{play, replay};
use mm_base::{MemSink, Source};
use mm_bytes::{Bytes, Failed, Memory};
use std::alloc::{AllocError, Global};
use std::test::Fail;

/// A source of some bytes, and then of others so many times.
#[derive(Drop)]
pub struct Repeated<'a> {
    pub next: &'a [u8],
    pub again: &'a [u8],
    pub times: u64,
}

impl Source for Repeated<'_> {
    ghost left = { λ _. None };

    ghost faults = { λ _. 0 };

    fn take(&mut self, buf: &mut [u8]) -> Result<usize, Failed> {
        if self.next.is_empty() && self.times > 0 {
            self.next = self.again;
            self.times -= 1;
        }
        let count = self.next.len().min(buf.len());
        let (given, next) = self.next.split_at(count);
        let (front, _) = buf.split_at_mut(count);
        front.copy_from_slice(given);
        self.next = next;
        Ok(count)
    }
}

// Whether so many lines are in an output, and it ends so.
fn has_lines(content: &[u8], lines: usize, last: &[u8]) -> bool {
    content.ends_with(last) && content.iter().filter(|byte| **byte == b'\n').count() == lines
}

// Replays an input, and tells whether the exit status, the number of lines written and the last of
// them are these.
fn replays(
    alloc: Global,
    input: &mut Repeated<'_>,
    lines: usize,
    last: &[u8],
    code: u8,
) -> Result<bool, Memory> {
    let mut out = MemSink::new(alloc, 1 << 20, &[])?;
    Ok(replay(alloc, input, &mut out) == code && has_lines(out.content(), lines, last))
}

#[test]
fn a_line_without_an_end_is_not_read_to_it(rt: HostRuntime) -> Result<(), Fail> {
    let mut input = Repeated {
        next: b"memoir 1 basic counter\n",
        again: b"aaaaaaaaaaaaaaaa",
        times: u64::MAX,
    };
    assert!(rt; replays(rt.alloc(), &mut input, 1, b"stop long 2\n", 14)?);
    Ok(())
}

// A header, and lines that open 256 accounts with names of 32 bytes.
fn with_accounts(alloc: Global) -> Result<String, Memory> {
    let mut schedule = String::from_str(alloc, "memoir 1 basic quota\n")?;
    for number in 0..256u32 {
        let line = format!(in alloc; "ask last open {number:032} 1\n")?;
        schedule.push_str(line.as_str())?;
    }
    Ok(schedule)
}

// A line whose request has 4096 bytes.
fn longest_line(alloc: Global) -> Result<Bytes, Memory> {
    let mut line = Bytes::copy_of(alloc, b"ask last ")?;
    line.append(&[b'a'; 4096])?;
    line.push(b'\n')?;
    Ok(line)
}

// Whether such lines behind a schedule come to an end.
fn long_lines_come_to_an_end(alloc: Global, schedule: &[u8]) -> Result<bool, Memory> {
    let line = longest_line(alloc)?;
    let mut input = Repeated {
        next: schedule,
        again: line.as_slice(),
        times: 20_000,
    };
    let last = b"\nok 16200 bad\nstop much\n";
    replays(alloc, &mut input, 16_201, last, 15)
}

/// Each of the later events keeps 4,105 bytes of its line and 12,628 of its snapshot.
#[test]
fn lines_and_snapshots_have_268435456_bytes(rt: HostRuntime) -> Result<(), Fail> {
    let schedule = with_accounts(rt.alloc())?;
    assert!(rt; long_lines_come_to_an_end(rt.alloc(), schedule.as_bytes())?);
    Ok(())
}

/// Lines that are played, and whose bytes with those of the snapshots come to 268,435,456 behind
/// the last.
#[derive(Clone, Copy)]
struct Kept<'a> {
    /// The command.
    word: &'a str,
    /// What comes before the events.
    head: &'a str,
    /// What stands before the name of an account that is opened, and behind it. There are 3,306.
    open: &'a str,
    behind: &'a str,
    /// What a request that is too long stands behind.
    long: &'a str,
    /// How many such lines of 7,500 bytes come then.
    fillers: u32,
    /// How many bytes the last line has, which is one of these.
    last: usize,
}

const REPLAY: Kept<'_> = Kept {
    word: "replay",
    head: "memoir 1 basic ledger\n",
    open: "ask last open ",
    behind: " 1\n",
    long: "ask raw - ",
    fillers: 18,
    last: 6_901,
};

const TRANSFER: Kept<'_> = Kept {
    word: "transfer",
    head: "memoir transfer 1 basic ledger\n",
    open: "0 ask last open ",
    behind: " 1\n",
    long: "0 ask raw - ",
    fillers: 17,
    last: 7_789,
};

const SLOTS: Kept<'_> = Kept {
    word: "slots",
    head: "memoir slots 1 1\nbasic ledger\n",
    open: "0 begin last open ",
    behind: " 1\n0 step\n0 step\n",
    long: "0 begin raw - ",
    fillers: 11,
    last: 6_505,
};

// Puts the lines that open the accounts.
fn put_accounts(alloc: Global, text: &mut String, kept: &Kept<'_>) -> Result<(), AllocError> {
    let (open, behind) = (kept.open, kept.behind);
    for number in 0..3306u32 {
        let lines = format!(in alloc; "{open}{number:032}{behind}")?;
        text.push_str(lines.as_str())?;
    }
    Ok(())
}

// Puts a line of so many bytes whose request is too long.
fn put_long(text: &mut String, kept: &Kept<'_>, size: usize) -> Result<(), AllocError> {
    text.push_str(kept.long)?;
    for _ in kept.long.len()..size {
        text.push('a')?;
    }
    text.push('\n')
}

fn put_fillers(text: &mut String, kept: &Kept<'_>) -> Result<(), AllocError> {
    for _ in 0..kept.fillers {
        put_long(text, kept, 7_500)?;
    }
    Ok(())
}

// The lines, the last of which has so many bytes more.
fn lines_of(alloc: Global, kept: &Kept<'_>, more: usize) -> Result<String, AllocError> {
    let mut text = String::from_str(alloc, kept.head)?;
    put_accounts(alloc, &mut text, kept)?;
    put_fillers(&mut text, kept)?;
    put_long(&mut text, kept, kept.last.saturating_add(more))?;
    Ok(text)
}

// The status of such lines, and whether what they are answered ends with a stop.
fn code_of(alloc: Global, kept: &Kept<'_>, more: usize) -> Result<(u8, bool), Memory> {
    let text = lines_of(alloc, kept, more)?;
    let mut out = MemSink::new(alloc, 1 << 20, &[])?;
    let mut input = Repeated {
        next: text.as_bytes(),
        again: b"",
        times: 0,
    };
    let code = play(alloc, kept.word, &mut input, &mut out);
    Ok((code, out.content().ends_with(b"\nstop much\n")))
}

// Whether such lines are all answered, and aren't with a byte more.
fn are_most(alloc: Global, kept: &Kept<'_>) -> Result<bool, Memory> {
    let most = code_of(alloc, kept, 0)?;
    let more = code_of(alloc, kept, 1)?;
    Ok(most == (0, false) && more == (15, true))
}

#[test]
fn a_replay_keeps_268435456_bytes_and_none_more(rt: HostRuntime) -> Result<(), Fail> {
    assert!(rt; are_most(rt.alloc(), &REPLAY)?);
    Ok(())
}

#[test]
fn slots_keep_268435456_bytes_and_none_more(rt: HostRuntime) -> Result<(), Fail> {
    assert!(rt; are_most(rt.alloc(), &SLOTS)?);
    Ok(())
}

#[test]
fn a_transfer_keeps_268435456_bytes_and_none_more(rt: HostRuntime) -> Result<(), Fail> {
    assert!(rt; are_most(rt.alloc(), &TRANSFER)?);
    Ok(())
}
