//! Replies as lines at the end of a text.

ghost use Rattle.std.specs.Prelude.{◌≡◌, ◌+◌, ◌<◌, ◌≤◌, ◌++◌, [], ◌∷◌, ℕ, List, Some, codes, length, slice_get, OnOk};
ghost use Rattle.std.specs.Fmt.{decimal};
ghost use Rattle.mm_schedule.specs.Replies.{end_line, IsPrintable, lines_of_reply, way_text, told_line};

use crate::print::{output_at, told_word};
use crate::reply::{Reply, Way};
use mm_bytes::{Bytes, Memory, put_numbered};

/// Puts one line of a reply with its LF at the end.
#[inline(always)]
pub fn put_line(reply: &Reply, index: usize, into: &mut Bytes) -> Result<(), Memory>
    requires index { index < length (lines_of_reply reply.now) }
    requires printable { IsPrintable reply.now }
    ensures { OnOk result ((line : List ℕ)
        × (slice_get (lines_of_reply reply.now) index ≡ Some line)
        × (into.new ≡ into.old ++ line)) }
{
    match reply {
        Reply::Told {
            again,
            before,
            outputs,
        } => {
            let output = output_at(outputs, index);
            put_told(*again, *before + index as u64 + 1, output, into)
        }
        Reply::No(cause) => put_words(b"no ", cause.text(), into),
        Reply::Kept { way, position } => put_kept(*way, *position, into),
        Reply::Nothing { way } => put_words(way.text(), b" lost", into),
        Reply::Closed { way } => put_words(way.text(), b" closed", into),
        Reply::Checkpointed => put_words(b"checkpointed", b"", into),
        Reply::Power => put_words(b"power", b"", into),
        Reply::Extended => put_words(b"extended", b"", into),
    }
}

/// Puts the line `end N K` at the end: so many requests were committed, so many snapshots issued.
pub fn put_end(committed: u64, issued: u32, into: &mut Bytes) -> Result<(), Memory>
    ensures { OnOk result (into.new ≡ into.old ++ end_line committed issued) }
{
    put_numbered(into, b"end ", committed)?;
    put_numbered(into, b" ", u64::from(issued))?;
    into.push(b'\n')
}

/// Puts two words and an LF at the end.
#[inline(always)]
fn put_words(first: &[u8], second: &[u8], into: &mut Bytes) -> Result<(), Memory>
    ensures { OnOk result (into.new ≡ into.old ++ (first.now ++ second.now ++ 10 ∷ [])) }
{
    into.append(first)?;
    into.append(second)?;
    into.push(b'\n')
}

fn put_kept(way: Way, position: u64, into: &mut Bytes) -> Result<(), Memory>
    ensures { OnOk result
        (into.new ≡ into.old ++ (way_text way ++ codes " kept " ++ decimal position ++ 10 ∷ [])) }
{
    into.append(way.text())?;
    put_numbered(into, b" kept ", position)?;
    into.push(b'\n')
}

/// Puts the line of a position and its output.
#[inline(always)]
fn put_told(again: bool, position: u64, output: &[u8], into: &mut Bytes) -> Result<(), Memory>
    ensures { OnOk result (into.new ≡ into.old ++ told_line again position output.now) }
{
    put_numbered(into, told_word(again), position)?;
    into.push(b' ')?;
    into.append(output)?;
    into.push(b'\n')
}
