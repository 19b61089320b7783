//! What is told of a schedule that was run.

ghost use Rattle.std.specs.Prelude.{◌≡◌, [], ◌∷◌, ◌++◌, IfOk, OnOk};
ghost use Rattle.mm_gen.specs.Schedules.{bulk_text, events_text, other_counts, replies_text, told_counts};

use crate::counts::ReplyCounts;
use mm_bytes::{Bytes, Memory, put_numbered};
use mm_digest::Digest;
use mm_schedule::put_end;
use std::alloc::Global;

/// What came of a schedule.
#[derive(Clone, Copy)]
pub struct Summary {
    pub counts: ReplyCounts,
    /// How many requests were committed.
    pub committed: u64,
    /// How many snapshots were issued, number 0 counted.
    pub issued: u32,
    /// The SHA-256 of all lines that a replay writes, each with its LF, the last one included.
    pub replies: Digest,
}

/// The five lines of a schedule of so many events: the number of events, the counts, the last line
/// of the replies, and their digest in 64 lower-case hexadecimal digits.
pub fn summary_text(alloc: Global, events: u32, it: &Summary) -> Result<Bytes, Memory>
    ensures { IfOk result (λ text. text ≡ bulk_text events it.now) }
{
    let mut text = Bytes::new(alloc);
    match put_summary(alloc, events, it, &mut text) {
        Ok(()) => Ok(text),
        Err(memory) => Err(memory),
    }
}

/// Puts the five lines at the end.
fn put_summary(alloc: Global, events: u32, it: &Summary, into: &mut Bytes) -> Result<(), Memory>
    ensures { OnOk result (into.new ≡ into.old ++ bulk_text events it.now) }
{
    put_events(into, events)?;
    put_told_counts(into, &it.counts)?;
    put_other_counts(into, &it.counts)?;
    put_end(it.committed, it.issued, into)?;
    put_replies(alloc, into, &it.replies)?;
    Ok(())
}

fn put_events(into: &mut Bytes, events: u32) -> Result<(), Memory>
    ensures { OnOk result (into.new ≡ into.old ++ events_text events ++ 10 ∷ []) }
{
    put_numbered(into, b"events ", u64::from(events))?;
    into.append(b"\n")
}

fn put_told_counts(into: &mut Bytes, counts: &ReplyCounts) -> Result<(), Memory>
    ensures { OnOk result (into.new ≡ into.old ++ told_counts counts.now ++ 10 ∷ []) }
{
    put_numbered(into, b"ok ", u64::from(counts.ok))?;
    put_numbered(into, b" again ", u64::from(counts.again))?;
    put_numbered(into, b" no ", u64::from(counts.no))?;
    into.append(b"\n")
}

fn put_other_counts(into: &mut Bytes, counts: &ReplyCounts) -> Result<(), Memory>
    ensures { OnOk result (into.new ≡ into.old ++ other_counts counts.now ++ 10 ∷ []) }
{
    put_numbered(into, b"kept ", u64::from(counts.kept))?;
    put_numbered(into, b" lost ", u64::from(counts.lost))?;
    put_numbered(into, b" other ", u64::from(counts.other))?;
    into.append(b"\n")
}

/// Puts the digest of the replies.
fn put_replies(alloc: Global, into: &mut Bytes, digest: &Digest) -> Result<(), Memory>
    ensures { OnOk result (into.new ≡ into.old ++ replies_text digest.now.bytes ++ 10 ∷ []) }
{
    let digits = hex::encode(alloc, digest.bytes)?;
    into.append(b"replies ")?;
    into.append(digits.as_bytes())?;
    into.append(b"\n")
}
