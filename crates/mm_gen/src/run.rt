//! A generated schedule, run from its first line to its last.

ghost use Rattle.std.specs.Prelude.{◌≡◌, ◌<◌, ◌≤◌, ◌++◌, ℕ, List, [], All, length, true, is_some, Some, Err, IfOk, OnOk};
ghost use Rattle.sha2.specs.Sha256.{sha256};
ghost use Rattle.mm_bytes.specs.Limits.{longest_line, most_events};
ghost use Rattle.mm_base.specs.Input.{joined_lines, lines_of};
ghost use Rattle.mm_schedule.specs.Events.{event_at};
ghost use Rattle.mm_schedule.specs.Replies.{IsPrintable};
ghost use Rattle.mm_gen.specs.Schedules.{schedule_lines, IsEventLine, IsLimited, RunsLine, is_over, line_at, IsReplayed, replay_of, SumsUp};
ghost use Rattle.mm_gen.specs.Schedules.{counts_after_reply, total};
ghost use Rattle.mm_replay.specs.Progress.{running_replay};
ghost use Rattle.mm_replay.specs.Schedule.{first_running_replay, is_too_much, text_of_replies};

use crate::breaks::first_line;
use crate::counts::ReplyCounts;
use crate::fault::BulkFault;
use crate::schedule::gen_;
use crate::summary::Summary;
use mm_bytes::{Bytes, Memory};
use mm_digest::Digest;
use mm_play::{LineRefusal, ReplyFault};
use mm_replay::{ReplayProgress, put_reply};
use mm_schedule::{EventFault, Header, Reply, read_event};
use sha2::{Digest as _, Sha256};
use std::alloc::Global;

/// Makes the schedule of a number, with `count` events, and runs it as a replay does: its replies
/// are counted by their kinds, and digested with the last line.
///
/// `TooMuch` comes exactly where a replay of the schedule's text answers so: where an event line,
/// with those before it and the snapshots issued till then, has more than 268,435,456 bytes. That
/// event isn't run.
pub fn bulk(alloc: Global, number: u64, count: u32, header: &Header) -> Result<Summary, BulkFault>
    requires count { count ≤ most_events }
    ensures sums { IfOk result (SumsUp header.now (schedule_lines number count header.now)) }
    ensures limit { IsLimited
        (is_over (first_running_replay header.now) (schedule_lines number count header.now))
        result }
    ensures replayed { IsReplayed (replay_of number count header.now) result }
{
    bulk_inner(alloc, number, count, header)
}

// Makes the schedule, and runs it line by line.
fn bulk_inner(alloc: Global, number: u64, count: u32, header: &Header) -> Result<Summary, BulkFault>
    requires count { count ≤ most_events }
    ensures sums { IfOk result (SumsUp header.now (schedule_lines number count header.now)) }
    ensures limit { IsLimited
        (is_over (first_running_replay header.now) (schedule_lines number count header.now))
        result }
{
    let schedule = gen_(alloc, number, count, header)?;
    let mut progress = ReplayProgress::new(alloc, header)?;
    let text = behind_header(schedule.as_slice());
    summary_of(alloc, text, &mut progress, &mut Bytes::new(alloc))
}

/// The summary of these event lines, answered in turn by a replay at its first event. The replay
/// and the replies are lent, so that no way out of the loop takes them apart.
fn summary_of(
    alloc: Global,
    text: &[u8],
    progress: &mut ReplayProgress,
    replies: &mut Bytes,
) -> Result<Summary, BulkFault>
    requires few { length (lines_of text.now) ≤ most_events }
    requires events { All IsEventLine (lines_of text.now) }
    requires whole { joined_lines (lines_of text.now) ≡ text.now }
    requires first { running_replay progress.old
        ≡ first_running_replay (running_replay progress.old).header }
    requires nothing { replies.old ≡ [] }
    ensures sums { IfOk result (SumsUp (running_replay progress.old).header (lines_of text.now)) }
    ensures limit { IsLimited
        (is_over (first_running_replay (running_replay progress.old).header) (lines_of text.now))
        result }
{
    let mut rest = text;
    let mut counts = ReplyCounts::none();
    'lines: while let Some((line, behind)) = first_line(rest) {
        let reply = answered(alloc, line, progress)?;
        tally(reply, &mut counts, replies)?;
        rest = behind;
    }
    progress.put_last_line(replies)?;
    let report = progress.report();
    Ok(Summary {
        counts,
        committed: report.committed,
        issued: report.issued,
        replies: digest_of(replies.as_slice()),
    })
}

/// Counts a reply, and puts its lines at the end.
fn tally(reply: Reply, counts: &mut ReplyCounts, replies: &mut Bytes) -> Result<(), Memory>
    requires room { total counts.old < most_events }
    requires printable { IsPrintable reply }
    ensures counted { counts.new ≡ counts_after_reply counts.old reply }
    ensures put { OnOk result (replies.new ≡ replies.old ++ text_of_replies reply) }
{
    counts.count(&reply);
    put_reply(&reply, replies)
}

/// What follows the first line.
fn behind_header(text: &[u8]) -> &[u8]
    ensures { (first behind : List ℕ) → line_at text.now ≡ Some (first, behind)
        → result.now ≡ behind }
{
    match first_line(text) {
        Some((_, behind)) => behind,
        None => text,
    }
}

/// The reply to an event line.
fn answered(alloc: Global, line: &[u8], progress: &mut ReplayProgress) -> Result<Reply, BulkFault>
    requires short { length line.now ≤ longest_line }
    requires known { is_some (event_at line.now) ≡ true }
    ensures reply { IfOk result
        (RunsLine (running_replay progress.old) (running_replay progress.new) line.now) }
    ensures printable { IfOk result IsPrintable }
    ensures limit { result ≡ Err BulkFault.TooMuch
        → is_too_much (running_replay progress.old) line.now ≡ true }
{
    let event = match read_event(alloc, line) {
        Ok(event) => event,
        Err(EventFault::Memory) => return Err(BulkFault::Memory),
        Err(EventFault::Bad) => unreachable!(),
    };
    match progress.reply_to_event(line, &event) {
        Ok(reply) => Ok(reply),
        Err(ReplyFault::Refused(LineRefusal::Much)) => Err(BulkFault::TooMuch),
        Err(_) => Err(BulkFault::Memory),
    }
}

fn digest_of(bytes: &[u8]) -> Digest
    ensures { result.bytes ≡ sha256 bytes.now }
{
    Digest {
        bytes: Sha256::digest(bytes),
    }
}
