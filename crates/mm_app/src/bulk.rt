//! The command `bulk`: a schedule is made from a number, run, and told in five lines.

ghost use Rattle.std.specs.Prelude.{◌≤◌};
ghost use Rattle.mm_bytes.specs.Limits.{most_events};
ghost use Rattle.mm_app.specs.Commands.{RunsInBulk, TellsSummary};
ghost use Rattle.mm_host_commands.specs.Outside.{Outside};

use mm_base::Sink;
use mm_gen::{BulkFault, Summary, bulk, summary_text};
use mm_status::{Status, stopped, written};
use mm_words::GeneratedSchedule;
use std::alloc::Global;

/// Runs the schedule of a number, and tells what came of it.
pub fn run_in_bulk<K: Sink>(alloc: Global, it: &GeneratedSchedule, out: &mut K) -> Status
    requires { it.now.count ≤ most_events }
    // Whatever the other objects tell (`rest`).
    ensures { (rest : Outside) → RunsInBulk it.now
        (record rest { received = K.received out.old; writes = K.faults out.old })
        (record rest { received = K.received out.new; writes = K.faults out.new }) result }
{
    match bulk(alloc, it.number, it.count, &it.header) {
        Ok(summary) => tell_summary(alloc, it.count, &summary, out),
        Err(BulkFault::TooMuch) => stopped(Status::TooMuch, out),
        Err(BulkFault::Memory) => stopped(Status::Memory, out),
    }
}

// Writes the five lines.
fn tell_summary<K: Sink>(alloc: Global, events: u32, summary: &Summary, out: &mut K) -> Status
    ensures { TellsSummary events summary.now (K.received out.old) (K.received out.new)
        (K.faults out.old) (K.faults out.new) result }
{
    match summary_text(alloc, events, summary) {
        Ok(text) => written(text.as_slice(), out),
        Err(_) => stopped(Status::Memory, out),
    }
}
