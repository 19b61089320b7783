//! The events of a recorded run, as they are read.

ghost use Rattle.std.specs.Prelude.{◌≡◌, ◌≤◌, ◌++◌, ◌∷◌, [], length, IfOk, OnOk};
ghost use Rattle.mm_bytes.specs.Limits.{longest_line, most_events};
ghost use Rattle.mm_replay.specs.Progress.{running_replay};
ghost use Rattle.mm_schedule.specs.Events.{event_at};
ghost use Rattle.mm_schedule.specs.declared.header.Header.{Header};
ghost use Rattle.mm_schedule.specs.Replies.{IsPrintable, end_line, lines_of_reply};
ghost use Rattle.mm_outcome.specs.OneRun.{world_of};
ghost use Rattle.mm_check.specs.CheckStage.{RecordedRun, InEvents, first_recorded_run, answer_to_event};
ghost use Rattle.mm_check.specs.Verdicts.{AreVerdicts, RunsBehind, run_lines};
ghost use Rattle.mm_check.specs.Steps.{LineComesTo, IsEventOf, recorded_run};
ghost use Rattle.mm_numbering.specs.Listing.{events_of};
ghost use Rattle.mm_check.specs.Numbering.{DecidesRun};

use crate::deciding::{Decision, decide};
use crate::difference::difference;
use crate::lines::{put_last, put_reply};
use crate::verdicts::Verdicts;
use mm_bytes::Memory;
use mm_numbering::TextList;
use mm_play::{LineRefusal, ReplyFault};
use mm_replay::{ReplayProgress, Report};
use mm_schedule::{Event, EventFault, Header, Reply, read_event};
use std::alloc::Global;
use std::marker::Model;

/// The header and the events read, the run of them, and the lines that it writes, each with its LF.
#[derive(Drop)]
pub(crate) struct ScheduleReader {
    header: Header,
    progress: ReplayProgress,
    events: Vec<Event>,
    told: TextList,
}

impl Model for ScheduleReader {
    ghost use Rattle.mm_replay.specs.Progress.{running_replay};
    ghost use Rattle.mm_numbering.specs.Listing.{events_of};
    ghost use Rattle.mm_check.specs.CheckStage.{RecordedRun};
    ghost use Rattle.mm_check.specs.Verdicts.{RunsBehind};

    ghost Value = { RecordedRun };

    ghost view = { λ it. record {
      header = it.header;
      running = running_replay it.progress;
      events = events_of it.events.items;
      told = it.told;
    } };

    ghost invariant = { λ it. RunsBehind it.header (running_replay it.progress)
        (events_of it.events.items)
        it.told };
}

/// The event of a line.
fn event_in(alloc: Global, line: &[u8]) -> Result<Event, ReplyFault>
    ensures { IsEventOf (event_at line.now) result }
{
    match read_event(alloc, line) {
        Ok(event) => Ok(event),
        Err(EventFault::Memory) => Err(ReplyFault::Memory),
        Err(EventFault::Bad) => Err(ReplyFault::Refused(LineRefusal::Bad)),
    }
}

/// Keeps an event and the lines of its reply.
fn remember(
    alloc: Global,
    events: &mut Vec<Event>,
    told: &mut TextList,
    event: Event,
    reply: &Reply,
) -> Result<(), Memory>
    requires { IsPrintable reply.now }
    ensures events { OnOk result (events.new.items ≡ events.old.items ++ event ∷ []) }
    ensures told { OnOk result (told.new ≡ told.old ++ lines_of_reply reply.now) }
{
    events.push(event)?;
    put_reply(alloc, told, reply)
}

// Runs the event of a line, and keeps it with the lines of its reply.
fn follow_line(
    alloc: Global,
    progress: &mut ReplayProgress,
    events: &mut Vec<Event>,
    told: &mut TextList,
    line: &[u8],
) -> Result<(), ReplyFault>
    requires { length line.now ≤ longest_line }
    ensures comes { (header : Header) → LineComesTo
        (λ _. InEvents (recorded_run header (running_replay progress.new) events.new.items
        told.new))
        (answer_to_event
        (recorded_run header (running_replay progress.old) events.old.items told.old)
        line.now (event_at line.now)) result }
    ensures runs { (header : Header)
        → RunsBehind header (running_replay progress.old) (events_of events.old.items)
        told.old
        → OnOk result (RunsBehind header (running_replay progress.new)
        (events_of events.new.items) told.new) }
{
    let event = event_in(alloc, line)?;
    let reply = progress.reply_to_event(line, &event)?;
    match remember(alloc, events, told, event, &reply) {
        Ok(()) => Ok(()),
        Err(_) => Err(ReplyFault::Memory),
    }
}

impl ScheduleReader {
    /// Behind the header.
    pub fn new(alloc: Global, header: &Header) -> Result<ScheduleReader, Memory>
        ensures { IfOk result (λ it. it ≡ first_recorded_run header.now) }
    {
        let progress = ReplayProgress::new(alloc, header)?;
        Ok(ScheduleReader {
            header: *header,
            progress,
            events: Vec::new(alloc),
            told: TextList::new(alloc),
        })
    }

    /// Behind the event of a line.
    pub fn add_event(mut self, alloc: Global, line: &[u8]) -> Result<ScheduleReader, ReplyFault>
        requires { length line.now ≤ longest_line }
        ensures { LineComesTo InEvents (answer_to_event self line.now (event_at line.now)) result }
    {
        match follow_line(
            alloc,
            &mut self.progress,
            &mut self.events,
            &mut self.told,
            line,
        ) {
            Ok(()) => Ok(self),
            Err(fault) => Err(fault),
        }
    }

    /// What the events come to, for recorded lines to be compared.
    pub fn decide(&self, alloc: Global) -> Result<Decision, Memory>
        ensures { IfOk result (DecidesRun self.now.header self.now.events) }
    {
        decide(alloc, &self.header, self.events.as_slice())
    }

    /// The header and the events.
    pub fn into_events(self) -> (Header, Vec<Event>)
        ensures header { result.0 ≡ self.header }
        ensures events { events_of result.1.items ≡ self.events }
    {
        let ScheduleReader {
            header,
            progress,
            events,
            told,
        } = self;
        // Calls drop them whole: else they are taken apart here.
        drop(progress);
        drop(told);
        (header, events)
    }

    /// The verdicts where no lines are recorded: the lines of the run itself are tested.
    pub fn into_verdicts(mut self, alloc: Global) -> Result<Verdicts, Memory>
        ensures { IfOk result
            (AreVerdicts self.header self.events (run_lines (world_of self.header) self.events)) }
    {
        let report = self.progress.report();
        verdicts_on(
            alloc,
            &self.header,
            self.events.as_slice(),
            &mut self.told,
            report,
        )
    }
}

/// The verdicts on these events, where the lines told are tested, and the last one behind them.
fn verdicts_on(
    alloc: Global,
    header: &Header,
    events: &[Event],
    told: &mut TextList,
    last: Report,
) -> Result<Verdicts, Memory>
    requires { length events.now ≤ most_events }
    ensures { IfOk result
        (AreVerdicts header.now (events_of events.now)
        (told.old ++ end_line last.committed last.issued ∷ [])) }
{
    put_last(alloc, told, last.committed, last.issued)?;
    let decided = decide(alloc, header, events)?;
    Ok(Verdicts {
        premise: decided.premise,
        agreement: difference(told, &decided.lines),
    })
}
