//! The premises and the expected lines of a list of events.

ghost use Rattle.std.specs.Prelude.{◌≡◌, ◌+◌, ◌-◌, ◌<◌, ◌≤◌, ◌^◌, [], length, take, IfOk, OnOk};
ghost use Rattle.mm_bytes.specs.Limits.{most_events};
ghost use Rattle.mm_numbering.specs.Listing.{events_of, pair_of};
ghost use Rattle.mm_schedule.specs.Replies.{IsPrintable};
ghost use Rattle.mm_expect.specs.ExpectedState.{IsAfter};
ghost use Rattle.mm_check.specs.Numbering.{IsNewDecider, StandsBehind, TakesInEvent, DecidesRun, premise_by};

use crate::lines::{put_last, put_reply};
use crate::verdicts::Premise;
use mm_bytes::{Bytes, Memory};
use mm_expect::{Expectation, ExpectedOutcome};
use mm_history::Message;
use mm_module::Module;
use mm_numbering::{Numbers, TextList, first_secured, first_then};
use mm_schedule::{Event, Header};
use std::alloc::Global;
use std::mem;

/// What some first events come to.
#[derive(Drop)]
pub(crate) struct Decider {
    expecting: Expectation,
    numbers: Numbers,
    /// The first event whose offer is right and names no position.
    forged: Option<u32>,
    /// The lines of the replies that are expected, each with its LF.
    lines: TextList,
}

/// What a list of events comes to.
#[derive(Drop)]
pub(crate) struct Decision {
    pub premise: Premise,
    /// The lines that are expected, each with its LF, the last line included.
    pub lines: TextList,
}

impl Decider {
    // One over an expectation, before any message is listed.
    fn new(alloc: Global, expecting: Expectation) -> Decider
        ensures { IsNewDecider expecting result }
    {
        Decider {
            expecting,
            numbers: Numbers::new(alloc),
            forged: None,
            lines: TextList::new(alloc),
        }
    }

    // Lists the first message, which each run has.
    fn begin(&mut self, alloc: Global, header: &Header) -> Result<(), Memory>
        requires after { IsAfter header.now [] self.old.expecting }
        requires new { IsNewDecider self.old.expecting self.old }
        ensures { OnOk result (StandsBehind header.now [] self.new) }
    {
        let start = Bytes::copy_of(alloc, &[0, header.variant.byte(), header.module.id()])?;
        self.numbers.list(&Message::hashed(start))
    }

    // What all events come to, from the first one on.
    fn decide(
        &mut self,
        alloc: Global,
        header: &Header,
        events: &[Event],
    ) -> Result<Decision, Memory>
        requires few { length events.now ≤ most_events }
        requires after { IsAfter header.now [] self.old.expecting }
        requires new { IsNewDecider self.old.expecting self.old }
        ensures { IfOk result (DecidesRun header.now (events_of events.now)) }
    {
        self.begin(alloc, header)?;
        'events: for index in 0..events.len() {
            self.follow_event(alloc, header, events, index)?;
        }
        self.end(alloc, header, events)
    }

    // Follows the event of this index.
    fn follow_event(
        &mut self,
        alloc: Global,
        header: &Header,
        events: &[Event],
        index: usize,
    ) -> Result<(), Memory>
        requires within { index < length events.now }
        requires few { length events.now ≤ most_events }
        requires stands { StandsBehind header.now (events_of (take index events.now)) self.old }
        ensures { OnOk result
            (StandsBehind header.now (events_of (take (index + 1) events.now)) self.new) }
    {
        let event = &events[index];
        let heard = self.expecting.event(event)?;
        let forged = first_then(self.forged, !heard.is_genuine, index as u32 + 1);
        self.forged = forged;
        take_in(alloc, &mut self.numbers, &mut self.lines, &heard)
    }

    // What is told of the premises, by the first event at which others bring a guard.
    fn premise(&self, secured: Option<u32>) -> Premise
        ensures { result ≡ premise_by (pair_of self.now.numbers.digests.shared)
            self.now.numbers.digests.zero secured self.now.forged }
    {
        if let Some(pair) = self.numbers.digests.shared {
            return Premise::Shared {
                first: pair.first,
                second: pair.second,
            };
        }
        if let Some(message) = self.numbers.digests.zero {
            return Premise::Zero { message };
        }
        if let Some(event) = secured {
            return Premise::Secured { event };
        }
        match self.forged {
            Some(event) => Premise::Forged { event },
            None => Premise::Held,
        }
    }

    // What all events come to, behind the last one: hands its lines out.
    fn end(&mut self, alloc: Global, header: &Header, events: &[Event]) -> Result<Decision, Memory>
        requires few { length events.now ≤ most_events }
        requires stands { StandsBehind header.now (events_of events.now) self.old }
        ensures { IfOk result (DecidesRun header.now (events_of events.now)) }
    {
        put_last(
            alloc,
            &mut self.lines,
            self.expecting.committed(),
            self.expecting.issued(),
        )?;
        let secured = first_secured(alloc, header.variant, events)?;
        Ok(Decision {
            premise: self.premise(secured),
            lines: mem::replace(&mut self.lines, TextList::new(alloc)),
        })
    }
}

// Lists the messages of an event, and puts the lines of its reply at the end.
fn take_in(
    alloc: Global,
    numbers: &mut Numbers,
    lines: &mut TextList,
    heard: &ExpectedOutcome,
) -> Result<(), Memory>
    requires few { numbers.old.digests.count + length heard.now.messages.items < 2 ^ 32 - 1 }
    requires printable { IsPrintable heard.now.reply }
    ensures { OnOk result (TakesInEvent heard.now numbers.old numbers.new lines.old
        lines.new) }
{
    numbers.list_all(heard.messages.as_slice())?;
    put_reply(alloc, lines, &heard.reply)
}

/// What these events come to: what is told of the premises, and the lines that are expected.
pub(crate) fn decide(alloc: Global, header: &Header, events: &[Event]) -> Result<Decision, Memory>
    requires { length events.now ≤ most_events }
    ensures { IfOk result (DecidesRun header.now (events_of events.now)) }
{
    let expecting = Expectation::new(alloc, header)?;
    let mut deciding = Decider::new(alloc, expecting);
    let decided = deciding.decide(alloc, header, events);
    // A call drops it whole: else each way out takes it apart here.
    drop(deciding);
    decided
}
