//! Recorded lines, compared with those that are expected.

ghost use Rattle.std.specs.Prelude.{◌≡◌, option_copied, IfOk};
ghost use Rattle.mm_check.specs.CheckStage.{ComparedRun, InReplies, answer_to_recorded_line, first_compared_run, is_line};
ghost use Rattle.mm_check.specs.Verdicts.{AreVerdictsOn, agreement_of};
ghost use Rattle.mm_check.specs.Steps.{LineComesTo};

use crate::reading::ScheduleReader;
use crate::verdicts::{Agreement, Premise, Verdicts};
use mm_bytes::{Bytes, Memory};
use mm_numbering::{TextList, first_then};
use mm_play::{LineRefusal, ReplyFault};
use mm_schedule::{Event, Header};
use std::alloc::Global;
use std::marker::Model;

/// The most recorded lines: as many as the most events are answered by, with the last line.
const MOST_RECORDED: u32 = 1_280_001;

/// What the events come to, and how the recorded lines compare so far.
#[derive(Drop)]
pub(crate) struct Comparison {
    header: Header,
    events: Vec<Event>,
    premise: Premise,
    /// The lines that are expected, each with its LF.
    expected: TextList,
    /// How many recorded lines were compared.
    count: u32,
    /// The number of the first that differs.
    differs: Option<u32>,
}

impl Model for Comparison {
    ghost use Rattle.mm_numbering.specs.Listing.{events_of};
    ghost use Rattle.mm_check.specs.CheckStage.{ComparedRun};
    ghost use Rattle.mm_check.specs.Verdicts.{IsComparing};

    ghost Value = { ComparedRun };

    ghost view = { λ it. record {
      header = it.header;
      events = events_of it.events.items;
      count = it.count;
      differs = it.differs;
    } };

    ghost invariant = { λ it. IsComparing it.header (events_of it.events.items) it.premise
        it.expected it.count };
}

/// Whether a recorded line, which stands without its LF, is this one.
fn is_same(alloc: Global, line: &[u8], expected: Option<&[u8]>) -> Result<bool, Memory>
    ensures { IfOk result (λ same. same ≡ is_line line.now (option_copied expected.entry)) }
{
    match expected {
        None => Ok(false),
        Some(expected) => {
            let mut whole = Bytes::copy_of(alloc, line)?;
            whole.push(b'\n')?;
            Ok(whole.as_slice() == expected)
        }
    }
}

/// The agreement by the number of the first difference.
fn agreement_of(differs: Option<u32>) -> Agreement
    ensures { result ≡ agreement_of differs }
{
    match differs {
        Some(line) => Agreement::Differ { line },
        None => Agreement::Agree,
    }
}

impl Comparison {
    /// At the first recorded line.
    pub fn new(alloc: Global, reading: ScheduleReader) -> Result<Comparison, Memory>
        ensures { IfOk result (λ it. it ≡ first_compared_run reading) }
    {
        let decision = reading.decide(alloc);
        let (header, events) = reading.into_events();
        let decided = decision?;
        Ok(Comparison {
            header,
            events,
            premise: decided.premise,
            expected: decided.lines,
            count: 0,
            differs: None,
        })
    }

    /// Behind a recorded line.
    pub fn compare_line(mut self, alloc: Global, line: &[u8]) -> Result<Comparison, ReplyFault>
        ensures { LineComesTo InReplies (answer_to_recorded_line self line.now) result }
    {
        if self.count >= MOST_RECORDED {
            return Err(ReplyFault::Refused(LineRefusal::Much));
        }
        let same = match is_same(alloc, line, self.expected.get(self.count as usize)) {
            Ok(same) => same,
            Err(_) => return Err(ReplyFault::Memory),
        };
        self.differs = first_then(self.differs, !same, self.count + 1);
        self.count += 1;
        Ok(self)
    }

    /// The verdicts at the end of the recorded lines.
    pub fn verdicts(&self) -> Verdicts
        ensures { AreVerdictsOn self.now result }
    {
        let is_missing = (self.count as usize) < self.expected.len();
        Verdicts {
            premise: self.premise,
            agreement: agreement_of(first_then(self.differs, is_missing, self.count + 1)),
        }
    }
}
