//! The lines of a recorded run, one after another.

ghost use Rattle.std.specs.Prelude.{◌≡◌, ◌≢◌, ◌≤◌, length, IfOk};
ghost use Rattle.mm_bytes.specs.Limits.{longest_line};
ghost use Rattle.mm_schedule.specs.Headers.{header_at};
ghost use Rattle.mm_check.specs.CheckStage.{CheckStage, AtHeader, check_answer, check_closing, remaining_check_lines, answer_to_header, answer_to_line};
ghost use Rattle.mm_check.specs.CheckStageLaws.{check_counts_down, check_is_short};
ghost use Rattle.mm_check.specs.Steps.{phase_of, check_stage, LineComesTo};
ghost use Rattle.mm_check.specs.Verdicts.{StageConcludes};

use crate::comparing::Comparison;
use crate::reading::ScheduleReader;
use crate::verdicts::Verdicts;
use mm_bytes::{Bytes, Memory};
use mm_play::{LineRefusal, Player, ReplyFault};
use mm_schedule::read_header;
use std::alloc::Global;
use std::marker::Model;

/// Where a recorded run stands behind its header.
#[derive(Drop)]
pub(crate) enum Phase {
    /// Among its events.
    Events(ScheduleReader),
    /// Among the recorded lines.
    Replies(Comparison),
}

/// Reads a recorded run, and writes nothing. There is no phase before the header.
#[derive(Drop)]
pub(crate) struct CheckPlayer {
    phase: Option<Phase>,
}

impl Model for CheckPlayer {
    ghost Value = { CheckStage };

    ghost view = { λ it. check_stage it.phase };
}

/// Behind the header of this line.
fn first_phase(alloc: Global, line: &[u8]) -> Result<Phase, ReplyFault>
    ensures { LineComesTo phase_of (answer_to_header (header_at line.now)) result }
{
    let header = match read_header(line) {
        Some(header) => header,
        None => return Err(ReplyFault::Refused(LineRefusal::Bad)),
    };
    match ScheduleReader::new(alloc, &header) {
        Ok(reading) => Ok(Phase::Events(reading)),
        Err(_) => Err(ReplyFault::Memory),
    }
}

/// Behind a line among the events.
fn read_line(alloc: Global, reading: ScheduleReader, line: &[u8]) -> Result<Phase, ReplyFault>
    requires { length line.now ≤ longest_line }
    ensures { LineComesTo phase_of (answer_to_line reading line.now) result }
{
    if line == b"replies".as_slice() {
        return match Comparison::new(alloc, reading) {
            Ok(comparing) => Ok(Phase::Replies(comparing)),
            Err(_) => Err(ReplyFault::Memory),
        };
    }
    match reading.add_event(alloc, line) {
        Ok(reading) => Ok(Phase::Events(reading)),
        Err(fault) => Err(fault),
    }
}

/// Behind the next line.
fn next_phase(alloc: Global, phase: Option<Phase>, line: &[u8]) -> Result<Phase, ReplyFault>
    requires { length line.now ≤ longest_line }
    ensures { LineComesTo phase_of (check_answer header_at (check_stage phase) line.now) result }
{
    match phase {
        None => first_phase(alloc, line),
        Some(Phase::Events(reading)) => read_line(alloc, reading, line),
        Some(Phase::Replies(comparing)) => match comparing.compare_line(alloc, line) {
            Ok(comparing) => Ok(Phase::Replies(comparing)),
            Err(fault) => Err(fault),
        },
    }
}

impl Player for CheckPlayer {
    ghost answer = { check_answer header_at };

    ghost closing = { check_closing };

    ghost lines_left = { remaining_check_lines };

    fn reply(&mut self, alloc: Global, line: &[u8]) -> Result<Bytes, ReplyFault> {
        let phase = next_phase(alloc, self.phase.take(), line)?;
        // A call drops what stood there whole: else it is taken apart here.
        drop(self.phase.replace(phase));
        Ok(Bytes::new(alloc))
    }

    fn last_lines(&self, alloc: Global) -> Result<Option<Bytes>, Memory> {
        match &self.phase {
            Some(_) => Ok(Some(Bytes::new(alloc))),
            None => Ok(None),
        }
    }

    ghost counts_down = { check_counts_down header_at };

    ghost few = { check_is_short };
}

impl CheckPlayer {
    /// Before the header.
    pub fn new() -> CheckPlayer
        ensures { result ≡ AtHeader }
    {
        CheckPlayer { phase: None }
    }

    /// The verdicts at the end of the input. Nothing is left of the run.
    pub fn take_verdicts(&mut self, alloc: Global) -> Result<Verdicts, Memory>
        requires { self.old ≢ AtHeader }
        ensures { IfOk result (StageConcludes self.old) }
    {
        match self.phase.take() {
            None => unreachable!(),
            Some(Phase::Events(reading)) => reading.into_verdicts(alloc),
            Some(Phase::Replies(comparing)) => {
                let verdicts = comparing.verdicts();
                drop(comparing);
                Ok(verdicts)
            }
        }
    }
}
