//! The one player of lines that are a heading and events.

ghost use Rattle.std.specs.Prelude.{◌≡◌, ◌≤◌, ℕ, List, length, MatchOption};
ghost use Rattle.mm_play.specs.Stage.{LineStage, AtHeading, InEvents, line_answer, closing_lines, remaining_lines, play_state, stage_at};
ghost use Rattle.mm_play.specs.StageLaws.{lines_fall, lines_few};
ghost use Rattle.mm_play.specs.Headline.{GivesReply, PutsReply};

use crate::player::{Player, ReplyFault};
use crate::progress::Progress;
use crate::stage::{Heading, PlayStage};
use mm_bytes::{Bytes, Memory};
use std::alloc::Global;
use std::marker::Model;

/// Where a command stands: among the lines of its heading, or among its events.
#[derive(Drop)]
pub enum CommandPhase<H: Drop, S: Drop> {
    Heading(H),
    Events(Progress<S>),
}

/// Answers the lines of a heading, and then those of events.
#[derive(Drop)]
pub struct LinePlayer<H: Drop, S: Drop> {
    at: CommandPhase<H, S>,
}

impl<H: Drop, S: Drop> Model for LinePlayer<H, S> {
    ghost Value = { LineStage H S };

    ghost view = { λ it. stage_at it.at };
}

impl<H: Drop, S: Drop> LinePlayer<H, S> {
    /// Before the first line.
    pub fn new(heading: H) -> LinePlayer<H, S>
        ensures { result ≡ AtHeading heading }
    {
        LinePlayer {
            at: CommandPhase::Heading(heading),
        }
    }

    /// The stage, where events have begun.
    pub fn stage(&self) -> Option<&S>
        ensures { MatchOption result ((heading : H) × (self.now ≡ AtHeading heading))
            (λ stage. (read : ℕ) × (self.now ≡ InEvents (play_state stage.now read))) }
    {
        match &self.at {
            CommandPhase::Events(progress) => Some(&progress.stage),
            CommandPhase::Heading(_) => None,
        }
    }
}

impl<H: Heading<S> + Drop, S: PlayStage + Drop> LinePlayer<H, S> {
    // Takes a line of the heading, to which nothing is replied. It stands apart from the events,
    // which would have to make room for a whole stage each.
    #[cold]
    #[inline(never)]
    fn take_heading_line(&mut self, alloc: Global, line: &[u8]) -> Result<(), ReplyFault>
        requires { (heading : H) × (self.old ≡ AtHeading heading) }
        ensures { (text : List ℕ) → PutsReply text text
            (GivesReply (line_answer H.heads S.plays self.old line.now) self.new) result }
    {
        match &mut self.at {
            CommandPhase::Heading(heading) => {
                if let Some(stage) = heading.take_line(alloc, line)? {
                    self.at = CommandPhase::Events(Progress::new(stage));
                }
                Ok(())
            }
            CommandPhase::Events(_) => unreachable!(),
        }
    }
}

impl<H: Heading<S> + Drop, S: PlayStage + Drop> Player for LinePlayer<H, S> {
    ghost answer = { line_answer H.heads S.plays };

    ghost closing = { closing_lines H.heads S.plays };

    ghost lines_left = { remaining_lines H.heads S.plays };

    fn reply(&mut self, alloc: Global, line: &[u8]) -> Result<Bytes, ReplyFault> {
        let mut reply = Bytes::new(alloc);
        self.reply_into(alloc, line, &mut reply)?;
        Ok(reply)
    }

    fn reply_into(
        &mut self,
        alloc: Global,
        line: &[u8],
        into: &mut Bytes,
    ) -> Result<(), ReplyFault> {
        match &mut self.at {
            CommandPhase::Events(progress) => progress.put_reply(alloc, line, into),
            CommandPhase::Heading(_) => self.take_heading_line(alloc, line),
        }
    }

    fn last_lines(&self, alloc: Global) -> Result<Option<Bytes>, Memory> {
        match &self.at {
            CommandPhase::Events(progress) => Ok(Some(progress.stage.last_lines(alloc)?)),
            CommandPhase::Heading(_) => Ok(None),
        }
    }

    ghost counts_down = { lines_fall H.heads S.plays H.fewer S.counts };

    ghost few = { lines_few H.heads S.plays H.few };
}
