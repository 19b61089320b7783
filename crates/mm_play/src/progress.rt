//! A command among its events, and the limits of them.

ghost use Rattle.std.specs.Prelude.{◌≡◌, ◌+◌, ◌≤◌, ◌<◌, ℕ, List, false, length};
ghost use Rattle.mm_bytes.specs.Limits.{longest_line};
ghost use Rattle.mm_play.specs.Headline.{most_kept_bytes, PutsReply};

use crate::player::{LineRefusal, ReplyFault};
use crate::stage::PlayStage;
use mm_bytes::{Bytes, MOST_EVENTS};
use std::alloc::Global;

/// The most bytes of event lines, and of what is issued for them, together.
const MOST_KEPT: u64 = 268_435_456;

/// A stage among its events, and the bytes of their lines.
#[derive(Drop)]
pub struct Progress<S: Drop> {
    /// What plays the events.
    pub stage: S,
    /// The bytes of their lines, each without its LF.
    read: u64,
    ghost small: { read ≤ most_kept_bytes },
}

impl<S: PlayStage + Drop> Progress<S> {
    ghost use Rattle.mm_play.specs.Stage.{RepliesToLine, play_state_of, IsRefusal, is_over, play_state};

    /// A stage at its first event.
    pub fn new(stage: S) -> Progress<S>
        ensures { play_state_of result ≡ play_state stage 0 }
    {
        Progress { stage, read: 0 }
    }

    /// Whether one more event would be too many, or its line and what is kept too many bytes.
    #[inline(always)]
    pub fn is_full(&self, line: &[u8]) -> bool
        ensures { result ≡ is_over S.plays (play_state_of self.now) line.now }
    {
        let lines = self.read.saturating_add(line.len() as u64);
        self.stage.events() >= MOST_EVENTS || lines.saturating_add(self.stage.kept()) > MOST_KEPT
    }

    /// Counts a line that was answered.
    #[inline(always)]
    pub fn count_line(&mut self, line: &[u8])
        requires { self.old.read + length line.now ≤ most_kept_bytes }
        ensures { play_state_of self.new ≡ play_state self.old.stage
            (self.old.read + length line.now) }
    {
        self.read += line.len() as u64;
    }

    // Why a line is refused where no more are taken.
    fn refusal(&self, alloc: Global, line: &[u8]) -> ReplyFault
        ensures { IsRefusal (S.plays.answer self.now.stage line.now) result }
    {
        match self.stage.is_event(alloc, line) {
            Ok(true) => ReplyFault::Refused(LineRefusal::Much),
            Ok(false) => ReplyFault::Refused(LineRefusal::Bad),
            Err(_) => ReplyFault::Memory,
        }
    }

    /// Puts the reply to an event line at the end, as text. `LineRefusal::Much` comes exactly where
    /// it is event 20,001, or where the event lines and what is kept have more than 268,435,456
    /// bytes; it isn't played then. After a refusal nothing has changed. After want of memory the
    /// line isn't counted, and the stage is as `PlayStage::play` leaves it then.
    pub fn put_reply(
        &mut self,
        alloc: Global,
        line: &[u8],
        into: &mut Bytes,
    ) -> Result<(), ReplyFault>
        requires { length line.now ≤ longest_line }
        ensures { PutsReply into.old into.new
            (RepliesToLine S.plays S.wants line.now (play_state_of self.old)
            (play_state_of self.new)) result }
    {
        if self.is_full(line) {
            return Err(self.refusal(alloc, line));
        }
        match self.stage.play_into(alloc, line, into) {
            Ok(()) => {
                self.count_line(line);
                Ok(())
            }
            Err(fault) => Err(fault),
        }
    }
}
