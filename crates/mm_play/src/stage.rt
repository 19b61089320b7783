//! What a command does with its lines: those of its heading, and then an event in each.

ghost use Rattle.std.specs.Prelude.{◌≡◌, ◌+◌, ◌≤◌, ◌<◌, ◌^◌, ℕ, List, Option, Some, is_some, length, IfOk};
ghost use Rattle.mm_bytes.specs.Limits.{longest_line, most_events};
ghost use Rattle.mm_play.specs.Headline.{More, most_kept_bytes, PutsReply};
ghost use Rattle.mm_play.specs.Stage.{EventStage, HeadStage, StageAnswersEvent, TakesHead, number_in_64_bits};

use crate::player::{ReplyFault, put};
use mm_bytes::{Bytes, Memory};
use std::alloc::Global;

/// What stands among events, and plays them one after another.
pub trait PlayStage {
    /// What it does with events.
    ghost plays: { EventStage Self };

    /// What stands where memory was wanting for the event of a line: before, the line, and then.
    ghost wants: { Self → List ℕ → Self → Type 0 };

    /// How many events were played.
    fn events(&self) -> u32
        ensures { result ≡ plays.events self.now };

    /// The bytes that it keeps for them, or the most that 64 bits tell.
    fn kept(&self) -> u64
        ensures { result ≡ number_in_64_bits (plays.kept self.now) };

    /// Whether the line spells an event.
    fn is_event(&self, alloc: Global, line: &[u8]) -> Result<bool, Memory>
        ensures { IfOk result (λ is. is ≡ is_some (plays.answer self.now line.now)) };

    /// Plays the event that a line spells, one of at most 20,000, and gives its reply as text.
    /// `LineRefusal::Bad` comes exactly where the line spells none. Where memory is wanting for the
    /// line nothing has changed; for its event, the stage is as `wants` says; for its reply, the
    /// event was played.
    fn play(&mut self, alloc: Global, line: &[u8]) -> Result<Bytes, ReplyFault>
        requires short { length line.now ≤ longest_line }
        requires few { plays.events self.old < most_events }
        requires room { plays.kept self.old ≤ most_kept_bytes }
        ensures { StageAnswersEvent (wants self.old line.now self.new)
            (plays.answer self.old line.now)
            self.old self.new result };

    /// The same, with the reply put at the end of these bytes. After a fault nothing is said of
    /// what stands there.
    fn play_into(&mut self, alloc: Global, line: &[u8], into: &mut Bytes) -> Result<(), ReplyFault>
        requires short { length line.now ≤ longest_line }
        requires few { plays.events self.old < most_events }
        requires room { plays.kept self.old ≤ most_kept_bytes }
        ensures { PutsReply into.old into.new
            (StageAnswersEvent (wants self.old line.now self.new) (plays.answer self.old line.now)
            self.old self.new) result }
    {
        match self.play(alloc, line) {
            Ok(reply) => put(&reply, into),
            Err(fault) => Err(fault),
        }
    }

    /// What is written last.
    fn last_lines(&self, alloc: Global) -> Result<Bytes, Memory>
        ensures { IfOk result (λ last. last ≡ plays.last self.now) };

    /// Each event that is played is one more.
    ghost counts: { (it next : Self) (line reply : List ℕ)
        → plays.answer it line ≡ Some (reply, next) → plays.events next ≡ plays.events it + 1 };
}

/// What stands among the lines of a heading, behind which a stage begins.
pub trait Heading<S> {
    /// What it does with lines.
    ghost heads: { HeadStage Self S };

    /// Takes one more line: the first stage, where it is the last line of the heading.
    /// `LineRefusal::Bad` comes exactly where it is none of the heading.
    fn take_line(&mut self, alloc: Global, line: &[u8]) -> Result<Option<S>, ReplyFault>
        ensures { TakesHead (heads.behind self.old line.now) self.new result };

    /// Each line leaves fewer.
    ghost fewer: { (it next : Self) (line : List ℕ) → heads.behind it line ≡ Some (More next)
        → heads.left next < heads.left it };

    /// It ends.
    ghost few: { (it : Self) → heads.left it < 2 ^ 30 };
}
