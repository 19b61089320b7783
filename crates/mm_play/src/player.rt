//! Who answers the lines of an input.

ghost use Rattle.std.specs.Prelude.{◌≡◌, ◌≤◌, ◌<◌, ◌^◌, ◌++◌, ℕ, List, Option, Result, Ok, length, IfOk, IfErr, OnOk};
ghost use Rattle.mm_bytes.specs.Limits.{longest_line};
ghost use Rattle.mm_play.specs.declared.player.LineRefusal.{LineRefusal};
ghost use Rattle.mm_play.specs.declared.player.ReplyFault.TheVariants.{Memory as memory};
ghost use Rattle.mm_play.specs.Headline.{GivesReply, PutsReply};

use mm_bytes::{Bytes, Memory};
use std::alloc::Global;

/// Why a player refuses a line.
#[derive(Clone, Copy, PartialEq, Eq)]
pub enum LineRefusal {
    /// The line is outside the grammar.
    Bad,
    /// The line is one too many, or too many bytes are kept.
    Much,
}

/// Why a player did not answer a line.
#[derive(Clone, Copy, PartialEq, Eq)]
pub enum ReplyFault {
    /// Want of memory.
    Memory,
    /// The line is refused.
    Refused(LineRefusal),
}

/// Answers the lines of an input, one after another.
pub trait Player {
    /// The reply to a line, with the player after it, or why the line is refused.
    ghost answer: { Self → List ℕ → Result (List ℕ × Self) LineRefusal };

    /// What is written last, where the input may end here.
    ghost closing: { Self → Option (List ℕ) };

    /// How many more lines it answers, at most.
    ghost lines_left: { Self → ℕ };

    /// The reply to a line of at most 8,400 bytes.
    fn reply(&mut self, alloc: Global, line: &[u8]) -> Result<Bytes, ReplyFault>
        requires { length line.now ≤ longest_line }
        ensures { GivesReply (answer self.old line.now) self.new result };

    /// The same, with the reply put at the end of these bytes. After a fault nothing is said of
    /// what stands there.
    fn reply_into(&mut self, alloc: Global, line: &[u8], into: &mut Bytes) -> Result<(), ReplyFault>
        requires { length line.now ≤ longest_line }
        ensures { PutsReply into.old into.new (GivesReply (answer self.old line.now) self.new)
            result }
    {
        match self.reply(alloc, line) {
            Ok(reply) => put(&reply, into),
            Err(fault) => Err(fault),
        }
    }

    /// The last lines. None where the input may not end here.
    fn last_lines(&self, alloc: Global) -> Result<Option<Bytes>, Memory>
        ensures { IfOk result (λ last. last ≡ closing self.now) };

    /// Each answered line is one fewer.
    ghost counts_down: { (it next : Self) (line reply : List ℕ) → answer it line ≡ Ok (reply, next)
        → lines_left next < lines_left it };

    /// It ends.
    ghost few: { (it : Self) → lines_left it < 2 ^ 31 };
}

// Puts a reply at the end of these bytes.
pub(crate) fn put(reply: &Bytes, into: &mut Bytes) -> Result<(), ReplyFault>
    ensures put { OnOk result (into.new ≡ into.old ++ reply.now) }
    ensures wants { IfErr result (λ fault. fault ≡ memory) }
{
    match into.append(reply.as_slice()) {
        Ok(()) => Ok(()),
        Err(_) => Err(ReplyFault::Memory),
    }
}
