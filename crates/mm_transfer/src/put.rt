//! The answers of two sides as text.

ghost use Rattle.std.specs.Prelude.{◌≡◌, ◌++◌, [], ◌∷◌, codes, OnOk};
ghost use Rattle.std.specs.Fmt.{decimal};
ghost use Rattle.mm_transfer.specs.MovePlan.{answer_text, end_line, move_cause_text, move_text, effect_text, side_text, IsSayable};
ghost use Rattle.mm_transfer.specs.Events.{which_of};

use crate::event::SideChoice;
use crate::reply::{MoveCause, MoveReply};
use mm_bytes::{Bytes, Memory, put_numbered};
use mm_replay::put_reply;

impl MoveCause {
    /// The word that a refusal ends with.
    pub fn text(self) -> &'static [u8]
        ensures { result.now ≡ move_cause_text self }
    {
        match self {
            MoveCause::Refused(cause) => cause.text(),
            MoveCause::Already => b"already",
            MoveCause::Open => b"open",
            MoveCause::Gone => b"gone",
            MoveCause::Nonce => b"nonce",
            MoveCause::Barrier => b"barrier",
        }
    }
}

impl SideChoice {
    /// The number of a side.
    pub fn text(self) -> &'static [u8]
        ensures { result.now ≡ side_text (which_of self) }
    {
        match self {
            SideChoice::First => b"0",
            SideChoice::Second => b"1",
        }
    }
}

// What became of a move that was disturbed.
fn moved_word(moved: bool) -> &'static [u8]
    ensures { result.now ≡ effect_text moved }
{
    if moved { b" moved" } else { b" lost" }
}

// Puts two words and an LF at the end.
fn put_words(first: &[u8], second: &[u8], into: &mut Bytes) -> Result<(), Memory>
    ensures { OnOk result (into.new ≡ into.old ++ (first.now ++ second.now ++ 10 ∷ [])) }
{
    into.append(first)?;
    into.append(second)?;
    into.push(b'\n')
}

// Puts a word, a number and an LF at the end.
fn put_number(word: &[u8], number: u64, into: &mut Bytes) -> Result<(), Memory>
    ensures { OnOk result (into.new ≡ into.old ++ (word.now ++ decimal number ++ 10 ∷ [])) }
{
    put_numbered(into, word, number)?;
    into.push(b'\n')
}

// Puts a reply at the end, with its LF.
fn put_move(reply: &MoveReply, into: &mut Bytes) -> Result<(), Memory>
    requires { IsSayable reply.now }
    ensures { OnOk result (into.new ≡ into.old ++ move_text reply.now) }
{
    match reply {
        MoveReply::Said(reply) => put_reply(reply, into),
        MoveReply::Invited => into.append(b"invited\n"),
        MoveReply::Left { ticket } => put_number(b"retired ", u64::from(*ticket), into),
        MoveReply::Entered { position } => put_number(b"accepted ", *position, into),
        MoveReply::Denied(cause) => put_words(b"no ", cause.text(), into),
        MoveReply::NoSnapshot => into.append(b"no snapshot\n"),
        MoveReply::NoTicket => into.append(b"no ticket\n"),
        MoveReply::Broken { way, moved } => put_words(way.text(), moved_word(*moved), into),
    }
}

/// Puts the number of a side and a space, and the reply to its event, at the end.
pub fn put_answer(which: SideChoice, reply: &MoveReply, into: &mut Bytes) -> Result<(), Memory>
    requires { IsSayable reply.now }
    ensures { OnOk result (into.new ≡ into.old ++ answer_text (which_of which) reply.now) }
{
    into.append(which.text())?;
    into.push(b' ')?;
    put_move(reply, into)
}

// Puts a word, a number, a space and a number at the end.
fn put_pair(word: &[u8], first: u64, second: u64, into: &mut Bytes) -> Result<(), Memory>
    ensures { OnOk result
        (into.new ≡ into.old ++ (word.now ++ decimal first ++ 32 ∷ decimal second)) }
{
    put_numbered(into, word, first)?;
    put_numbered(into, b" ", second)
}

/// Puts the line `end N K0 K1 T` at the end: so many requests were committed, so many snapshots
/// issued on each side, and so many tickets.
pub fn put_end(
    committed: u64,
    first: u32,
    second: u32,
    tickets: u32,
    into: &mut Bytes,
) -> Result<(), Memory>
    ensures { OnOk result (into.new ≡ into.old ++ end_line committed first second tickets) }
{
    put_pair(b"end ", committed, u64::from(first), into)?;
    put_pair(b" ", u64::from(second), u64::from(tickets), into)?;
    into.push(b'\n')
}
