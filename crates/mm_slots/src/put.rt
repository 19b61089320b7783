//! The answers of slots as text.

ghost use Rattle.std.specs.Prelude.{◌≡◌, ◌++◌, OnOk};
ghost use Rattle.mm_slots.specs.Table.{slot_reply_text, answer_text, slot_end_line, IsSayable, PowerLost, Says};

use crate::said::SlotReply;
use crate::slot_number::SlotNumber;
use mm_bytes::{Bytes, Memory, put_numbered};
use mm_replay::put_reply;

/// Puts what is said at the end, with its LF.
fn put_said(said: &SlotReply, into: &mut Bytes) -> Result<(), Memory>
    requires { IsSayable said.now }
    ensures { OnOk result (into.new ≡ into.old ++ slot_reply_text said.now) }
{
    match said {
        SlotReply::Busy => into.append(b"no busy\n"),
        SlotReply::Idle => into.append(b"no idle\n"),
        SlotReply::Begun => into.append(b"begun\n"),
        SlotReply::Going(step) => put_going(*step, into),
        SlotReply::Replied(reply) => put_reply(reply, into),
    }
}

fn put_going(step: u64, into: &mut Bytes) -> Result<(), Memory>
    ensures { OnOk result (into.new ≡ into.old ++ slot_reply_text (SlotReply.Going step)) }
{
    put_numbered(into, b"going ", step)?;
    into.push(b'\n')
}

/// Puts the number of a slot and a space, and what is said for it, at the end.
pub fn put_answer(slot: SlotNumber, said: &SlotReply, into: &mut Bytes) -> Result<(), Memory>
    requires { IsSayable said.now }
    ensures { OnOk result (into.new ≡ into.old ++ answer_text (Says slot said.now)) }
{
    slot.put(into)?;
    into.push(b' ')?;
    put_said(said, into)
}

/// Puts the line that answers a loss of power at the end.
pub fn put_power(into: &mut Bytes) -> Result<(), Memory>
    ensures { OnOk result (into.new ≡ into.old ++ answer_text PowerLost) }
{
    into.append(b"power\n")
}

/// Puts the line `end I N K` at the end: in slot I so many requests were committed, and so many
/// snapshots issued.
pub fn put_slot_end(
    slot: SlotNumber,
    committed: u64,
    issued: u32,
    into: &mut Bytes,
) -> Result<(), Memory>
    ensures { OnOk result (into.new ≡ into.old ++ slot_end_line slot committed issued) }
{
    put_numbered(into, b"end ", slot.place() as u64)?;
    put_numbered(into, b" ", committed)?;
    put_numbered(into, b" ", u64::from(issued))?;
    into.push(b'\n')
}
