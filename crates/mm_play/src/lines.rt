//! The loop over the lines of an input.

ghost use Rattle.std.specs.Prelude.{◌≡◌, ◌+◌, ◌≤◌, ◌<◌, ℕ, List, false, [], length, OnOk};
ghost use Rattle.std.specs.Io.KnownBytes.{Appends, IsAtEnd};
ghost use Rattle.mm_bytes.specs.Limits.{CountsFaults, longest_line};
ghost use Rattle.mm_base.specs.Input.{IsUnbroken};
ghost use Rattle.mm_base.specs.Streams.{SinkSends};
ghost use Rattle.mm_play.specs.LineTurn.{TurnAdvances, PlayerAnswers, EndsInput, SendsDue, SendsAndAnswers, PlaysNext};
ghost use Rattle.mm_play.specs.PlaysInput.{PlaysInput, IsBlamed, is_read_fault, is_write_fault};
ghost use Rattle.mm_play.specs.Headline.{stream_standing};

use crate::player::{LineRefusal, Player, ReplyFault};
use mm_base::{LineFault, LineReader, Read, ReplayFault, Sink, Source, write_all};
use mm_bytes::{Bytes, LONGEST_LINE, WriteFault};
use std::alloc::Global;
use std::marker::Model;

/// Where so many bytes are pending they are sent, though more lines are at hand.
const MANY_PENDING: usize = 65536;

/// The replies that wait to be sent, and room for the next. Contracts see those that wait.
#[derive(Drop)]
struct Pending {
    bytes: Bytes,
    reply: Bytes,
}

impl Model for Pending {
    ghost Value = { List ℕ };

    ghost view = { λ it. it.bytes };
}

impl Pending {
    ghost use Rattle.std.specs.Prelude.{◌≡◌, []};

    fn new(alloc: Global) -> Pending
        ensures { result ≡ [] }
    {
        Pending {
            bytes: Bytes::new(alloc),
            reply: Bytes::new(alloc),
        }
    }
}

/// Puts the player's reply to the line of this number behind what is pending.
fn queue_reply<P: Player>(
    alloc: Global,
    number: u32,
    line: &[u8],
    player: &mut P,
    pending: &mut Pending,
) -> Result<bool, ReplayFault>
    requires { length line.now ≤ longest_line }
    ensures { PlayerAnswers number (P.answer player.old line.now) player.new pending.old pending.new
        result }
{
    pending.reply.clear();
    match player.reply_into(alloc, line, &mut pending.reply) {
        Ok(()) => match pending.bytes.append(pending.reply.as_slice()) {
            Ok(()) => Ok(true),
            Err(_) => Err(ReplayFault::Memory),
        },
        Err(ReplyFault::Memory) => Err(ReplayFault::Memory),
        Err(ReplyFault::Refused(LineRefusal::Bad)) => Err(ReplayFault::BadLine { line: number }),
        Err(ReplyFault::Refused(LineRefusal::Much)) => Err(ReplayFault::TooMuch),
    }
}

/// Puts the last lines behind what is pending, at the end of an input whose next line would have
/// this number.
fn end_input<P: Player>(
    alloc: Global,
    number: u32,
    player: &P,
    pending: &mut Pending,
) -> Result<bool, ReplayFault>
    ensures { EndsInput number (P.closing player.now) pending.old pending.new result }
{
    match player.last_lines(alloc) {
        Ok(Some(last)) => match pending.bytes.append(last.as_slice()) {
            Ok(()) => Ok(false),
            Err(_) => Err(ReplayFault::Memory),
        },
        Ok(None) => Err(ReplayFault::BadLine { line: number }),
        Err(_) => Err(ReplayFault::Memory),
    }
}

/// Reads a line and queues the reply to it, or meets the end of the input. Answers whether lines
/// may follow. Where the source may be asked for bytes, since no whole line is held, nothing is
/// pending.
fn read_and_reply<P: Player, S: Source>(
    alloc: Global,
    number: u32,
    reader: &mut LineReader,
    player: &mut P,
    input: &mut S,
    pending: &mut Pending,
) -> Result<bool, ReplayFault>
    requires { IsUnbroken reader.old → pending.old ≡ [] }
    ensures advances { TurnAdvances P.answer P.closing number player.old player.new
        (S.left input.old)
        (S.left input.new) reader.old reader.new pending.old pending.new result }
    ensures read { IsBlamed (is_read_fault result) (S.faults input.old) (S.faults input.new) }
    ensures unwritten { is_write_fault result ≡ false }
{
    match reader.next(input, LONGEST_LINE) {
        Ok(Read::Line(line)) => queue_reply(alloc, number, line, player, pending),
        Ok(Read::Tail) => Err(ReplayFault::BadLine { line: number }),
        Ok(Read::End) => end_input(alloc, number, player, pending),
        Err(LineFault::ReadFault) => Err(ReplayFault::ReadFault),
        Err(LineFault::LineLong) => Err(ReplayFault::LineLong { line: number }),
    }
}

/// Sends what is pending. Nothing is pending then, nor after `WriteFault`.
fn send<K: Sink>(pending: &mut Pending, out: &mut K) -> Result<(), WriteFault>
    ensures none { pending.new ≡ [] }
    ensures sent { SinkSends (K.received out.old) (K.received out.new) pending.old result }
    ensures counted { CountsFaults (K.faults out.old) (K.faults out.new) result }
{
    let sent = write_all(out, pending.bytes.as_slice());
    pending.bytes.clear();
    sent
}

/// Sends what is pending where no whole line is held, or where much is pending.
fn send_due<K: Sink>(
    reader: &mut LineReader,
    pending: &mut Pending,
    out: &mut K,
) -> Result<(), WriteFault>
    ensures same { reader.new ≡ reader.old }
    ensures sent { SendsDue (K.received out.old) (K.received out.new) pending.old pending.new
        result }
    ensures none { OnOk result (IsUnbroken reader.old → pending.new ≡ []) }
    ensures counted { CountsFaults (K.faults out.old) (K.faults out.new) result }
{
    let is_held = reader.has_line();
    if is_held && pending.bytes.as_slice().len() < MANY_PENDING {
        return Ok(());
    }
    send(pending, out)
}

/// Sends what is pending, and hands on what came.
fn send_then<K: Sink>(
    came: Result<bool, ReplayFault>,
    pending: &mut Pending,
    out: &mut K,
) -> Result<bool, ReplayFault>
    requires { is_write_fault came ≡ false }
    ensures none { pending.new ≡ [] }
    ensures sent { SendsAndAnswers came (K.received out.old) (K.received out.new)
        pending.old result }
    ensures wrote { IsBlamed (is_write_fault result) (K.faults out.old) (K.faults out.new) }
{
    match send(pending, out) {
        Ok(()) => came,
        Err(_) => Err(ReplayFault::WriteFault),
    }
}

/// Plays the next line: it is read and answered, or the input ends. Answers whether lines may
/// follow; where none does, nothing is pending.
fn play_next<P: Player, S: Source, K: Sink>(
    alloc: Global,
    number: u32,
    reader: &mut LineReader,
    player: &mut P,
    input: &mut S,
    pending: &mut Pending,
    out: &mut K,
) -> Result<bool, ReplayFault>
    ensures turns { PlaysNext P.answer P.closing number player.old player.new (S.left input.old)
        (S.left input.new) reader.old reader.new (K.received out.old) (K.received out.new)
        pending.old pending.new result }
    ensures read { IsBlamed (is_read_fault result) (S.faults input.old) (S.faults input.new) }
    ensures wrote { IsBlamed (is_write_fault result) (K.faults out.old) (K.faults out.new) }
{
    match send_due(reader, pending, out) {
        Ok(()) => {}
        Err(_) => return Err(ReplayFault::WriteFault),
    }
    match read_and_reply(alloc, number, reader, player, input, pending) {
        Ok(true) => Ok(true),
        Ok(false) => send_then(Ok(false), pending, out),
        Err(fault) => match fault {
            ReplayFault::ReadFault => Err(ReplayFault::ReadFault),
            _ => send_then(Err(fault), pending, out),
        },
    }
}

/// Answers each line of the input, and writes the last lines at the end. The replies to the lines
/// at hand go out together; each is out before the input is asked for more.
///
/// After `ReadFault` each whole line that was taken is answered.
pub fn play<P: Player, S: Source, K: Sink>(
    alloc: Global,
    player: &mut P,
    input: &mut S,
    out: &mut K,
) -> Result<(), ReplayFault>
    ensures plays { PlaysInput P.answer P.closing player.old player.new
        (stream_standing (S.left input.old) (K.received out.old))
        (stream_standing (S.left input.new) (K.received out.new)) result }
    ensures read { IsBlamed (is_read_fault result) (S.faults input.old) (S.faults input.new) }
    ensures wrote { IsBlamed (is_write_fault result) (K.faults out.old) (K.faults out.new) }
{
    let mut reader = LineReader::new(alloc)?;
    let mut pending = Pending::new(alloc);
    let mut number: u32 = 1;
    'lines: while play_next(alloc, number, &mut reader, player, input, &mut pending, out)? {
        number += 1;
    }
    Ok(())
}
