//! What a session writes.

ghost use Rattle.std.specs.Prelude.{◌≡◌, ◌≢◌, ◌≤◌, None, Ok, Err, IfOk, OnErr, length};
ghost use Rattle.mm_bytes.specs.Limits.{CountsFaults, longest_request};
ghost use Rattle.mm_base.specs.Streams.{SinkSends};
ghost use Rattle.mm_play.specs.PlaysInput.{IsBlamed};
ghost use Rattle.mm_schedule.specs.Replies.{told_line};
ghost use Rattle.mm_recovery.specs.declared.fault.HostFault.TheVariants.{Refused};
ghost use Rattle.mm_recovery.specs.declared.resuming.Resumed.TheVariants.{Answered};
ghost use Rattle.mm_recovery.specs.HostStanding.{IsSized};
ghost use Rattle.mm_host.specs.Sessions.{TellsReply, told_cause, refusal_text};
ghost use Rattle.mm_host.specs.Continuation.{is_write_fault};

use crate::fault::SessionFault;
use mm_base::{ReplayFault, Sink, write_all};
use mm_bytes::WriteFault;
use mm_model::{Answer, Refusal};
use mm_recovery::{HostFault, Resumed};
use mm_schedule::{Cause, Reply, print_line, print_told};

/// The most bytes of a line that is written, its LF too.
const LINE_ROOM: usize = 4200;

/// Tells what a recovery or a line came to: an answer by its line, and a refusal by the line `no
/// CAUSE`, where it is one of the six of an offer.
pub fn tell<K: Sink>(came: Result<Resumed, HostFault>, out: &mut K) -> Result<Resumed, SessionFault>
    requires { IfOk came IsSized }
    ensures tells { TellsReply came (K.received out.old) (K.received out.new) result }
    ensures wrote { IsBlamed (is_write_fault result) (K.faults out.old) (K.faults out.new) }
{
    match came {
        Ok(Resumed::Start(first)) => Ok(Resumed::Start(first)),
        Ok(Resumed::Answered(answer)) => tell_answer(answer, out),
        Err(HostFault::Refused(refusal)) => tell_refusal(refusal, out),
        Err(HostFault::Memory) => Err(SessionFault::Host(HostFault::Memory)),
        Err(HostFault::Store) => Err(SessionFault::Host(HostFault::Store)),
    }
}

// Writes the line of an answer, and hands the answer on.
fn tell_answer<K: Sink>(answer: Answer, out: &mut K) -> Result<Resumed, SessionFault>
    requires { length answer.output ≤ longest_request }
    ensures tells { TellsReply (Ok (Answered answer)) (K.received out.old) (K.received out.new)
        result }
    ensures wrote { IsBlamed (is_write_fault result) (K.faults out.old) (K.faults out.new) }
{
    match write_answer(&answer, out) {
        Ok(()) => Ok(Resumed::Answered(answer)),
        Err(_) => Err(SessionFault::Lines(ReplayFault::WriteFault)),
    }
}

// Writes the line of a refusal, where it has one, and answers why the session ends.
fn tell_refusal<K: Sink>(refusal: Refusal, out: &mut K) -> Result<Resumed, SessionFault>
    ensures tells { TellsReply (Err (Refused refusal)) (K.received out.old) (K.received out.new)
        result }
    ensures wrote { IsBlamed (is_write_fault result) (K.faults out.old) (K.faults out.new) }
{
    match write_refusal(refusal, out) {
        Ok(()) => Err(SessionFault::Host(HostFault::Refused(refusal))),
        Err(_) => Err(SessionFault::Lines(ReplayFault::WriteFault)),
    }
}

fn write_answer<K: Sink>(answer: &Answer, out: &mut K) -> Result<(), WriteFault>
    requires { length answer.now.output ≤ longest_request }
    ensures sent { SinkSends (K.received out.old) (K.received out.new)
        (told_line answer.now.again answer.now.position answer.now.output) result }
    ensures counted { CountsFaults (K.faults out.old) (K.faults out.new) result }
{
    let mut line = [0; LINE_ROOM];
    let length = print_told(
        answer.again,
        answer.position,
        answer.output.as_slice(),
        &mut line,
    );
    let (front, _) = line.split_at(length);
    write_all(out, front)
}

fn write_refusal<K: Sink>(refusal: Refusal, out: &mut K) -> Result<(), WriteFault>
    ensures sent { SinkSends (K.received out.old) (K.received out.new)
        (refusal_text (told_cause refusal)) result }
    ensures told { OnErr result (told_cause refusal ≢ None) }
    ensures counted { CountsFaults (K.faults out.old) (K.faults out.new) result }
{
    let Some(cause) = cause_of(refusal) else {
        return Ok(());
    };
    let mut line = [0; LINE_ROOM];
    let length = print_line(&Reply::No(cause), 0, &mut line);
    let (front, _) = line.split_at(length);
    write_all(out, front)
}

// The word of a refusal of the offer.
fn cause_of(refusal: Refusal) -> Option<Cause>
    ensures { result ≡ told_cause refusal }
{
    match refusal {
        Refusal::Form => Some(Cause::Form),
        Refusal::Kind => Some(Cause::Kind),
        Refusal::State => Some(Cause::State),
        Refusal::Tag => Some(Cause::Tag),
        Refusal::Stale => Some(Cause::Stale),
        Refusal::Full => Some(Cause::Full),
        _ => None,
    }
}
