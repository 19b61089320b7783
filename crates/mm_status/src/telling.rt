//! What a command writes last: its text, or a stop line.

ghost use Rattle.std.specs.Prelude.{◌≡◌};
ghost use Rattle.mm_play.specs.PlaysInput.{IsUnrefused};
ghost use Rattle.mm_status.specs.Status.{EndsUnrefused, status_of, StopsAs, TellsStop, WritesText};

use crate::status::Status;
use crate::stop::write_stop;
use mm_base::{ReplayFault, Sink, write_all};

/// Writes the stop line of a status.
pub fn stopped<K: Sink>(status: Status, out: &mut K) -> Status
    ensures status { result ≡ status }
    ensures told { StopsAs status (K.received out.old) (K.received out.new) (K.faults out.old)
        (K.faults out.new) result }
{
    let _ = write_stop(status, out);
    status
}

/// Writes the stop line of what lines were answered.
pub fn answered<T, K: Sink>(answer: &Result<T, ReplayFault>, out: &mut K) -> Status
    ensures ends { result ≡ status_of answer.now }
    ensures stops { TellsStop (K.received out.old) (K.received out.new) (K.faults out.old)
        (K.faults out.new) result }
    ensures unrefused { IsUnrefused answer.now → EndsUnrefused result }
{
    let status = match answer {
        Ok(_) => Status::Done,
        Err(fault) => Status::of(*fault),
    };
    stopped(status, out)
}

/// Writes a text.
pub fn written<K: Sink>(text: &[u8], out: &mut K) -> Status
    ensures { WritesText text.now (K.received out.old) (K.received out.new) (K.faults out.old)
        (K.faults out.new) result }
{
    match write_all(out, text) {
        Ok(()) => Status::Done,
        Err(_) => Status::WriteFault,
    }
}
