//! The line that says why the program stopped.

ghost use Rattle.std.specs.Prelude.{◌≡◌, ◌++◌, ◌∷◌, []};
ghost use Rattle.std.specs.Fmt.{decimal};
ghost use Rattle.mm_bytes.specs.Limits.{CountsFaults};
ghost use Rattle.mm_base.specs.Streams.{SinkSends};
ghost use Rattle.mm_status.specs.Status.{HasFixedLine, stop_line};
ghost use Rattle.mm_status.specs.declared.status.Status.TheVariants as ended;

use crate::status::Status;
use itoa::Buffer;
use mm_base::{Sink, write_all};
use mm_bytes::WriteFault;

/// Writes the stop line of a status, where it has one.
pub fn write_stop<K: Sink>(status: Status, out: &mut K) -> Result<(), WriteFault>
    ensures sent { SinkSends (K.received out.old) (K.received out.new) (stop_line status) result }
    ensures counted { CountsFaults (K.faults out.old) (K.faults out.new) result }

    // Nothing is written where there is no stop line.
    ensures done { status ≡ ended.Done → K.faults out.new ≡ K.faults out.old }
    ensures failed { status ≡ ended.WriteFault → K.faults out.new ≡ K.faults out.old }
{
    match status {
        Status::Done | Status::WriteFault => Ok(()),
        Status::BadLine { line } => write_numbered(b"stop line ", line, out),
        Status::LineLong { line } => write_numbered(b"stop long ", line, out),
        _ => write_all(out, fixed_line(status)),
    }
}

// The stop line of a status, where no number stands in it: empty where it has none.
fn fixed_line(status: Status) -> &'static [u8]
    ensures { HasFixedLine status → result.now ≡ stop_line status }
{
    match status {
        Status::Usage => b"stop usage\n",
        Status::ReadFault => b"stop read\n",
        Status::Memory => b"stop memory\n",
        Status::PlatformFault => b"stop platform\n",
        Status::StoreFault => b"stop store\n",
        Status::Blank => b"stop blank\n",
        Status::Already => b"stop already\n",
        Status::Cell => b"stop cell\n",
        Status::Lost => b"stop lost\n",
        Status::Refused(_) => b"stop refused\n",
        Status::TooMuch => b"stop much\n",
        Status::Short { .. } => b"stop short\n",
        Status::Kind => b"stop kind\n",
        _ => b"",
    }
}

// Writes the words and the number as a line.
fn write_numbered<K: Sink>(words: &[u8], number: u32, out: &mut K) -> Result<(), WriteFault>
    ensures sent { SinkSends (K.received out.old) (K.received out.new)
        (words.now ++ (decimal number ++ 10 ∷ [])) result }
    ensures counted { CountsFaults (K.faults out.old) (K.faults out.new) result }
{
    let mut buffer = Buffer::new();
    let digits = buffer.format(number);
    write_all(out, words)?;
    write_all(out, digits.as_bytes())?;
    write_all(out, b"\n")
}
