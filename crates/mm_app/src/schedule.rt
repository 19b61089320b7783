//! The command `gen`: a schedule is made from a number.

ghost use Rattle.std.specs.Prelude.{◌≡◌, ◌≤◌, ◌⊎◌};
ghost use Rattle.mm_bytes.specs.Limits.{most_events};
ghost use Rattle.mm_gen.specs.Schedules.{schedule_text};
ghost use Rattle.mm_status.specs.Status.{StopsAs, WritesText};

use mm_base::Sink;
use mm_gen::gen_;
use mm_status::{Status, stopped, written};
use mm_words::GeneratedSchedule;
use std::alloc::Global;

/// Writes the schedule of a number.
pub fn write_schedule<K: Sink>(alloc: Global, it: &GeneratedSchedule, out: &mut K) -> Status
    requires { it.now.count ≤ most_events }
    ensures { WritesText (schedule_text it.now.number it.now.count it.now.header)
        (K.received out.old) (K.received out.new) (K.faults out.old) (K.faults out.new) result
        ⊎ StopsAs Status.Memory (K.received out.old) (K.received out.new) (K.faults out.old)
        (K.faults out.new) result }
{
    match gen_(alloc, it.number, it.count, &it.header) {
        Ok(text) => written(text.as_slice(), out),
        Err(_) => stopped(Status::Memory, out),
    }
}
