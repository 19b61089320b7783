//! Laws of generated schedules.

ghost use Rattle.mm_gen.specs.Schedules.{SchedulesAreRead};

/// A schedule of at most 20,000 events is read as its header and its events, and has nothing behind
/// them.
pub fn schedules_are_read()
    ensures { SchedulesAreRead }
{}
