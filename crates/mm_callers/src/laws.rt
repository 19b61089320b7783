//! When a call is answered, each law the contract of a function that does nothing.

ghost use Rattle.mm_callers.specs.Opt.{BasicCallsAreComplete, OptCallsAreComplete};

/// Where no step fails and memory isn't wanting, a call on a right offer of the last position of a
/// live history is answered as a new one, and one on a right offer of the position before the batch
/// that was committed last and is asked again as a repeat, while there are positions left; in
/// either variant.
pub fn calls_are_complete()
    ensures basic { BasicCallsAreComplete }
    ensures opt { OptCallsAreComplete }
{}
