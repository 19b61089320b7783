//! Laws of calls whose steps a host makes, each the contract of a function that does nothing.

ghost use Rattle.mm_told.specs.ToldCheckpointPromise.{ToldCallsAreCalls, ToldCheckpointsAreCheckpoints};

/// What a call tells by the steps that were made, and what their devices answered, is the call on
/// each platform on which they were made: whole where it is over, and broken off where it makes a
/// step next. So who knows no more than what was told knows that of the host's devices.
pub fn told_calls_are_calls()
    ensures calls { ToldCallsAreCalls }
    ensures checkpoints { ToldCheckpointsAreCheckpoints }
{}
