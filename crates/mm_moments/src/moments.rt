//! Laws of what is killed at any moment, each the contract of a function that does nothing.

ghost use Rattle.mm_moments.specs.Moments.{AllMomentsAreCounted};
ghost use Rattle.mm_moments.specs.MortalLives.{CallStopsAnywhere, CheckpointStopsAnywhere, KilledBetweenCalls, MayBeKilledAnywhere};
ghost use Rattle.mm_moments.specs.MortalLives.{SessionStopsAnywhere};

/// A call for a request, or a checkpoint, that is killed at any of its steps is one that a device
/// broke off. Its moments are all of its steps. And what is killed between two calls of devices is
/// killed at the second, which does nothing.
pub fn call_stops_anywhere()
    ensures calls { CallStopsAnywhere }
    ensures counted { AllMomentsAreCounted }
    ensures checkpoints { CheckpointStopsAnywhere }
    ensures between { KilledBetweenCalls }
{}

/// A session that is killed at any of its moments is one that ended there: by a step, a write or an
/// output that failed, or as it read. What it had told by then it told, and at most the request in
/// hand is committed and untold.
pub fn session_stops_anywhere()
    ensures { SessionStopsAnywhere }
{}

/// A session may be killed at each of its moments.
pub fn sessions_may_be_killed()
    ensures { MayBeKilledAnywhere }
{}
