//! The laws of calls, each the contract of a function that does nothing.

ghost use Rattle.mm_call.specs.Checkpoints.{BasicCheckpointsAgree, OptCheckpointsAgree};
ghost use Rattle.mm_call.specs.Laws.{BasicCallsAgree, OptCallsAgree};
ghost use Rattle.mm_call.specs.CallPremises.{OptMovesAreTied};
ghost use Rattle.mm_call.specs.Standing.{TrailsLead};

/// A call of Basic is by digests what it is by lists, on every course, where no two messages of the
/// history and the call share a digest and a right offer names a position.
pub fn basic_calls_agree()
    ensures { BasicCallsAgree }
{}

/// The same of Opt, where besides no value of others that counts is the guard of a batch.
pub fn opt_calls_agree()
    ensures { OptCallsAgree }
{}

/// A checkpoint of a platform of Basic, which has no segments, is by digests what it is by lists.
pub fn basic_checkpoints_agree()
    ensures { BasicCheckpointsAgree }
{}

/// A checkpoint is by digests what it is by lists, on every course, where no two messages of the
/// history and the checkpoint share a digest and none is zero.
pub fn opt_checkpoints_agree()
    ensures { OptCheckpointsAgree }
{}

/// A trail of device steps leads from the digests that a platform stands at to those that its walk
/// gives.
pub fn trails_lead()
    ensures { TrailsLead }
{}

/// What counts of the moves of a call of Opt is what the register shows of them: the items behind
/// those that counted when the call began.
pub fn opt_tied()
    ensures { OptMovesAreTied }
{}
