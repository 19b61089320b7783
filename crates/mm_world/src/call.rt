//! The calls of a world over its platform in memory.

ghost use Rattle.std.specs.Prelude.{◌≡◌, ℕ, List, Some};
ghost use Rattle.mm_module.specs.Batches.{batch_of};
ghost use Rattle.mm_module.specs.Meaning.{Meaning};
ghost use Rattle.mm_digest.specs.declared.variant.Variant.{Variant};
ghost use Rattle.mm_outcome.specs.EventOffers.{offered_bytes};
ghost use Rattle.mm_world.specs.WorldStanding.{planned_ask, AsksPlanned, ChecksPlanned};
ghost use Rattle.mm_world.specs.Calls.{refused_call, answered_call, broken_call, takes_effect, IsCallResult, PowerComesBack, SettlesPlan};
ghost use Rattle.mm_world.specs.Calls.{has_closed_segment, checkpoint_reply, IsPlanned, TellsCheckpoint};
ghost use Rattle.mm_opt.specs.Checkpoints.{closing_operation};

use crate::planning::planned;
use mm_ask::{Ask, Caller};
use mm_bytes::{Bytes, Memory};
use mm_call::{AskResult, KeptKey};
use mm_digest::Variant;
use mm_machine::OpResult as End;
use mm_model::{BatchAnswer, Refusal};
use mm_module::{Batch, Module};
use mm_opt::{CheckpointRefusal, Checkpointed, OptCheckpoint};
use mm_outcome::{CallPlan, cause, offered, way};
use mm_platform::{Meddle, MemPlatform, Stop};
use mm_schedule::{Cause, Offer, Reply};
use std::alloc::Global;

/// What a call came to.
#[derive(Drop)]
pub struct CallReport {
    pub reply: Reply,
    /// The snapshot that the call hands out.
    pub snapshot: Option<Bytes>,
    /// How many requests it committed.
    pub committed: u64,
}

impl CallReport {
    ghost use Rattle.std.specs.Prelude.{◌≡◌};
    ghost use Rattle.mm_world.specs.WorldStanding.{quiet_call};
    ghost use Rattle.mm_world.specs.Calls.{refused_call, answered_call, broken_call};

    fn refused(cause: Cause) -> CallReport
        ensures { result ≡ refused_call cause }
    {
        CallReport::quiet(Reply::No(cause))
    }

    // A call that hands out no snapshot and commits nothing.
    pub(crate) fn quiet(reply: Reply) -> CallReport
        ensures { result ≡ quiet_call reply }
    {
        CallReport {
            reply,
            snapshot: None,
            committed: 0,
        }
    }

    fn told(answer: BatchAnswer) -> CallReport
        ensures { result ≡ answered_call answer }
    {
        let BatchAnswer {
            again,
            position,
            outputs,
            snapshot,
        } = answer;
        let size = outputs.len() as u64;
        CallReport {
            reply: Reply::Told {
                again,
                before: position.saturating_sub(size),
                outputs,
            },
            snapshot: Some(snapshot),
            committed: if again { 0 } else { size },
        }
    }

    // A call that was broken off: it has committed its batch of this size up to this position, if
    // there is one.
    fn broken(stop: Stop, kept: Option<u64>, size: u64) -> CallReport
        ensures { result ≡ broken_call stop kept size }
    {
        let way = way(stop);
        match kept {
            Some(position) => CallReport {
                reply: Reply::Kept { way, position },
                snapshot: None,
                committed: size,
            },
            None => CallReport {
                reply: Reply::Nothing { way },
                snapshot: None,
                committed: 0,
            },
        }
    }
}

/// Whether the step at which a call is stopped has its effect.
pub fn takes_effect(stop: Stop) -> bool
    ensures { result ≡ takes_effect stop }
{
    match stop {
        Stop::Quiet | Stop::Cut(_) | Stop::Drop(_) => true,
        Stop::Fail { done, .. } => done,
    }
}

/// Ends the plan of a call. Power is back where the call was broken off by a cut.
pub fn settle(platform: &mut MemPlatform, stop: Stop, is_broken: bool)
    ensures { SettlesPlan stop is_broken platform.old platform.new }
{
    if is_broken {
        restore(platform, stop);
    }
    platform.end_plan();
}

// What a call of a batch of this size came to, that was stopped so. Memory exactly where it was
// refused for that.
pub(crate) fn came_to(stop: Stop, ended: AskResult, size: u64) -> Result<CallReport, Memory>
    ensures { IsCallResult stop size ended result }
{
    match ended {
        AskResult::Answered(answer) => Ok(CallReport::told(answer)),
        AskResult::Refused(Refusal::Memory) => Err(Memory),
        AskResult::Refused(refusal) => Ok(CallReport::refused(cause(refusal))),
        AskResult::Broken { commits, .. } => {
            let kept = if takes_effect(stop) { commits } else { None };
            Ok(CallReport::broken(stop, kept, size))
        }
    }
}

// Power comes back after a call that was cut.
fn restore(platform: &mut MemPlatform, stop: Stop)
    ensures { PowerComesBack stop platform.old platform.new }
{
    if let Stop::Cut(_) = stop {
        platform.lose_power();
    }
}

// Makes the call that offers these bytes and asks for a batch, on this course, over a platform that
// is on and has no plan.
fn planned_call<M: Module>(
    caller: &Caller<M>,
    platform: &mut MemPlatform,
    offer: &[u8],
    batch: Batch<'_>,
    course: &CallPlan<'_>,
    keys: &mut KeptKey,
) -> Result<CallReport, Memory>
    ensures { (issued : List (List ℕ))
        → AsksPlanned caller.now.variant (M.meaning caller.now.«module».now) platform.old
        platform.new issued (planned_ask course.now.meddles.now course.now.stop (Some offer.now)
        (batch_of batch.entry)) result }
{
    if mm_model::is_long(&batch) {
        return Ok(CallReport::refused(Cause::Long));
    }
    let ask = Ask {
        variant: caller.variant,
        alloc: caller.alloc,
        module: caller.module,
        offer,
        batch,
    };
    planned(&ask, platform, course, keys)
}

/// Makes the call that asks for a batch, with the bytes that the offer names, over a platform that
/// is on and has no plan. A cell that is blank, or none of this variant and module, is read in
/// vain: the call makes no further step.
pub fn call_by_offer<M: Module>(
    caller: &Caller<M>,
    platform: &mut MemPlatform,
    issued: &[Bytes],
    offer: &Offer,
    batch: Batch<'_>,
    course: &CallPlan<'_>,
    keys: &mut KeptKey,
) -> Result<CallReport, Memory>
    ensures { AsksPlanned caller.now.variant (M.meaning caller.now.«module».now) platform.old
        platform.new issued.now (planned_ask course.now.meddles.now course.now.stop
        (offered_bytes issued.now offer.now) (batch_of batch.entry)) result }
{
    match offered(caller.alloc, issued, offer) {
        Err(memory) => Err(memory),
        Ok(None) => Ok(CallReport::refused(Cause::Snapshot)),
        Ok(Some(offered)) => planned_call(caller, platform, offered.bytes(), batch, course, keys),
    }
}

// Whether a checkpoint that ended so and was stopped so has closed its segment: its last step does
// that.
pub(crate) fn closes(stop: Stop, ended: &End<Checkpointed, CheckpointRefusal>) -> bool
    ensures { result ≡ has_closed_segment stop ended.now }
{
    match ended {
        End::Broken { commits, .. } => commits.is_some() && takes_effect(stop),
        End::Answered(_) | End::Refused(_) | End::Lacks => false,
    }
}

// What a checkpoint that gave this and was stopped so is told as, by whether it has closed its
// segment.
pub(crate) fn told_closing(
    stop: Stop,
    closed: bool,
    given: Result<Checkpointed, CheckpointRefusal>,
) -> Reply
    ensures { result ≡ checkpoint_reply stop closed given }
{
    match given {
        Ok(Checkpointed::Done) => Reply::Checkpointed,
        Ok(Checkpointed::NoSegment) => Reply::No(Cause::Segment),
        Err(CheckpointRefusal::Blank) => Reply::No(Cause::Blank),
        Err(CheckpointRefusal::Cell) => Reply::No(Cause::Cell),
        Err(CheckpointRefusal::Lost) => Reply::No(Cause::Lost),
        Err(CheckpointRefusal::Device(_)) if closed => Reply::Closed { way: way(stop) },
        Err(CheckpointRefusal::Device(_)) => Reply::Nothing { way: way(stop) },
        Err(CheckpointRefusal::Kind) => Reply::No(Cause::Kind),
    }
}

// A checkpoint under a plan.
fn close(platform: &mut MemPlatform, course: &CallPlan<'_>) -> Result<CallReport, Memory>
    ensures { IsPlanned closing_operation TellsCheckpoint course.now.meddles.now
        course.now.stop platform.old
        platform.new result }
{
    planned(&OptCheckpoint, platform, course, &mut KeptKey::new())
}

/// Makes a checkpoint under such a plan, which closes the open segment. In Basic there is none, and
/// its first step finds that.
pub fn planned_checkpoint(
    platform: &mut MemPlatform,
    meddles: &[Meddle],
    stop: Stop,
) -> Result<Reply, Memory>
    ensures { (issued : List (List ℕ)) → ChecksPlanned platform.old platform.new issued meddles.now
        stop result }
{
    match close(platform, &CallPlan { stop, meddles }) {
        Err(memory) => Err(memory),
        Ok(called) => Ok(called.reply),
    }
}
