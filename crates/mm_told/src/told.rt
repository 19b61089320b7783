//! A call, which what a host's devices answered leads on.

ghost use Rattle.std.specs.Prelude.{◌≡◌, None, Ok};
ghost use Rattle.std.specs.Result.{result_err};
ghost use Rattle.mm_machine.specs.Acts.{act_in, change_after};
ghost use Rattle.mm_machine.specs.OpSteps as machine;
ghost use Rattle.mm_machine.specs.OpSteps.{position_if_last, step_of_finding, step_to};
ghost use Rattle.mm_machine.specs.declared.call.OpStage.TheVariants.{Begun, Seen, Changing};
ghost use Rattle.mm_told.specs.CallPath.{StepsComeTo, StepHasTarget, StepsWeighRegister, progress_at_end, step_by_sight, step_by_finding};
ghost use Rattle.mm_told.specs.CallPath.{target_of_step, act_of, fault_of_answer};

use crate::step::{HostStep, MadeStep, is_of};
use mm_digest::Digest;
use mm_machine::{Change, OpFinding, OpResult, OpStage, Operation, ReadyChange, Sight};
use mm_platform::StepFault;
use mm_seal::{Cell, KeptKey};

/// What a call comes to with the steps that were made.
#[derive(Drop)]
pub enum CallProgress<A, R> {
    /// It makes this step next.
    Next(HostStep),
    /// It ended at the last of them.
    Over(OpResult<A, R>),
    /// It ended before the last of them.
    Before(OpResult<A, R>),
    /// It makes another step than one of them.
    Elsewhere,
}

/// What a step that was made leads a call to.
#[derive(Drop)]
enum StepTarget<A, R> {
    /// Here.
    To(OpStage<A>),
    /// To its end.
    End(OpResult<A, R>),
    /// It isn't the step that comes next.
    Other,
}

/// What a call comes to that stands here, with these steps made from here on.
pub fn tell<O: Operation>(
    op: &O,
    stage: OpStage<O::Answer>,
    made: &[MadeStep],
    keys: &mut KeptKey,
) -> CallProgress<O::Answer, O::Refusal>
    ensures { StepsComeTo (O.asked op.now) stage made.now result }
{
    match made {
        [] => CallProgress::Next(next(&stage)),
        [it, more @ ..] => match lead(op, stage, it, keys) {
            StepTarget::To(stage) => tell(op, stage, more, keys),
            StepTarget::End(end) => over(end, more),
            StepTarget::Other => CallProgress::Elsewhere,
        },
    }
}

// The call ended, and these steps were made behind that.
fn over<A: Drop, R: Drop>(end: OpResult<A, R>, more: &[MadeStep]) -> CallProgress<A, R>
    ensures { result ≡ progress_at_end more.now end }
{
    if more.is_empty() {
        CallProgress::Over(end)
    } else {
        CallProgress::Before(end)
    }
}

// The step that comes next.
fn next<A: Drop>(stage: &OpStage<A>) -> HostStep
    ensures { act_of result ≡ machine.act_of stage.now }
{
    match stage {
        OpStage::Begun => HostStep::ReadCell,
        OpStage::Seen(_) => HostStep::ReadRegister,
        OpStage::Changing(ready) => step_in(&ready.change),
    }
}

// The step that a change makes.
fn step_in(change: &Change) -> HostStep
    ensures { act_of result ≡ act_in change.now }
{
    match change {
        Change::Extending(value) => HostStep::ExtendRegister(*value),
        Change::Emptying(_) => HostStep::ResetRegister,
        Change::Placing(opening) => HostStep::ExtendRegister(opening.value),
        Change::Writing(next) => HostStep::WriteCell(*next),
    }
}

// What this step leads to.
fn lead<O: Operation>(
    op: &O,
    stage: OpStage<O::Answer>,
    it: &MadeStep,
    keys: &mut KeptKey,
) -> StepTarget<O::Answer, O::Refusal>
    ensures { StepHasTarget (O.asked op.now) stage it.now result }
{
    match stage {
        OpStage::Begun => see(op, it, keys),
        OpStage::Seen(cell) => find(op, &cell, it, keys),
        OpStage::Changing(ready) => changed(op, ready, it),
    }
}

// The cell was read.
fn see<O: Operation>(op: &O, it: &MadeStep, keys: &mut KeptKey) -> StepTarget<O::Answer, O::Refusal>
    ensures { StepHasTarget (O.asked op.now) Begun it.now result }
{
    match it {
        MadeStep::ReadCell(Ok(bytes)) => sighted(op.see(bytes, keys)),
        MadeStep::ReadCell(Err(fault)) => broken(*fault),
        _ => StepTarget::Other,
    }
}

// The register was read.
fn find<O: Operation>(
    op: &O,
    cell: &Cell,
    it: &MadeStep,
    keys: &mut KeptKey,
) -> StepTarget<O::Answer, O::Refusal>
    ensures { StepHasTarget (O.asked op.now) (Seen cell.now) it.now result }
{
    match it {
        MadeStep::ReadRegister(Ok(value)) => weigh(op, cell, value, keys),
        MadeStep::ReadRegister(Err(fault)) => broken(*fault),
        _ => StepTarget::Other,
    }
}

// This was read from the register.
fn weigh<O: Operation>(
    op: &O,
    cell: &Cell,
    value: &Digest,
    keys: &mut KeptKey,
) -> StepTarget<O::Answer, O::Refusal>
    ensures { StepsWeighRegister (O.asked op.now) cell.now value.now result }
{
    let value = copied(value);
    weighed(op.find(cell, &value, keys))
}

// The value, of which a call's result is known to have 32 bytes.
fn copied(value: &Digest) -> Digest
    ensures { result ≡ value.now }
{
    *value
}

// A reading step failed.
fn broken<A, R>(fault: StepFault) -> StepTarget<A, R>
    ensures { result ≡ StepTarget.End (OpResult.Broken fault None) }
{
    StepTarget::End(OpResult::Broken {
        fault,
        commits: None,
    })
}

// Behind what was seen.
fn sighted<A: Drop, R: Drop>(seen: Result<Sight<A>, R>) -> StepTarget<A, R>
    ensures { result ≡ target_of_step (step_by_sight seen) }
{
    match seen {
        Ok(Sight::Found(found)) => at(found),
        Ok(Sight::Cell(cell)) => StepTarget::To(OpStage::Seen(cell)),
        Err(refusal) => StepTarget::End(OpResult::Refused(refusal)),
    }
}

// Behind what was found.
fn weighed<A: Drop, R: Drop>(found: Result<OpFinding<A>, R>) -> StepTarget<A, R>
    ensures { result ≡ target_of_step (step_by_finding found) }
{
    match found {
        Ok(found) => at(found),
        Err(refusal) => StepTarget::End(OpResult::Refused(refusal)),
    }
}

// Something is to be done, or nothing.
fn at<A: Drop, R>(found: OpFinding<A>) -> StepTarget<A, R>
    ensures { result ≡ target_of_step (step_of_finding (Ok found)) }
{
    match found {
        OpFinding::Repeat(answer) => StepTarget::End(OpResult::Answered(answer)),
        OpFinding::Change(ready) => StepTarget::To(OpStage::Changing(ready)),
    }
}

// A changing step was made.
fn changed<O: Operation>(
    op: &O,
    ready: ReadyChange<O::Answer>,
    it: &MadeStep,
) -> StepTarget<O::Answer, O::Refusal>
    ensures { StepHasTarget (O.asked op.now) (Changing ready) it.now result }
{
    if !is_of(it, &step_in(&ready.change)) {
        return StepTarget::Other;
    }
    let commits = commits(op, &ready);
    match answered(it) {
        Err(fault) => StepTarget::End(OpResult::Broken { fault, commits }),
        Ok(()) => behind(ready),
    }
}

// The position that a step commits.
fn commits<O: Operation>(op: &O, ready: &ReadyChange<O::Answer>) -> Option<u64>
    ensures { result ≡ position_if_last (change_after ready.now.change)
        ((O.asked op.now).position ready.now.answer) }
{
    if ready.change.is_last() {
        Some(op.position(&ready.answer))
    } else {
        None
    }
}

// Whether the device failed.
fn answered(it: &MadeStep) -> Result<(), StepFault>
    ensures { result_err result ≡ fault_of_answer it.now }
{
    match it {
        MadeStep::ReadCell(Ok(_)) => Ok(()),
        MadeStep::ReadCell(Err(fault)) => Err(*fault),
        MadeStep::ReadRegister(Ok(_)) => Ok(()),
        MadeStep::ReadRegister(Err(fault)) => Err(*fault),
        MadeStep::WriteCell(_, answer) => *answer,
        MadeStep::ResetRegister(answer) => *answer,
        MadeStep::ExtendRegister(_, answer) => *answer,
    }
}

// Behind a changing step.
fn behind<A: Drop, R>(ready: ReadyChange<A>) -> StepTarget<A, R>
    ensures { result ≡ target_of_step (step_to (change_after ready.change) ready.answer) }
{
    let ReadyChange { change, answer } = ready;
    match change_behind(change) {
        None => StepTarget::End(OpResult::Answered(answer)),
        Some(change) => StepTarget::To(OpStage::Changing(ReadyChange { change, answer })),
    }
}

// The change behind it.
fn change_behind(change: Change) -> Option<Change>
    ensures { result ≡ change_after change }
{
    match change {
        Change::Extending(_) => None,
        Change::Emptying(opening) => Some(Change::Placing(opening)),
        Change::Placing(opening) => Some(Change::Writing(opening.next)),
        Change::Writing(_) => None,
    }
}
