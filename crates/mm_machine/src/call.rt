//! A call, which is moved one device step at a time or to its end.

ghost use Rattle.std.specs.Prelude.{◌≡◌};
ghost use Rattle.mm_machine.specs.Acts.{MayChange, change_after};
ghost use Rattle.mm_machine.specs.OpSteps.{MayGoOn, StepMayGoOn, OpSteps, FirstStepGoes, ChangeGoes, position_if_last};

use crate::change::Change;
use crate::operation::{OpFinding, Operation, ReadyChange, Sight};
use crate::reading::{Halt, look, weigh_with_room, with_room};
use mm_platform::{Platform, StepFault};
use mm_seal::{Cell, KeptKey};
use std::marker::Model;

/// Where a call stands between two of its device steps.
#[derive(Drop)]
pub enum OpStage<A> {
    /// Nothing was read.
    Begun,
    /// The cell was read, and the register is wanted.
    Seen(Cell),
    /// It is found what is to be done.
    Changing(ReadyChange<A>),
}

/// A call between two of its device steps. Contracts see where it stands.
#[derive(Drop)]
pub struct OpCall<A> {
    stage: OpStage<A>,
}

impl<A> Model for OpCall<A> {
    ghost use Rattle.mm_machine.specs.declared.call.OpStage.{OpStage};

    ghost Value = { OpStage A };

    ghost view = { λ call. call.stage };
}

/// How a call ended.
#[derive(Drop)]
pub enum OpResult<A, R> {
    /// It was answered.
    Answered(A),
    /// It was refused, and changed nothing.
    Refused(R),
    /// Memory was wanting for its own extension, before it changed anything.
    Lacks,
    /// A device failed at one of its steps: the one that commits up to this position, or one before
    /// it.
    Broken {
        fault: StepFault,
        commits: Option<u64>,
    },
}

/// What one step of a call came to.
#[derive(Drop)]
pub enum StepResult<A, R> {
    /// The call goes on, with its next step.
    Going(OpCall<A>),
    /// The call is over.
    Over(OpResult<A, R>),
}

impl<A> OpCall<A> {
    ghost use Rattle.std.specs.Prelude.{◌≡◌};
    ghost use Rattle.mm_machine.specs.OpSteps.{number_of};
    ghost use Rattle.mm_machine.specs.declared.call.OpStage.TheVariants.{Begun};

    /// A call before its first step.
    #[inline(always)]
    pub fn begin() -> OpCall<A>
        ensures { result ≡ Begun }
    {
        OpCall {
            stage: OpStage::Begun,
        }
    }

    // Where it stands.
    #[inline(always)]
    pub(crate) fn into_stage(self) -> OpStage<A>
        ensures { result ≡ self }
    {
        self.stage
    }

    /// Where it stands.
    #[inline(always)]
    pub fn stage(&self) -> &OpStage<A>
        ensures { result.now ≡ self.now }
    {
        &self.stage
    }

    /// The number of the next device step, from 1, where a write of the cell has this one.
    pub fn next_step(&self, write: u8) -> u8
        ensures { result ≡ number_of write self.now }
    {
        match &self.stage {
            OpStage::Begun => 1,
            OpStage::Seen(_) => 2,
            OpStage::Changing(ready) => ready.change.number(write),
        }
    }
}

impl<A, R> StepResult<A, R> {
    ghost use Rattle.std.specs.Prelude.{◌≡◌};
    ghost use Rattle.mm_machine.specs.OpSteps.{step_of_finding, step_to};
    ghost use Rattle.mm_machine.specs.declared.call.StepResult.TheVariants.{Going};

    #[inline(always)]
    fn at(stage: OpStage<A>) -> StepResult<A, R>
        ensures { result ≡ Going stage }
    {
        StepResult::Going(OpCall { stage })
    }

    // Where a call stands that has this before it, or nothing.
    #[inline(always)]
    fn to(change: Option<Change>, answer: A) -> StepResult<A, R>
        ensures { result ≡ step_to change answer }
    {
        match change {
            None => StepResult::Over(OpResult::Answered(answer)),
            Some(change) => StepResult::at(OpStage::Changing(ReadyChange { change, answer })),
        }
    }

    // Where a call stands behind what was found.
    #[inline(always)]
    fn found(found: Result<OpFinding<A>, Halt<R>>) -> StepResult<A, R>
        ensures { result ≡ step_of_finding found }
    {
        match found {
            Err(halt) => StepResult::Over(OpResult::by(halt)),
            Ok(OpFinding::Repeat(answer)) => StepResult::to(None, answer),
            Ok(OpFinding::Change(ready)) => StepResult::to(Some(ready.change), ready.answer),
        }
    }
}

impl<A, R> OpResult<A, R> {
    ghost use Rattle.std.specs.Prelude.{◌≡◌};
    ghost use Rattle.mm_machine.specs.OpSteps.{ending_by_halt};

    // How a call ends whose reading came to nothing.
    #[inline(always)]
    pub(crate) fn by(halt: Halt<R>) -> OpResult<A, R>
        ensures { result ≡ ending_by_halt halt }
    {
        match halt {
            Halt::Fault(fault) => OpResult::Broken {
                fault,
                commits: None,
            },
            Halt::Refused(refusal) => OpResult::Refused(refusal),
            Halt::Lacks => OpResult::Lacks,
        }
    }
}

// The first step of a call.
#[inline(always)]
fn advance_first<O: Operation, P: Platform>(
    op: &O,
    platform: &mut P,
    keys: &mut KeptKey,
) -> StepResult<O::Answer, O::Refusal>
    ensures steps { FirstStepGoes (O.asked op.now) (P.standing platform.old)
        (P.standing platform.new)
        result }
    ensures room { StepMayGoOn result (P.standing platform.new) }
{
    match look(op, platform, keys) {
        Err(halt) => StepResult::Over(OpResult::by(halt)),
        Ok(Sight::Cell(cell)) => StepResult::at(OpStage::Seen(cell)),
        Ok(Sight::Found(found)) => StepResult::found(with_room(found, platform)),
    }
}

// The position that a step commits.
#[inline(always)]
fn commits<O: Operation>(op: &O, ready: &ReadyChange<O::Answer>) -> Option<u64>
    ensures { result ≡ position_if_last (change_after ready.now.change)
        ((O.asked op.now).position ready.now.answer) }
{
    if ready.change.is_last() {
        Some(op.position(&ready.answer))
    } else {
        None
    }
}

// A changing step. It is handed no allocator, and takes no memory.
#[inline(always)]
fn advance_change<O: Operation, P: Platform>(
    op: &O,
    ready: ReadyChange<O::Answer>,
    platform: &mut P,
) -> StepResult<O::Answer, O::Refusal>
    requires { MayChange ready.change (P.standing platform.old) }
    ensures steps { ChangeGoes (O.asked op.now) ready (P.standing platform.old)
        (P.standing platform.new) result }
    ensures room { StepMayGoOn result (P.standing platform.new) }
{
    let commits = commits(op, &ready);
    let ReadyChange { change, answer } = ready;
    match change.make(platform) {
        Err(fault) => StepResult::Over(OpResult::Broken { fault, commits }),
        Ok(next) => StepResult::to(next, answer),
    }
}

/// Makes the next device step. An own extension needs the room that the reading steps leave.
#[inline(always)]
pub fn advance<O: Operation, P: Platform>(
    op: &O,
    call: OpCall<O::Answer>,
    platform: &mut P,
    keys: &mut KeptKey,
) -> StepResult<O::Answer, O::Refusal>
    requires room { MayGoOn call (P.standing platform.old) }
    ensures steps { OpSteps (O.asked op.now) call (P.standing platform.old)
        (P.standing platform.new)
        result }
    ensures room { StepMayGoOn result (P.standing platform.new) }
{
    match call.stage {
        OpStage::Begun => advance_first(op, platform, keys),
        OpStage::Seen(cell) => StepResult::found(weigh_with_room(op, &cell, platform, keys)),
        OpStage::Changing(ready) => advance_change(op, ready, platform),
    }
}
