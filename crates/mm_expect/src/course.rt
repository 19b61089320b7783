//! The course that a schedule plans for a call.

ghost use Rattle.std.specs.Prelude.{◌≡◌};
ghost use Rattle.mm_platform.specs.Standing.{fault_at, is_made_at};

use crate::chronicle::Chronicle;
use mm_bytes::Memory;
use mm_module::Batch;
use mm_outcome::CallPlan;
use mm_platform::{StepFault, Stop};

/// What a step of the core does to a history.
#[derive(Clone, Copy)]
pub(crate) enum ChronicleMove<'a> {
    Commit(Batch<'a>),
    Place(Batch<'a>),
    Reset,
    Close,
}

/// A device step: it reads, or changes the register, or writes the cell.
#[derive(Clone, Copy)]
pub(crate) enum ChronicleStep<'a> {
    Reads,
    Changes(ChronicleMove<'a>),
    Writes(ChronicleMove<'a>),
}

// The fault that the step of this number answers.
fn fault_at(stop: Stop, step: u8) -> Option<StepFault>
    ensures { result ≡ fault_at stop step }
{
    match stop {
        Stop::Quiet => None,
        Stop::Cut(at) | Stop::Drop(at) => (at == step).then_some(StepFault::Off),
        Stop::Fail { step: at, .. } => (at == step).then_some(StepFault::Failed),
    }
}

/// Whether the step of this number has its effect.
pub(crate) fn is_made_at(stop: Stop, step: u8) -> bool
    ensures { result ≡ is_made_at stop step }
{
    match stop {
        Stop::Quiet | Stop::Cut(_) | Stop::Drop(_) => true,
        Stop::Fail { step: at, done } => at != step || done,
    }
}

impl Chronicle {
    ghost use Rattle.std.specs.Prelude.{◌≡◌, ◌+◌, ◌<◌, [], ◌∷◌, map, false, length, IfOk, OnOk};
    ghost use Rattle.mm_model.specs.History.{Foreign};
    ghost use Rattle.mm_platform.specs.Standing.{due_values};
    ghost use Rattle.mm_call.specs.CallOutcome.{fate_by_plan, walk, step_moves, made_move};
    ghost use Rattle.mm_outcome.specs.Premises.{plan_of};
    ghost use Rattle.mm_expect.specs.ChronicleView.{ChronicleGoes, move_of, model_step_of, steps_of, IsShortMove, IsShortStep, AreShort};
    ghost use Rattle.mm_expect.specs.ChronicleView.{ChronicleWalks};

    // A move of the core is made where its step has its effect.
    fn make(&mut self, is_made: bool, action: &ChronicleMove<'_>) -> Result<(), Memory>
        requires { IsShortMove action.now }
        ensures { OnOk result
            (ChronicleGoes self.old self.new (made_move is_made (move_of action.now))) }
    {
        if !is_made {
            return Ok(());
        }
        match *action {
            ChronicleMove::Commit(batch) => self.commit(batch),
            ChronicleMove::Place(batch) => self.place(batch),
            ChronicleMove::Reset => {
                self.empty();
                Ok(())
            }
            ChronicleMove::Close => self.close(),
        }
    }

    // What others put into the register just before the step of this number.
    fn bring_due(&mut self, course: &CallPlan<'_>, step: u8) -> Result<(), Memory>
        ensures { OnOk result
            (ChronicleGoes self.old self.new
            (map Foreign (due_values step course.now.meddles.now))) }
    {
        'meddles: for meddle in course.meddles {
            if meddle.step == step {
                self.bring(&meddle.value)?;
            }
        }
        Ok(())
    }

    // One device step, by whether it has its effect.
    fn step(
        &mut self,
        course: &CallPlan<'_>,
        number: u8,
        step: &ChronicleStep<'_>,
        is_made: bool,
    ) -> Result<(), Memory>
        requires { IsShortStep step.now }
        ensures { OnOk result
            (ChronicleGoes self.old self.new
            (step_moves (model_step_of step.now) is_made
            (due_values number course.now.meddles.now))) }
    {
        match step {
            ChronicleStep::Reads => self.bring_due(course, number),
            ChronicleStep::Changes(action) => {
                self.bring_due(course, number)?;
                self.make(is_made, action)
            }
            ChronicleStep::Writes(action) => {
                self.make(is_made, action)?;
                self.bring_due(course, number)
            }
        }
    }

    /// The steps of a call, one after another, from the step of this number on: the fault by which
    /// the call is broken off.
    pub(crate) fn walk(
        &mut self,
        course: &CallPlan<'_>,
        number: u8,
        steps: &[ChronicleStep<'_>],
    ) -> Result<Option<StepFault>, Memory>
        requires short { AreShort steps.now }
        requires few { number + length steps.now < 256 }
        ensures { IfOk result
            (ChronicleWalks self.old self.new
            (walk (fate_by_plan (plan_of course.now.stop course.now.meddles.now)) number
            (steps_of steps.now))) }
    {
        let Some((step, later)) = steps.split_first() else {
            return Ok(None);
        };
        self.step(course, number, step, is_made_at(course.stop, number))?;
        match fault_at(course.stop, number) {
            Some(fault) => Ok(Some(fault)),
            None => self.walk(course, number + 1, later),
        }
    }
}
