//! Calls by lists.

ghost use Rattle.std.specs.Prelude.{◌≡◌};

use crate::chronicle::Chronicle;
use crate::course::{ChronicleMove, ChronicleStep, is_made_at};
use mm_bytes::Memory;
use mm_call::AskResult;
use mm_digest::Variant;
use mm_model::Refusal;
use mm_module::Batch;
use mm_outcome::CallPlan;
use mm_platform::StepFault;
use mm_seal::{Body, SealingKey};

impl Chronicle {
    ghost use Rattle.std.specs.Prelude.{◌≡◌, ◌≤◌, ℕ, List, [], ◌∷◌, true, false, IfOk};
    ghost use Rattle.mm_bytes.specs.Limits.{last_position};
    ghost use Rattle.mm_digest.specs.declared.variant.Variant.TheVariants.{Opt};
    ghost use Rattle.mm_model.specs.History.{Reads};
    ghost use Rattle.mm_module.specs.Batches.{batch_of};
    ghost use Rattle.mm_model.specs.Moves.{is_long};
    ghost use Rattle.mm_call.specs.CallOutcome.{call_outcome, reading_steps, fate_by_plan, walk};
    ghost use Rattle.mm_call.specs.Checkpoints.{checkpoint_outcome};
    ghost use Rattle.mm_call.specs.CallFinding.{list_level};
    ghost use Rattle.mm_outcome.specs.Premises.{course_of, plan_of};
    ghost use Rattle.mm_outcome.specs.OneRun.{world_key};
    ghost use Rattle.mm_expect.specs.ChronicleView.{chronicle_instance, ChronicleWalks, ChronicleGoesByCheckpoint, ChronicleClosesBy};
    ghost use Rattle.mm_expect.specs.ExpectedState.{told_offer, right_offer};
    ghost use Rattle.mm_expect.specs.Calls.{AdmitsBatch, ChronicleCalls, NewCallGoesOn, ChronicleChanges};

    // The steps of a call up to its last reading step.
    fn read(&mut self, course: &CallPlan<'_>) -> Result<Option<StepFault>, Memory>
        ensures { IfOk result (ChronicleWalks self.old self.new
            (walk (fate_by_plan (plan_of course.now.stop course.now.meddles.now)) 1
            (reading_steps self.old.variant))) }
    {
        match self.variant {
            Variant::Basic => self.walk(course, 1, &[ChronicleStep::Reads]),
            Variant::Opt => self.walk(course, 1, &[ChronicleStep::Reads, ChronicleStep::Reads]),
        }
    }

    // The steps behind the reading ones, of a call whose batch is a new one.
    fn change(
        &mut self,
        course: &CallPlan<'_>,
        batch: Batch<'_>,
    ) -> Result<Option<StepFault>, Memory>
        requires { is_long (batch_of batch) ≡ false }
        ensures { IfOk result
            (ChronicleChanges self.old self.new course.now.stop course.now.meddles.now
            (batch_of batch.entry)) }
    {
        match self.variant {
            Variant::Basic => self.walk(
                course,
                2,
                &[ChronicleStep::Writes(ChronicleMove::Commit(batch))],
            ),
            Variant::Opt => {
                if self.lists.is_open() {
                    self.walk(
                        course,
                        3,
                        &[ChronicleStep::Changes(ChronicleMove::Commit(batch))],
                    )
                } else {
                    self.walk(
                        course,
                        3,
                        &[
                            ChronicleStep::Changes(ChronicleMove::Reset),
                            ChronicleStep::Changes(ChronicleMove::Place(batch)),
                            ChronicleStep::Writes(ChronicleMove::Commit(batch)),
                        ],
                    )
                }
            }
        }
    }

    /// A call that offers this and asks for the batch.
    pub(crate) fn call(
        &mut self,
        key: &mut SealingKey,
        course: &CallPlan<'_>,
        offer: &Result<Body<'_>, Refusal>,
        batch: Batch<'_>,
    ) -> Result<AskResult, Memory>
        requires key { key.old ≡ world_key }
        requires few { IfOk offer.now (λ body. body.position ≤ last_position) }
        requires short { is_long (batch_of batch) ≡ false }
        ensures key { key.new ≡ key.old }
        ensures calls { (bytes : List ℕ)
            → told_offer offer.now ≡ right_offer (chronicle_instance self.old) bytes
            → IfOk result (ChronicleCalls self.old self.new
            (call_outcome (chronicle_instance self.old) (list_level (chronicle_instance self.old))
            self.old.history
            (course_of course.now.stop course.now.meddles.now) bytes (batch_of batch.entry))) }
    {
        if let Some(fault) = self.read(course)? {
            return Ok(AskResult::Broken {
                fault,
                commits: None,
            });
        }
        match self.find(offer, batch) {
            Err(refusal) => Ok(AskResult::Refused(refusal)),
            Ok(true) => self.answer(key, batch, true),
            Ok(false) => self.call_new(key, course, batch),
        }
    }

    // The rest of a call whose batch is a new one.
    fn call_new(
        &mut self,
        key: &mut SealingKey,
        course: &CallPlan<'_>,
        batch: Batch<'_>,
    ) -> Result<AskResult, Memory>
        requires key { key.old ≡ world_key }
        requires short { is_long (batch_of batch) ≡ false }
        requires admits { AdmitsBatch self.old.history (batch_of batch) false }
        ensures key { key.new ≡ key.old }
        ensures goes { IfOk result
            (NewCallGoesOn self.old self.new course.now.stop course.now.meddles.now
            (batch_of batch.entry)) }
    {
        let before = self.total();
        match self.change(course, batch)? {
            None => self.answer(key, batch, false),
            Some(fault) => {
                let total = self.total();
                let commits = if total == before { None } else { Some(total) };
                Ok(AskResult::Broken { fault, commits })
            }
        }
    }

    /// A checkpoint.
    pub(crate) fn checkpoint(&mut self, course: &CallPlan<'_>) -> Result<ClosingResult, Memory>
        ensures { IfOk result
            (ChronicleGoesByCheckpoint self.old self.new
            (checkpoint_outcome (chronicle_instance self.old)
            (list_level (chronicle_instance self.old))
            self.old.history
            (course_of course.now.stop course.now.meddles.now))) }
    {
        match self.variant {
            Variant::Basic => self.check_shut(course, ClosingResult::HasNone),
            Variant::Opt => {
                if self.lists.is_open() {
                    self.check_open(course)
                } else {
                    self.check_shut(course, ClosingResult::NoSegment)
                }
            }
        }
    }

    // A checkpoint that reads the cell alone, and ends so unless it is broken off.
    fn check_shut(
        &mut self,
        course: &CallPlan<'_>,
        closing: ClosingResult,
    ) -> Result<ClosingResult, Memory>
        ensures { IfOk result
            (ChronicleClosesBy self.old self.new
            (walk (fate_by_plan (plan_of course.now.stop course.now.meddles.now)) 1 (Reads ∷ []))
            closing) }
    {
        match self.walk(course, 1, &[ChronicleStep::Reads])? {
            None => Ok(closing),
            Some(fault) => Ok(ClosingResult::Stops {
                fault,
                closed: false,
            }),
        }
    }

    // A checkpoint of an open segment.
    fn check_open(&mut self, course: &CallPlan<'_>) -> Result<ClosingResult, Memory>
        requires variant { self.old.variant ≡ Opt }
        requires inside { self.old.history.is_open ≡ true }
        ensures { IfOk result
            (ChronicleGoesByCheckpoint self.old self.new
            (checkpoint_outcome (chronicle_instance self.old)
            (list_level (chronicle_instance self.old))
            self.old.history
            (course_of course.now.stop course.now.meddles.now))) }
    {
        if let Some(fault) = self.walk(course, 1, &[ChronicleStep::Reads, ChronicleStep::Reads])? {
            return Ok(ClosingResult::Stops {
                fault,
                closed: false,
            });
        }
        if self.is_lost() {
            return Ok(ClosingResult::LostPower);
        }
        match self.walk(course, 3, &[ChronicleStep::Writes(ChronicleMove::Close)])? {
            None => Ok(ClosingResult::Closes),
            Some(fault) => Ok(ClosingResult::Stops {
                fault,
                closed: is_made_at(course.stop, 3),
            }),
        }
    }
}

/// How a checkpoint ends.
#[derive(Clone, Copy)]
pub(crate) enum ClosingResult {
    Closes,
    HasNone,
    NoSegment,
    LostPower,
    Stops { fault: StepFault, closed: bool },
}

impl ClosingResult {
    ghost use Rattle.std.specs.Prelude.{◌≡◌};
    ghost use Rattle.mm_expect.specs.ChronicleView.{is_broken_off};

    /// Whether a device's fault broke the checkpoint off.
    pub(crate) fn stops(&self) -> bool
        ensures { result ≡ is_broken_off self.now }
    {
        match self {
            ClosingResult::Stops { .. } => true,
            ClosingResult::Closes
            | ClosingResult::HasNone
            | ClosingResult::NoSegment
            | ClosingResult::LostPower => false,
        }
    }
}
