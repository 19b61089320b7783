//! A whole call of either core, and its two parts: the steps that read, and those that commit what
//! they found.

ghost use Rattle.std.specs.Prelude.{◌≡◌, ◌≤◌, true, IfOk};
ghost use Rattle.std.specs.Result.{result_err};
ghost use Rattle.mm_machine.specs.OpSteps.{acts_for, answer_in, has_extension, StandsAsPrepared, found_in};
ghost use Rattle.mm_machine.specs.declared.call.OpStage.TheVariants.{Begun};
ghost use Rattle.mm_call.specs.CallKind.{CommitsFinding, result_of, CallFinishes, CallReads, IsMade, end_of_machine};
ghost use Rattle.mm_call.specs.CallFinding.{CountsHandedFault, result_with_fault};

use crate::ended::{AskResult, refusal_of};
use mm_machine::{OpFinding, OpPrepared, Operation, finish_change, read, run};
use mm_model::{BatchAnswer, Refusal};
use mm_platform::{Platform, StepFault};
use mm_seal::KeptKey;
use std::marker::Model;

/// A call whose batch is committed. Contracts see its answer.
#[derive(Drop)]
pub struct Committed {
    answer: BatchAnswer,
}

impl Model for Committed {
    ghost use Rattle.mm_model.specs.declared.answer.BatchAnswer.{BatchAnswer};

    ghost Value = { BatchAnswer };

    ghost view = { λ committed. committed.answer };
}

impl Committed {
    /// The answer. Takes no memory.
    pub fn answer(self) -> BatchAnswer
        ensures { result ≡ self }
    {
        self.answer
    }
}

/// Makes the reading steps, and room for what they found. What was read is kept, and the platform
/// stands so.
#[inline(always)]
pub fn read_call<O: Operation<Answer = BatchAnswer, Refusal = Refusal>, P: Platform>(
    op: &O,
    platform: &mut P,
    keys: &mut KeptKey,
) -> Result<OpPrepared<BatchAnswer>, Refusal>
    ensures reads { CallReads (O.asked op.now) (P.standing platform.old) (P.standing platform.new)
        (found_in result) }
    ensures stands { IfOk result (λ it. StandsAsPrepared it (P.standing platform.new)) }
{
    match read(op, platform, keys) {
        Ok(prepared) => Ok(prepared),
        Err(halt) => Err(refusal_of(halt)),
    }
}

/// `read_call` with a key that is absorbed for this call alone.
#[inline(always)]
pub fn read_call_alone<O: Operation<Answer = BatchAnswer, Refusal = Refusal>, P: Platform>(
    op: &O,
    platform: &mut P,
) -> Result<OpPrepared<BatchAnswer>, Refusal>
    ensures reads { CallReads (O.asked op.now) (P.standing platform.old) (P.standing platform.new)
        (found_in result) }
    ensures stands { IfOk result (λ it. StandsAsPrepared it (P.standing platform.new)) }
{
    read_call(op, platform, &mut KeptKey::new())
}

// The changing steps that commit this, with room for the extension among them.
#[inline(always)]
fn commit_found<P: Platform>(
    found: OpFinding<BatchAnswer>,
    platform: &mut P,
) -> Result<Committed, StepFault>
    requires { has_extension found ≡ true → 1 ≤ (P.standing platform.old).spare }
    ensures commits { CommitsFinding (acts_for found) (answer_in found) (P.standing platform.old)
        (P.standing platform.new) result }
    ensures faults { CountsHandedFault (result_err result)
        (P.standing platform.old).faults (P.standing platform.new).faults }
{
    match found {
        OpFinding::Repeat(answer) => Ok(Committed { answer }),
        OpFinding::Change(ready) => {
            handed_out(finish_change(ready.answer.position, ready, platform))
        }
    }
}

/// Makes the changing steps, which commit what was found; a repeat has none. The platform has to
/// stand as the reading steps left it, items of others aside. Takes no memory, but the room that
/// the reading steps left.
pub fn commit<P: Platform>(
    prepared: OpPrepared<BatchAnswer>,
    platform: &mut P,
) -> Result<Committed, StepFault>
    requires { StandsAsPrepared prepared (P.standing platform.old) }
    ensures commits { CommitsFinding (acts_for prepared.found) (answer_in prepared.found)
        (P.standing platform.old) (P.standing platform.new) result }
    ensures faults { CountsHandedFault (result_err result)
        (P.standing platform.old).faults (P.standing platform.new).faults }
{
    commit_found(prepared.found, platform)
}

// What the changing steps of a call gave.
#[inline(always)]
fn handed_out(ended: mm_machine::OpResult<BatchAnswer, Refusal>) -> Result<Committed, StepFault>
    requires { IsMade ended }
    ensures { result_of (end_of_machine ended) ≡ result_with_fault result }
{
    match ended {
        mm_machine::OpResult::Answered(answer) => Ok(Committed { answer }),
        mm_machine::OpResult::Broken { fault, .. } => Err(fault),
        mm_machine::OpResult::Refused(_) | mm_machine::OpResult::Lacks => unreachable!(),
    }
}

/// The whole call, from its first step to its end. After the reading steps it has no allocator.
#[inline(always)]
pub fn finish_call<O: Operation<Answer = BatchAnswer, Refusal = Refusal>, P: Platform>(
    op: &O,
    platform: &mut P,
    keys: &mut KeptKey,
) -> AskResult
    ensures { CallFinishes (O.asked op.now) Begun (P.standing platform.old)
        (P.standing platform.new) result }
{
    AskResult::of(run(op, platform, keys))
}
