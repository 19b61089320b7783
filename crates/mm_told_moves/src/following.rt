//! A move, which what a host's cell answered leads on.

ghost use Rattle.std.specs.Prelude.{◌≡◌, ◌↔◌, ◌∷◌, IsTrue, Ok};
ghost use Rattle.std.specs.Result.{result_err};
ghost use Rattle.mm_platform.specs.Standing.{WriteCell};
ghost use Rattle.mm_move.specs.Cells.{move_answer};
ghost use Rattle.mm_told.specs.CallPath.{TellsOutcome, fault_of_answer, made_act};
ghost use Rattle.mm_told_moves.specs.ToldMovePromise.{IsFoundOutcome, ended_outcome, IsReadyOutcome, IsWriteOutcome, wants_memory};
ghost use Rattle.mm_told_moves.specs.ToldMovePromise.{move_protocol};

use crate::finding::{FoundMove, HostMove};
use mm_bytes::CELL_LENGTH;
use mm_model::Refusal;
use mm_move::MoveRefusal;
use mm_platform::StepFault;
use mm_told::{HostStep, MadeStep, StepsOutcome};

/// What a move comes to with these steps made.
pub fn follow<V: HostMove>(
    it: &V,
    made: &[MadeStep],
) -> StepsOutcome<Result<V::Answer, MoveRefusal>>
    ensures { TellsOutcome (move_protocol (V.finds it.now)) (λ given. given) made.now result }
{
    match made {
        [] => StepsOutcome::Next(HostStep::ReadCell),
        [first, more @ ..] => behind(it, first, more),
    }
}

// Behind the first step.
fn behind<V: HostMove>(
    it: &V,
    first: &MadeStep,
    more: &[MadeStep],
) -> StepsOutcome<Result<V::Answer, MoveRefusal>>
    ensures { TellsOutcome (move_protocol (V.finds it.now)) (λ given. given)
        (first.now ∷ more.now) result }
{
    match first {
        MadeStep::ReadCell(answer) => read(it, answer, more),
        _ => StepsOutcome::Differs,
    }
}

// The cell was read, or that failed.
fn read<V: HostMove>(
    it: &V,
    answer: &Result<[u8; CELL_LENGTH], StepFault>,
    more: &[MadeStep],
) -> StepsOutcome<Result<V::Answer, MoveRefusal>>
    ensures { TellsOutcome (move_protocol (V.finds it.now)) (λ given. given)
        (MadeStep.ReadCell answer.now ∷ more.now) result }
{
    match answer {
        Ok(bytes) => seen(it, bytes, more),
        Err(fault) => ended(Err(device(*fault)), more),
    }
}

// These bytes were read.
fn seen<V: HostMove>(
    it: &V,
    bytes: &[u8; CELL_LENGTH],
    more: &[MadeStep],
) -> StepsOutcome<Result<V::Answer, MoveRefusal>>
    ensures { TellsOutcome (move_protocol (V.finds it.now)) (λ given. given)
        (MadeStep.ReadCell (Ok bytes.now) ∷ more.now) result }
{
    told(it.find(bytes), more)
}

fn device(fault: StepFault) -> MoveRefusal
    ensures { result ≡ MoveRefusal.Core (Refusal.Device fault) }
{
    MoveRefusal::Core(Refusal::Device(fault))
}

// Behind what was found, with these steps made behind the first.
fn told<A: Drop>(
    found: Result<FoundMove<A>, MoveRefusal>,
    more: &[MadeStep],
) -> StepsOutcome<Result<A, MoveRefusal>>
    ensures { IsFoundOutcome found more.now result }
{
    match found {
        Err(why) => ended(Err(why), more),
        Ok(found) => ready(found, more),
    }
}

fn ready<A: Drop>(found: FoundMove<A>, more: &[MadeStep]) -> StepsOutcome<Result<A, MoveRefusal>>
    ensures { IsReadyOutcome found.next found.answer more.now result }
{
    let FoundMove { next, answer } = found;
    match next {
        None => ended(Ok(answer), more),
        Some(next) => written(&next, answer, more),
    }
}

// Behind a cell that is to be written.
fn written<A: Drop>(
    next: &[u8; CELL_LENGTH],
    answer: A,
    more: &[MadeStep],
) -> StepsOutcome<Result<A, MoveRefusal>>
    ensures { IsWriteOutcome next.now answer more.now result }
{
    match more {
        [] => StepsOutcome::Next(HostStep::WriteCell(*next)),
        [it, more @ ..] => {
            if !is_write_of(it, next) {
                return StepsOutcome::Differs;
            }
            ended(given(answer, it), more)
        }
    }
}

// Whether these bytes were written to the cell.
fn is_write_of(it: &MadeStep, next: &[u8; CELL_LENGTH]) -> bool
    ensures { IsTrue result ↔ (made_act it.now ≡ WriteCell next.now) }
{
    match it {
        MadeStep::WriteCell(bytes, _) => bytes == next,
        _ => false,
    }
}

// The answer, once the cell is written.
fn given<A: Drop>(answer: A, it: &MadeStep) -> Result<A, MoveRefusal>
    ensures { result ≡ move_answer answer (fault_of_answer it.now) }
{
    match fault_in(it) {
        None => Ok(answer),
        Some(fault) => Err(device(fault)),
    }
}

// The fault that was answered.
fn fault_in(it: &MadeStep) -> Option<StepFault>
    ensures { result ≡ fault_of_answer it.now }
{
    match it {
        MadeStep::ReadCell(answer) => answer.err(),
        MadeStep::ReadRegister(answer) => answer.err(),
        MadeStep::WriteCell(_, answer) => answer.err(),
        MadeStep::ResetRegister(answer) => answer.err(),
        MadeStep::ExtendRegister(_, answer) => answer.err(),
    }
}

// The move ended, and these steps were made behind that.
fn ended<A: Drop>(
    given: Result<A, MoveRefusal>,
    more: &[MadeStep],
) -> StepsOutcome<Result<A, MoveRefusal>>
    ensures { result ≡ ended_outcome given more.now }
{
    if more.is_empty() {
        StepsOutcome::Ended(given)
    } else if wants_memory(&given) {
        StepsOutcome::Memory
    } else {
        StepsOutcome::Differs
    }
}

fn wants_memory<A>(given: &Result<A, MoveRefusal>) -> bool
    ensures { result ≡ wants_memory given.now }
{
    matches!(given, Err(MoveRefusal::Core(Refusal::Memory)))
}
