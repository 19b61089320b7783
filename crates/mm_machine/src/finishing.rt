//! What is left of a call, to its end.

ghost use Rattle.std.specs.Prelude.{◌≡◌, ◌≤◌, ◌∷◌, [], None, Some, Ok};
ghost use Rattle.mm_platform.specs.Standing.{ExtendRegister, ResetRegister, WriteCell};
ghost use Rattle.mm_machine.specs.Acts.{MayChange, remaining_acts};
ghost use Rattle.mm_machine.specs.OpSteps.{ActsEndBy, FindsAndEnds, OpEnds, ending_at_last, RoomIsMadeFor, MayGoOn};
ghost use Rattle.mm_machine.specs.declared.call.OpStage.TheVariants.{Begun, Seen};

use crate::call::{OpCall, OpResult, OpStage, StepResult, advance};
use crate::change::{Change, SegmentOpening};
use crate::operation::{OpFinding, Operation, ReadyChange, Sight};
use crate::reading::{look, make_room, weigh};
use mm_platform::{Platform, StepFault};
use mm_seal::{Cell, KeptKey};

// How a call ended at its last step.
#[inline(always)]
fn ended_last<A: Drop, R>(position: u64, answer: A, made: Result<(), StepFault>) -> OpResult<A, R>
    ensures { result ≡ ending_at_last position answer made }
{
    match made {
        Ok(()) => OpResult::Answered(answer),
        Err(fault) => OpResult::Broken {
            fault,
            commits: Some(position),
        },
    }
}

// The steps of an opening behind the reset.
#[inline(always)]
fn place_and_write<A: Drop, R, P: Platform>(
    position: u64,
    opening: &SegmentOpening,
    answer: A,
    platform: &mut P,
) -> OpResult<A, R>
    requires { 1 ≤ (P.standing platform.old).spare }
    ensures { ActsEndBy position
        (ExtendRegister opening.now.value.bytes ∷ WriteCell opening.now.next ∷ []) answer
        (P.standing platform.old) (P.standing platform.new) result }
{
    match platform.reg_extend(&opening.value) {
        Err(fault) => OpResult::Broken {
            fault,
            commits: None,
        },
        Ok(()) => ended_last(position, answer, platform.nv_write(&opening.next)),
    }
}

// The steps of an opening.
#[inline(always)]
fn open<A: Drop, R, P: Platform>(
    position: u64,
    opening: &SegmentOpening,
    answer: A,
    platform: &mut P,
) -> OpResult<A, R>
    requires { 1 ≤ (P.standing platform.old).spare }
    ensures { ActsEndBy position
        (ResetRegister ∷ ExtendRegister opening.now.value.bytes ∷ WriteCell opening.now.next ∷ [])
        answer (P.standing platform.old) (P.standing platform.new) result }
{
    match platform.reg_reset() {
        Err(fault) => OpResult::Broken {
            fault,
            commits: None,
        },
        Ok(()) => place_and_write(position, opening, answer, platform),
    }
}

/// The changing steps that are left, of which the last commits up to this position. They are handed
/// no allocator, and take no memory.
#[inline(always)]
pub fn finish_change<A: Drop, R, P: Platform>(
    position: u64,
    ready: ReadyChange<A>,
    platform: &mut P,
) -> OpResult<A, R>
    requires { MayChange ready.change (P.standing platform.old) }
    ensures { ActsEndBy position (remaining_acts ready.change) ready.answer
        (P.standing platform.old) (P.standing platform.new) result }
{
    let ReadyChange { change, answer } = ready;
    match change {
        Change::Extending(value) => ended_last(position, answer, platform.reg_extend(&value)),
        Change::Emptying(opening) => open(position, &opening, answer, platform),
        Change::Placing(opening) => place_and_write(position, &opening, answer, platform),
        Change::Writing(next) => ended_last(position, answer, platform.nv_write(&next)),
    }
}

// What is left of a call that found this: room is made for it, and its steps follow.
#[inline(always)]
fn finish_found<O: Operation, P: Platform>(
    op: &O,
    found: OpFinding<O::Answer>,
    platform: &mut P,
) -> OpResult<O::Answer, O::Refusal>
    ensures { FindsAndEnds (O.asked op.now) (RoomIsMadeFor (Ok found) (P.standing platform.old))
        (P.standing platform.new) result }
{
    match make_room(&found, platform) {
        Err(halt) => OpResult::by(halt),
        Ok(()) => match found {
            OpFinding::Repeat(answer) => OpResult::Answered(answer),
            OpFinding::Change(ready) => finish_change(op.position(&ready.answer), ready, platform),
        },
    }
}

// What is left of a call that saw this cell.
#[inline(always)]
fn finish_seen<O: Operation, P: Platform>(
    op: &O,
    cell: &Cell,
    platform: &mut P,
    keys: &mut KeptKey,
) -> OpResult<O::Answer, O::Refusal>
    ensures { OpEnds (O.asked op.now) (Seen cell.now) (P.standing platform.old)
        (P.standing platform.new) result }
{
    match weigh(op, cell, platform, keys) {
        Err(halt) => OpResult::by(halt),
        Ok(found) => finish_found(op, found, platform),
    }
}

/// A whole call: what `finish` does with one that stands before its first step.
#[inline(always)]
pub fn run<O: Operation, P: Platform>(
    op: &O,
    platform: &mut P,
    keys: &mut KeptKey,
) -> OpResult<O::Answer, O::Refusal>
    ensures { OpEnds (O.asked op.now) Begun (P.standing platform.old) (P.standing platform.new)
        result }
{
    match look(op, platform, keys) {
        Err(halt) => OpResult::by(halt),
        Ok(Sight::Found(found)) => finish_found(op, found, platform),
        Ok(Sight::Cell(cell)) => finish_seen(op, &cell, platform, keys),
    }
}

/// Moves a call to its end: what `advance` does, over and over. An own extension needs the room
/// that the reading steps leave.
#[inline(always)]
pub fn finish<O: Operation, P: Platform>(
    op: &O,
    call: OpCall<O::Answer>,
    platform: &mut P,
    keys: &mut KeptKey,
) -> OpResult<O::Answer, O::Refusal>
    requires room { MayGoOn call (P.standing platform.old) }
    ensures { OpEnds (O.asked op.now) call (P.standing platform.old) (P.standing platform.new)
        result }
{
    match call.into_stage() {
        OpStage::Begun => run(op, platform, keys),
        OpStage::Seen(cell) => finish_seen(op, &cell, platform, keys),
        OpStage::Changing(ready) => finish_change(op.position(&ready.answer), ready, platform),
    }
}

/// One step, and then the rest: the call comes to the same as by `finish` at once.
pub fn advance_and_finish<O: Operation, P: Platform>(
    op: &O,
    call: OpCall<O::Answer>,
    platform: &mut P,
    keys: &mut KeptKey,
) -> OpResult<O::Answer, O::Refusal>
    requires room { MayGoOn call (P.standing platform.old) }
    ensures { OpEnds (O.asked op.now) call (P.standing platform.old) (P.standing platform.new)
        result }
{
    match advance(op, call, platform, keys) {
        StepResult::Going(call) => finish(op, call, platform, keys),
        StepResult::Over(ended) => ended,
    }
}
