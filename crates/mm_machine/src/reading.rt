//! The steps that read, and what they come to.

ghost use Rattle.std.specs.Prelude.{◌≡◌, ℕ, List, None, Some, Ok, OnOk, IfOk};
ghost use Rattle.mm_platform.specs.Standing.{Item, item_values, register_after};
ghost use Rattle.mm_machine.specs.OpSteps.{SightFinds, FindsRoom, LeavesRoom, OpLooks, OpReads, RoomIsMadeFor, OpWeighs, found_with_room};
ghost use Rattle.mm_machine.specs.OpSteps.{has_extension, StandsAsPrepared, StandsAsRead, found_in};

use crate::operation::{OpFinding, Operation, Sight};
use mm_bytes::CELL_LENGTH;
use mm_digest::{Digest, zero};
use mm_platform::{Platform, StepFault};
use mm_seal::{Cell, KeptKey};

/// Why reading comes to nothing.
#[derive(Drop)]
pub enum Halt<R> {
    /// A device failed.
    Fault(StepFault),
    /// It is refused.
    Refused(R),
    /// Memory is wanting to record the own extension that is to come.
    Lacks,
}

/// What was found, and what was read for it: the cell's bytes, and the register's value where that
/// was wanted.
#[derive(Drop)]
pub struct OpPrepared<A> {
    pub found: OpFinding<A>,
    pub cell: [u8; CELL_LENGTH],
    pub register: Option<Digest>,
}

// Whether what was found is still to extend the register.
#[inline(always)]
fn extends<A>(found: &OpFinding<A>) -> bool
    ensures { result ≡ has_extension found.now }
{
    match found {
        OpFinding::Repeat(_) => false,
        OpFinding::Change(ready) => ready.change.extends(),
    }
}

// The first step: reads the cell, into these bytes.
#[inline(always)]
fn look_into<O: Operation, P: Platform>(
    op: &O,
    platform: &mut P,
    keys: &mut KeptKey,
    into: &mut [u8; CELL_LENGTH],
) -> Result<Sight<O::Answer>, Halt<O::Refusal>>
    ensures looks { OpLooks (O.asked op.now) (P.standing platform.old) (P.standing platform.new)
        result }
    ensures kept { OnOk result (StandsAsRead into.new None (P.standing platform.new)) }
{
    match platform.nv_read(into) {
        Err(fault) => Err(Halt::Fault(fault)),
        Ok(()) => match op.see(into, keys) {
            Ok(sight) => Ok(sight),
            Err(refusal) => Err(Halt::Refused(refusal)),
        },
    }
}

/// The first step: reads the cell.
#[inline(always)]
pub(crate) fn look<O: Operation, P: Platform>(
    op: &O,
    platform: &mut P,
    keys: &mut KeptKey,
) -> Result<Sight<O::Answer>, Halt<O::Refusal>>
    ensures { OpLooks (O.asked op.now) (P.standing platform.old) (P.standing platform.new) result }
{
    look_into(op, platform, keys, &mut [0; CELL_LENGTH])
}

// The second step: reads the register, into this value.
#[inline(always)]
fn weigh_into<O: Operation, P: Platform>(
    op: &O,
    cell: &Cell,
    platform: &mut P,
    keys: &mut KeptKey,
    into: &mut Digest,
) -> Result<OpFinding<O::Answer>, Halt<O::Refusal>>
    ensures weighs { OpWeighs (O.asked op.now) cell.now (P.standing platform.old)
        (P.standing platform.new) result }
    ensures cell { (P.standing platform.new).cell ≡ (P.standing platform.old).cell }
    ensures kept { OnOk result ((items : List Item) → (P.standing platform.new).items ≡ Some items
        → into.new.bytes ≡ register_after (item_values items)) }
{
    match platform.reg_read() {
        Err(fault) => Err(Halt::Fault(fault)),
        Ok(register) => {
            *into = register;
            match op.find(cell, &register, keys) {
                Ok(found) => Ok(found),
                Err(refusal) => Err(Halt::Refused(refusal)),
            }
        }
    }
}

/// The second step: reads the register.
#[inline(always)]
pub(crate) fn weigh<O: Operation, P: Platform>(
    op: &O,
    cell: &Cell,
    platform: &mut P,
    keys: &mut KeptKey,
) -> Result<OpFinding<O::Answer>, Halt<O::Refusal>>
    ensures { OpWeighs (O.asked op.now) cell.now (P.standing platform.old) (P.standing platform.new)
        result }
{
    weigh_into(op, cell, platform, keys, &mut zero())
}

/// Makes room for the own extension that is to come, where one is. Lacks where memory is wanting.
#[inline(always)]
pub(crate) fn make_room<A: Drop, R, P: Platform>(
    found: &OpFinding<A>,
    platform: &mut P,
) -> Result<(), Halt<R>>
    ensures rooms { RoomIsMadeFor (Ok found.now) (P.standing platform.old)
        (P.standing platform.new) (found_with_room found.now result) }
    ensures room { LeavesRoom (found_with_room found.now result) (P.standing platform.new) }
{
    if !extends(found) {
        return Ok(());
    }
    match platform.reg_ready() {
        Ok(()) => Ok(()),
        Err(_) => Err(Halt::Lacks),
    }
}

// What was found, with room for it.
#[inline(always)]
pub(crate) fn with_room<A: Drop, R, P: Platform>(
    found: OpFinding<A>,
    platform: &mut P,
) -> Result<OpFinding<A>, Halt<R>>
    ensures rooms { RoomIsMadeFor (Ok found) (P.standing platform.old)
        (P.standing platform.new) result }
    ensures room { LeavesRoom result (P.standing platform.new) }
{
    match make_room(&found, platform) {
        Ok(()) => Ok(found),
        Err(halt) => Err(halt),
    }
}

/// The second step, and room for what it finds.
#[inline(always)]
pub(crate) fn weigh_with_room<O: Operation, P: Platform>(
    op: &O,
    cell: &Cell,
    platform: &mut P,
    keys: &mut KeptKey,
) -> Result<OpFinding<O::Answer>, Halt<O::Refusal>>
    ensures finds { FindsRoom (OpWeighs (O.asked op.now) cell.now (P.standing platform.old))
        (P.standing platform.new) result }
    ensures room { LeavesRoom result (P.standing platform.new) }
{
    match weigh(op, cell, platform, keys) {
        Ok(found) => with_room(found, platform),
        Err(halt) => Err(halt),
    }
}

// What was found, with room for it, and what was read.
#[inline(always)]
fn prepared<A: Drop, R, P: Platform>(
    found: OpFinding<A>,
    cell: [u8; CELL_LENGTH],
    register: Option<Digest>,
    platform: &mut P,
) -> Result<OpPrepared<A>, Halt<R>>
    requires { StandsAsRead cell register (P.standing platform.old) }
    ensures rooms { RoomIsMadeFor (Ok found) (P.standing platform.old) (P.standing platform.new)
        (found_in result) }
    ensures stands { IfOk result (λ it. StandsAsPrepared it (P.standing platform.new)) }
{
    match make_room(&found, platform) {
        Err(halt) => Err(halt),
        Ok(()) => Ok(OpPrepared {
            found,
            cell,
            register,
        }),
    }
}

// The second step of a call that saw this cell, and what both steps read.
#[inline(always)]
fn prepared_seen<O: Operation, P: Platform>(
    op: &O,
    cell: &Cell,
    bytes: [u8; CELL_LENGTH],
    platform: &mut P,
    keys: &mut KeptKey,
) -> Result<OpPrepared<O::Answer>, Halt<O::Refusal>>
    requires { StandsAsRead bytes None (P.standing platform.old) }
    ensures finds { FindsRoom (OpWeighs (O.asked op.now) cell.now (P.standing platform.old))
        (P.standing platform.new) (found_in result) }
    ensures stands { IfOk result (λ it. StandsAsPrepared it (P.standing platform.new)) }
{
    let mut register = zero();
    match weigh_into(op, cell, platform, keys, &mut register) {
        Err(halt) => Err(halt),
        Ok(found) => prepared(found, bytes, Some(register), platform),
    }
}

/// Reads, and finds what is to be done, with room for it. What was read is kept, so that it can be
/// said of a platform that it still stands so.
#[inline(always)]
pub fn read<O: Operation, P: Platform>(
    op: &O,
    platform: &mut P,
    keys: &mut KeptKey,
) -> Result<OpPrepared<O::Answer>, Halt<O::Refusal>>
    ensures reads { OpReads (O.asked op.now) (P.standing platform.old) (P.standing platform.new)
        (found_in result) }
    ensures stands { IfOk result (λ it. StandsAsPrepared it (P.standing platform.new)) }
{
    let mut bytes = [0; CELL_LENGTH];
    match look_into(op, platform, keys, &mut bytes) {
        Err(halt) => Err(halt),
        Ok(Sight::Found(found)) => prepared(found, bytes, None, platform),
        Ok(Sight::Cell(cell)) => prepared_seen(op, &cell, bytes, platform, keys),
    }
}
