//! A platform with two slots: steps on one leave the other, the power is common, and memory is
//! found for others' values and for one's own.

ghost use Rattle.std.specs.Prelude.{◌≡◌, ◌<◌, IfOk, length};

use mm_bytes::CELL_LENGTH;
use mm_digest::{Digest, extended, zero};
use mm_platform::{Nv, Platform, Register, StepFault};
use mm_slots::SlotPlatform;
use std::alloc::Global;
use std::test::Fail;

/// The bytes of the first and the second slot's cell, and those that are written.
const FIRST: [u8; CELL_LENGTH] = [0; CELL_LENGTH];

const SECOND: [u8; CELL_LENGTH] = [1; CELL_LENGTH];

const WRITTEN: [u8; CELL_LENGTH] = [9; CELL_LENGTH];

/// The value that one extends by, and that of others.
const OWN: Digest = Digest { bytes: [7; 32] };

const FOREIGN: Digest = Digest { bytes: [8; 32] };

// A platform with two slots.
fn two_slots(alloc: Global) -> Result<SlotPlatform, Fail>
    ensures { IfOk result (λ platform. length platform.slots ≡ 2) }
{
    Ok(SlotPlatform::new(alloc, &[FIRST, SECOND])?)
}

// The slot with this number is selected; others extend its register, and then it does itself.
fn extend_twice(platform: &mut SlotPlatform, slot: usize) -> Result<(), Fail>
    requires { slot < length platform.old.slots }
    ensures { length platform.new.slots ≡ length platform.old.slots }
{
    platform.select(slot);
    platform.foreign(slot, &FOREIGN)?;
    platform.reg_ready()?;
    platform.reg_extend(&OWN)?;
    Ok(())
}

// The slot with this number is selected: whether it has this cell and this value of the register.
fn holds(
    platform: &mut SlotPlatform,
    slot: usize,
    cell: &[u8; CELL_LENGTH],
    register: &Digest,
) -> Result<bool, Fail>
    requires { slot < length platform.old.slots }
    ensures { length platform.new.slots ≡ length platform.old.slots }
{
    let mut bytes = [5; CELL_LENGTH];
    platform.select(slot);
    platform.nv_read(&mut bytes)?;
    let shown = platform.reg_read()?;
    Ok(bytes == *cell && shown == *register)
}

// The register behind a value of others and one's own.
fn both() -> Digest {
    extended(&extended(&zero(), &FOREIGN), &OWN)
}

#[test]
fn steps_on_one_slot_leave_the_other(rt: HostRuntime) -> Result<(), Fail> {
    let mut platform = two_slots(rt.alloc())?;
    extend_twice(&mut platform, 0)?;
    platform.nv_write(&WRITTEN)?;
    assert!(rt; holds(&mut platform, 1, &SECOND, &zero())?);
    assert!(rt; holds(&mut platform, 0, &WRITTEN, &both())?);
    platform.foreign(1, &FOREIGN)?;
    assert!(rt; holds(&mut platform, 0, &WRITTEN, &both())?);
    platform.reg_reset()?;
    assert!(rt; holds(&mut platform, 0, &WRITTEN, &zero())?);
    assert!(rt; holds(&mut platform, 1, &SECOND, &extended(&zero(), &FOREIGN))?);
    Ok(())
}

#[test]
fn a_step_fails_on_its_slot_alone(rt: HostRuntime) -> Result<(), Fail> {
    let mut platform = two_slots(rt.alloc())?;
    platform.fail_next(0, false);
    assert!(rt; holds(&mut platform, 1, &SECOND, &zero())?);
    platform.select(0);
    assert!(rt; platform.nv_write(&WRITTEN) == Err(StepFault::Failed));
    assert!(rt; holds(&mut platform, 0, &FIRST, &zero())?);
    platform.fail_next(0, true);
    assert!(rt; platform.nv_write(&WRITTEN) == Err(StepFault::Failed));
    assert!(rt; holds(&mut platform, 0, &WRITTEN, &zero())?);
    Ok(())
}

#[test]
fn power_is_lost_in_both_slots(rt: HostRuntime) -> Result<(), Fail> {
    let mut platform = two_slots(rt.alloc())?;
    extend_twice(&mut platform, 0)?;
    platform.foreign(1, &FOREIGN)?;
    platform.power();
    assert!(rt; holds(&mut platform, 0, &FIRST, &zero())?);
    assert!(rt; holds(&mut platform, 1, &SECOND, &zero())?);
    extend_twice(&mut platform, 1)?;
    platform.foreign(0, &FOREIGN)?;
    platform.cycle()?;
    assert!(rt; holds(&mut platform, 0, &FIRST, &zero())?);
    assert!(rt; holds(&mut platform, 1, &SECOND, &zero())?);
    Ok(())
}
