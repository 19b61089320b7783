//! A step that a host in Rattle makes on its platform.

ghost use Rattle.std.specs.Prelude.{◌≡◌, ℕ, List, Some, OnErr, IfOk};
ghost use Rattle.std.specs.Result.{result_err};
ghost use Rattle.mm_platform.specs.Standing.{StepGoes, ReadCell};
ghost use Rattle.mm_told.specs.CallPath.{bare_standing, act_of, made_act, IsMade};

use crate::step::{HostStep, MadeStep};
use mm_bytes::{CELL_LENGTH, Memory};
use mm_digest::Digest;
use mm_platform::{Platform, StepFault};

/// Makes a step, and gives it with what the device answered. After want of memory nothing was done.
#[tactic(auto, using(crate::proofs::Playing::made_bare))]
pub fn make<P: Platform>(platform: &mut P, step: &HostStep) -> Result<MadeStep, Memory>
    ensures act { IfOk result (λ it. made_act it ≡ act_of step.now) }
    ensures made { IfOk result (λ it.
        IsMade it (bare_standing (P.standing platform.old))
        (bare_standing (P.standing platform.new))) }
    ensures err { OnErr result (P.standing platform.new ≡ P.standing platform.old) }
{
    match step {
        HostStep::ReadCell => Ok(MadeStep::ReadCell(read_cell(platform))),
        HostStep::WriteCell(bytes) => Ok(MadeStep::WriteCell(*bytes, platform.nv_write(bytes))),
        HostStep::ReadRegister => Ok(MadeStep::ReadRegister(platform.reg_read())),
        HostStep::ResetRegister => Ok(MadeStep::ResetRegister(platform.reg_reset())),
        HostStep::ExtendRegister(value) => extend(platform, value),
    }
}

// Reads the cell.
fn read_cell<P: Platform>(platform: &mut P) -> Result<[u8; CELL_LENGTH], StepFault>
    ensures goes { StepGoes ReadCell (P.standing platform.old) (P.standing platform.new)
        (result_err result) }
    ensures read { IfOk result (λ bytes. (cell : List ℕ)
        → (P.standing platform.old).cell ≡ Some cell → bytes ≡ cell) }
{
    let mut bytes = [0; CELL_LENGTH];
    match platform.nv_read(&mut bytes) {
        Ok(()) => Ok(bytes),
        Err(fault) => Err(fault),
    }
}

// Makes room for an extension, and then the extension.
#[tactic(auto, using(crate::proofs::Playing::made_bare))]
fn extend<P: Platform>(platform: &mut P, value: &Digest) -> Result<MadeStep, Memory>
    ensures act { IfOk result (λ it. made_act it ≡ act_of (HostStep.ExtendRegister value.now)) }
    ensures made { IfOk result (λ it.
        IsMade it (bare_standing (P.standing platform.old))
        (bare_standing (P.standing platform.new))) }
    ensures err { OnErr result (P.standing platform.new ≡ P.standing platform.old) }
{
    match platform.reg_ready() {
        Err(_) => Err(Memory),
        Ok(()) => Ok(MadeStep::ExtendRegister(*value, platform.reg_extend(value))),
    }
}
