//! Device steps that a host makes, and what its devices answered.

ghost use Rattle.std.specs.Prelude.{◌≡◌, ◌↔◌, IsTrue};
ghost use Rattle.mm_platform.specs.Standing.{WriteCell, ExtendRegister};
ghost use Rattle.mm_told.specs.CallPath.{act_of, made_act};

use mm_bytes::CELL_LENGTH;
use mm_digest::Digest;
use mm_platform::StepFault;

/// A device step.
#[derive(Clone, Copy)]
pub enum HostStep {
    /// Reads the cell.
    ReadCell,
    /// Writes these bytes to the cell.
    WriteCell([u8; CELL_LENGTH]),
    /// Reads the register.
    ReadRegister,
    /// Sets the register to zero.
    ResetRegister,
    /// Extends the register by this value.
    ExtendRegister(Digest),
}

/// A device step that a host has made, with what its device answered.
#[derive(Clone, Copy)]
pub enum MadeStep {
    /// The cell was read.
    ReadCell(Result<[u8; CELL_LENGTH], StepFault>),
    /// These bytes were written to the cell.
    WriteCell([u8; CELL_LENGTH], Result<(), StepFault>),
    /// The register was read.
    ReadRegister(Result<Digest, StepFault>),
    /// The register was set to zero.
    ResetRegister(Result<(), StepFault>),
    /// The register was extended by this value.
    ExtendRegister(Digest, Result<(), StepFault>),
}

// Whether this is the step that was made.
pub(crate) fn is_of(it: &MadeStep, step: &HostStep) -> bool
    ensures { IsTrue result ↔ (made_act it.now ≡ act_of step.now) }
{
    match it {
        MadeStep::ReadCell(_) => matches!(step, HostStep::ReadCell),
        MadeStep::WriteCell(bytes, _) => is_write_of(bytes, step),
        MadeStep::ReadRegister(_) => matches!(step, HostStep::ReadRegister),
        MadeStep::ResetRegister(_) => matches!(step, HostStep::ResetRegister),
        MadeStep::ExtendRegister(value, _) => is_extension_by(value, step),
    }
}

fn is_write_of(bytes: &[u8; CELL_LENGTH], step: &HostStep) -> bool
    ensures { IsTrue result ↔ (act_of step.now ≡ WriteCell bytes.now) }
{
    match step {
        HostStep::WriteCell(wanted) => bytes == wanted,
        _ => false,
    }
}

fn is_extension_by(value: &Digest, step: &HostStep) -> bool
    ensures { IsTrue result ↔ (act_of step.now ≡ ExtendRegister value.now.bytes) }
{
    match step {
        HostStep::ExtendRegister(wanted) => value == wanted,
        _ => false,
    }
}
