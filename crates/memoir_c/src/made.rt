//! Device steps, as C makes them.

ghost use Rattle.std.specs.Prelude.{◌≡◌, ◌<◌, ◌≤◌, ◌++◌, IfOk, IfErr, OnOk, length, take, replicate};
ghost use Rattle.std.specs.Result.{result_err};
ghost use Rattle.memoir_c.specs.CallReplies.{answer_by, IsStep, AreSteps, IsNoStep, HasNoStep, next_step_of};

use crate::said::ReturnStatus;
use mm_bytes::CELL_LENGTH;
use mm_digest::Digest;
use mm_platform::StepFault;
use mm_told::MadeStep;

/// The most steps that a call makes.
pub const MOST_STEPS: usize = 5;

/// A device step: its kind, what the device answered, and the bytes that were read or are written:
/// of a cell 104, of a register the first 32.
#[repr(C)]
#[derive(Clone, Copy, Drop)]
pub struct Step {
    pub kind: u8,
    pub answer: u8,
    pub bytes: [u8; CELL_LENGTH],
}

/// The steps that were made, in a room for the most that a call makes.
pub fn put_made(steps: &[Step], into: &mut [MadeStep; MOST_STEPS]) -> Result<(), ReturnStatus>
    requires { length steps.now ≤ 5 }
    ensures ok { OnOk result (AreSteps steps.now (take (length steps.now) into.new)) }
    ensures err { IfErr result (λ why. (why ≡ ReturnStatus.NoStep) × HasNoStep steps.now) }
{
    'steps: for (i, step) in steps.iter().enumerate() {
        match made(step) {
            Err(said) => return Err(said),
            Ok(it) => into[i] = it,
        }
    }
    Ok(())
}

// The step that was made.
fn made(step: &Step) -> Result<MadeStep, ReturnStatus>
    ensures ok { IfOk result (λ it. IsStep step.now it) }
    ensures err { IfErr result (λ why. (why ≡ ReturnStatus.NoStep) × IsNoStep step.now) }
{
    let answer = answer(step.answer)?;
    match step.kind {
        1 => Ok(MadeStep::ReadCell(given(answer, step.bytes))),
        2 => Ok(MadeStep::WriteCell(step.bytes, answer)),
        3 => Ok(MadeStep::ReadRegister(given(answer, value(step)))),
        4 => Ok(MadeStep::ResetRegister(answer)),
        5 => Ok(MadeStep::ExtendRegister(value(step), answer)),
        _ => Err(ReturnStatus::NoStep),
    }
}

// What a device answered: 0 Ok, 1 Failed, 2 Off.
fn answer(answer: u8) -> Result<Result<(), StepFault>, ReturnStatus>
    ensures ok { IfOk result (λ it. answer ≡ answer_by (result_err it)) }
    ensures err { IfErr result (λ why. (why ≡ ReturnStatus.NoStep) × (2 < answer)) }
{
    match answer {
        0 => Ok(Ok(())),
        1 => Ok(Err(StepFault::Failed)),
        2 => Ok(Err(StepFault::Off)),
        _ => Err(ReturnStatus::NoStep),
    }
}

// What was read, where that didn't fail.
fn given<T: Copy>(answer: Result<(), StepFault>, value: T) -> Result<T, StepFault>
    ensures fault { result_err result ≡ result_err answer }
    ensures value { IfOk result (λ it. it ≡ value) }
{
    match answer {
        Ok(()) => Ok(value),
        Err(fault) => Err(fault),
    }
}

// The register's value, or the value that extends it.
fn value(step: &Step) -> Digest
    ensures { result.bytes ≡ take 32 step.now.bytes }
{
    let mut bytes = [0; 32];
    bytes.copy_from_slice(&step.bytes[..32]);
    Digest { bytes }
}

/// The step that is to be made next. The bytes behind a register's are zero.
pub fn next(step: mm_told::HostStep) -> Step
    ensures { result ≡ next_step_of step }
{
    match step {
        mm_told::HostStep::ReadCell => bare(1),
        mm_told::HostStep::WriteCell(bytes) => Step {
            kind: 2,
            answer: 0,
            bytes,
        },
        mm_told::HostStep::ReadRegister => bare(3),
        mm_told::HostStep::ResetRegister => bare(4),
        mm_told::HostStep::ExtendRegister(value) => extending(&value),
    }
}

// A step of this kind that writes nothing.
fn bare(kind: u8) -> Step
    ensures { result ≡ record { kind = kind; answer = 0; bytes = replicate 104 0 } }
{
    Step {
        kind,
        answer: 0,
        bytes: [0; CELL_LENGTH],
    }
}

// A step that extends the register by this value.
fn extending(value: &Digest) -> Step
    ensures { result ≡ record { kind = 5; answer = 0; bytes = value.now.bytes ++ replicate 72 0 } }
{
    let mut bytes = [0; CELL_LENGTH];
    bytes[..32].copy_from_slice(&value.bytes);
    Step {
        kind: 5,
        answer: 0,
        bytes,
    }
}
