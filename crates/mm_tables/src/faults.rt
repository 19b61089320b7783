//! What faults say.

use mm_base::{LineFault, ReplayFault};
use mm_bytes::{Failed, Memory, WriteFault};
use mm_gen::BulkFault;
use mm_host::{HostFault, InitFault, SessionFault};
use mm_model::Refusal;
use mm_platform::StepFault;
use mm_receipt::NotReceipt;
use mm_schedule::EventFault;
use mm_seal::{CellFault, OpenFault, PartsFault};
use mm_store::StoreFault;
use mm_transfer::MoveRefusal;
use mm_words::WordsFault;
use std::alloc::AllocError;
use std::fmt::Display;

// Puts what a fault says in a line.
fn put<T: Display>(text: &mut String, fault: &T) -> Result<(), AllocError> {
    writeln!(text, "{fault}")
}

fn put_lines(text: &mut String) -> Result<(), AllocError> {
    put(text, &Memory)?;
    put(text, &Failed)?;
    put(text, &WriteFault)?;
    put(text, &LineFault::ReadFault)?;
    put(text, &LineFault::LineLong)
}

fn put_replays(text: &mut String) -> Result<(), AllocError> {
    put(text, &ReplayFault::Memory)?;
    put(text, &ReplayFault::ReadFault)?;
    put(text, &ReplayFault::WriteFault)?;
    put(text, &ReplayFault::BadLine { line: 7 })?;
    put(text, &ReplayFault::LineLong { line: 8 })?;
    put(text, &ReplayFault::TooMuch)
}

fn put_bytes(text: &mut String) -> Result<(), AllocError> {
    put(text, &CellFault::Blank)?;
    put(text, &CellFault::Cell)?;
    put(text, &PartsFault::Form)?;
    put(text, &PartsFault::Kind)?;
    put(text, &OpenFault::Form)?;
    put(text, &OpenFault::Kind)?;
    put(text, &OpenFault::Tag)
}

fn put_steps(text: &mut String) -> Result<(), AllocError> {
    put(text, &StepFault::Failed)?;
    put(text, &StepFault::Off)?;
    put(text, &NotReceipt::Form)?;
    put(text, &NotReceipt::Tag)
}

fn put_moves(text: &mut String) -> Result<(), AllocError> {
    put(text, &MoveRefusal::Core(Refusal::Blank))?;
    put(text, &MoveRefusal::Already)?;
    put(text, &MoveRefusal::Open)?;
    put(text, &MoveRefusal::Gone)?;
    put(text, &MoveRefusal::Nonce)?;
    put(text, &MoveRefusal::Barrier)
}

fn put_refusals(text: &mut String) -> Result<(), AllocError> {
    put(text, &Refusal::Memory)?;
    put(text, &Refusal::Long)?;
    put(text, &Refusal::Device(StepFault::Failed))?;
    put(text, &Refusal::Blank)?;
    put(text, &Refusal::Cell)?;
    put(text, &Refusal::Lost)
}

fn put_offers(text: &mut String) -> Result<(), AllocError> {
    put(text, &Refusal::Form)?;
    put(text, &Refusal::Kind)?;
    put(text, &Refusal::State)?;
    put(text, &Refusal::Tag)?;
    put(text, &Refusal::Stale)?;
    put(text, &Refusal::Full)
}

fn put_lower(text: &mut String) -> Result<(), AllocError> {
    put(text, &EventFault::Memory)?;
    put(text, &EventFault::Bad)?;
    put(text, &StoreFault::Memory)?;
    put(text, &StoreFault::Failed)?;
    put(text, &WordsFault::Memory)?;
    put(text, &WordsFault::Usage)?;
    put(text, &BulkFault::Memory)?;
    put(text, &BulkFault::TooMuch)
}

fn put_host(text: &mut String) -> Result<(), AllocError> {
    put(text, &HostFault::Memory)?;
    put(text, &HostFault::Store)?;
    put(text, &HostFault::Refused(Refusal::Stale))
}

fn put_session(text: &mut String) -> Result<(), AllocError> {
    put(text, &SessionFault::Host(HostFault::Memory))?;
    put(text, &SessionFault::Host(HostFault::Store))?;
    put(text, &SessionFault::Host(HostFault::Refused(Refusal::Full)))?;
    put(text, &SessionFault::Lines(ReplayFault::ReadFault))?;
    put(text, &SessionFault::Lines(ReplayFault::WriteFault))?;
    put(
        text,
        &SessionFault::Lines(ReplayFault::LineLong { line: 2 }),
    )?;
    put(text, &SessionFault::Lines(ReplayFault::BadLine { line: 3 }))?;
    put(text, &SessionFault::Lines(ReplayFault::TooMuch))
}

fn put_start(text: &mut String) -> Result<(), AllocError> {
    put(text, &InitFault::Memory)?;
    put(text, &InitFault::Platform(StepFault::Off))?;
    put(text, &InitFault::Already)?;
    put(text, &InitFault::ReadFault)?;
    put(text, &InitFault::Short { got: 63 })?;
    put(text, &InitFault::Store)
}

/// Puts a line for each fault.
pub fn put_faults(text: &mut String) -> Result<(), AllocError> {
    put_lines(text)?;
    put_replays(text)?;
    put_bytes(text)?;
    put_steps(text)?;
    put_moves(text)?;
    put_refusals(text)?;
    put_offers(text)?;
    put_lower(text)?;
    put_host(text)?;
    put_session(text)?;
    put_start(text)
}
