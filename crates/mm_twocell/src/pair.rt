//! One cell on two, of which a selector picks one.

ghost use Rattle.std.specs.Prelude.{◌≡◌, ◌*◌, ◌%◌, ℕ, List, Some, IfOk, OnOk, OnErr, slice_index};
ghost use Rattle.std.specs.Result.{result_err};
ghost use Rattle.mm_platform.specs.Memory.{ReadsRaw};
ghost use Rattle.mm_twocell.specs.TornMemory.{standing_as_one, picked_cell, WritesOtherCell};

use mm_bytes::{CELL_LENGTH, Memory};
use mm_digest::Digest;
use mm_platform::{Device, Nv, Platform, RawNv, Register, StepFault};

/// A platform whose cell of 104 bytes stands on 209 bytes of memory whose writes may tear: two
/// cells and a selector byte, which picks the first where it is even and the second where it is
/// odd. A write goes to the cell that isn't picked, and then picks it, so that whatever a torn
/// write leaves the cell is the old one or the new one. The register is that of the memory's
/// platform. It tells no plan.
#[derive(Drop)]
pub struct TwoCell<R> {
    raw: R,
    steps: u64,
    writes: u64,
}

impl<R: RawNv + Register> TwoCell<R> {
    /// The platform on this memory, with no step called yet.
    pub fn new(raw: R) -> TwoCell<R>
        ensures raw { result.raw ≡ raw }
        ensures steps { result.steps ≡ 0 }
        ensures writes { result.writes ≡ 0 }
    {
        TwoCell {
            raw,
            steps: 0,
            writes: 0,
        }
    }

    /// The memory below.
    pub fn raw(&self) -> &R
        ensures { result.now ≡ self.now.raw }
    {
        &self.raw
    }
}

impl<R: RawNv + Register> Device for TwoCell<R> {
    ghost standing = { λ it. standing_as_one (R.standing it.raw) it.steps it.writes };
}

impl<R: RawNv + Register> Nv for TwoCell<R> {
    fn nv_read(&mut self, into: &mut [u8; CELL_LENGTH]) -> Result<(), StepFault> {
        self.steps = self.steps.saturating_add(1);
        read_picked(&mut self.raw, into)
    }

    fn nv_write(&mut self, bytes: &[u8; CELL_LENGTH]) -> Result<(), StepFault> {
        self.steps = self.steps.saturating_add(1);
        self.writes = self.writes.saturating_add(1);
        write_other(&mut self.raw, bytes)
    }
}

impl<R: RawNv + Register> Register for TwoCell<R> {
    fn reg_ready(&mut self) -> Result<(), Memory> {
        self.raw.reg_ready()
    }

    fn reg_read(&mut self) -> Result<Digest, StepFault> {
        self.steps = self.steps.saturating_add(1);
        self.raw.reg_read()
    }

    fn reg_reset(&mut self) -> Result<(), StepFault> {
        self.steps = self.steps.saturating_add(1);
        self.raw.reg_reset()
    }

    fn reg_extend(&mut self, value: &Digest) -> Result<(), StepFault> {
        self.steps = self.steps.saturating_add(1);
        self.raw.reg_extend(value)
    }
}

impl<R: RawNv + Register> Platform for TwoCell<R> {
    fn cycle(&mut self) -> Result<(), StepFault> {
        self.raw.raw_cycle()
    }
}

// The selector, at place 208.
fn read_selector<R: RawNv>(raw: &mut R) -> Result<u8, StepFault>
    ensures goes { ReadsRaw (R.standing raw.old) (R.standing raw.new) (result_err result) }
    ensures read { IfOk result (λ selector. (bytes : List ℕ)
        → (R.standing raw.old).cell ≡ Some bytes
        → selector ≡ slice_index bytes 208) }
{
    let mut selector = [0];
    raw.raw_read(208, &mut selector)?;
    Ok(selector[0])
}

// Reads the cell that the selector picks.
fn read_picked<R: RawNv>(raw: &mut R, into: &mut [u8; CELL_LENGTH]) -> Result<(), StepFault>
    ensures goes { ReadsRaw (R.standing raw.old) (R.standing raw.new) (result_err result) }
    ensures read { OnOk result ((bytes : List ℕ) → (R.standing raw.old).cell ≡ Some bytes
        → into.new ≡ picked_cell bytes) }
    ensures unread { OnErr result (into.new ≡ into.old) }
{
    let selector = read_selector(raw)?;
    raw.raw_read(CELL_LENGTH as u16 * u16::from(selector % 2), into)
}

// Writes the cell that the selector doesn't pick, and then lets it pick that one.
fn write_other<R: RawNv>(raw: &mut R, bytes: &[u8; CELL_LENGTH]) -> Result<(), StepFault>
    ensures { WritesOtherCell bytes.now (R.standing raw.old) (R.standing raw.new)
        (result_err result) }
{
    let selector = read_selector(raw)?;
    let other = 1 - selector % 2;
    let start = CELL_LENGTH as u16 * u16::from(other);
    raw.raw_write(start, bytes)?;
    raw.raw_write(208, &[other])
}
