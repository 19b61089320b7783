//! A memory of 209 bytes and a register, as the files of an instance hold them, of which one call
//! fails.

ghost use Rattle.std.specs.Prelude.{◌≡◌, IfErr};
ghost use Rattle.mm_bytes.specs.Limits.{CountsFaults};
ghost use Rattle.mm_files.specs.UntoldDevices.{none_are, untold_standing};

use mm_bytes::Memory;
use mm_digest::{Digest, extended, zero};
use mm_platform::{Device, RawNv, Register, StepFault};

/// What a call that fails leaves of its effect.
#[derive(Clone, Copy, PartialEq, Eq)]
pub enum FailureEffect {
    /// Nothing.
    Nothing,
    /// Of a write the first half of its range.
    Half,
    /// All of it.
    All,
    /// Of a write this byte all over its range.
    Noise(u8),
}

/// The memory and the register. It tells nothing of what they hold, as files do.
#[derive(Drop)]
pub struct FailingRaw {
    bytes: [u8; 209],
    register: Digest,
    steps: u64,
    cycles: u64,
    faults: u64,
    calls: u64,
    failing: u64,
    leaves: FailureEffect,
    cell_writes: u64,
    extensions: u64,
}

impl FailingRaw {
    /// All zero. The call with this number fails, from 1; none where it is 0.
    pub fn new(failing: u64, leaves: FailureEffect) -> FailingRaw {
        FailingRaw {
            bytes: [0; 209],
            register: zero(),
            steps: 0,
            cycles: 0,
            faults: 0,
            calls: 0,
            failing,
            leaves,
            cell_writes: 0,
            extensions: 0,
        }
    }

    /// How often a cell was to be written.
    pub fn cell_writes(&self) -> u64 {
        self.cell_writes
    }

    /// How often the register was to be extended.
    pub fn extensions(&self) -> u64 {
        self.extensions
    }

    // Counts a call, which fails where it is the one that is to.
    fn call(&mut self) -> Result<(), StepFault>
        ensures counts { CountsFaults self.old.faults self.new.faults result }
        ensures failed { IfErr result (λ fault. fault ≡ StepFault.Failed) }
        ensures steps { self.new.steps ≡ self.old.steps }
        ensures cycles { self.new.cycles ≡ self.old.cycles }
    {
        self.calls = self.calls.saturating_add(1);
        if self.calls == self.failing {
            self.faults = self.faults.saturating_add(1);
            return Err(StepFault::Failed);
        }
        Ok(())
    }

    // The register's value, by a call.
    fn value(&mut self) -> Result<Digest, StepFault>
        ensures counts { CountsFaults self.old.faults self.new.faults result }
        ensures failed { IfErr result (λ fault. fault ≡ StepFault.Failed) }
        ensures steps { self.new.steps ≡ self.old.steps }
        ensures cycles { self.new.cycles ≡ self.old.cycles }
    {
        match self.call() {
            Ok(()) => Ok(self.register),
            Err(fault) => Err(fault),
        }
    }
}

// What a call leaves: all of its effect where it went well.
fn left_of(outcome: Result<(), StepFault>, leaves: FailureEffect) -> FailureEffect {
    match outcome {
        Ok(()) => FailureEffect::All,
        Err(_) => leaves,
    }
}

// Leaves that much of a write of these bytes in its range.
fn leave(range: &mut [u8], bytes: &[u8], leaves: FailureEffect) {
    let size = range.len().min(bytes.len());
    match leaves {
        FailureEffect::Nothing => {}
        FailureEffect::Half => put_front(range, bytes, size / 2),
        FailureEffect::All => put_front(range, bytes, size),
        FailureEffect::Noise(byte) => range.fill(byte),
    }
}

// Puts the first bytes, as many as both have, in front of a range.
fn put_front(range: &mut [u8], bytes: &[u8], size: usize) {
    let count = size.min(range.len()).min(bytes.len());
    let (front, _) = range.split_at_mut(count);
    let (given, _) = bytes.split_at(count);
    front.copy_from_slice(given);
}

// Gives the register a value, where the call that was to do so had its effect.
fn settle(
    register: &mut Digest,
    outcome: Result<(), StepFault>,
    leaves: FailureEffect,
    value: Digest,
) {
    if left_of(outcome, leaves) == FailureEffect::All {
        *register = value;
    }
}

// Counts a write of so many bytes as a cell has.
fn count_cell(count: &mut u64, bytes: &[u8]) {
    if bytes.len() == 104 {
        *count = count.saturating_add(1);
    }
}

impl Device for FailingRaw {
    ghost standing = { λ it. untold_standing it.steps it.cycles it.faults };
}

impl RawNv for FailingRaw {
    fn raw_read(&mut self, at: u16, into: &mut [u8]) -> Result<(), StepFault> {
        self.call()?;
        let start = usize::from(at);
        into.copy_from_slice(&self.bytes[start..start + into.len()]);
        Ok(())
    }

    fn raw_write(&mut self, at: u16, bytes: &[u8]) -> Result<(), StepFault> {
        let outcome = self.call();
        count_cell(&mut self.cell_writes, bytes);
        let left = left_of(outcome, self.leaves);
        let start = usize::from(at);
        leave(&mut self.bytes[start..start + bytes.len()], bytes, left);
        outcome
    }

    fn raw_cycle(&mut self) -> Result<(), StepFault> {
        self.cycles = self.cycles.saturating_add(1);
        let outcome = self.call();
        settle(&mut self.register, outcome, self.leaves, zero());
        outcome
    }

    ghost is_whole = { λ _ bytes told. none_are 209 bytes told };
}

impl Register for FailingRaw {
    fn reg_ready(&mut self) -> Result<(), Memory> {
        Ok(())
    }

    fn reg_read(&mut self) -> Result<Digest, StepFault> {
        self.steps = self.steps.saturating_add(1);
        self.value()
    }

    fn reg_reset(&mut self) -> Result<(), StepFault> {
        self.steps = self.steps.saturating_add(1);
        let outcome = self.call();
        settle(&mut self.register, outcome, self.leaves, zero());
        outcome
    }

    fn reg_extend(&mut self, value: &Digest) -> Result<(), StepFault> {
        self.steps = self.steps.saturating_add(1);
        self.extensions = self.extensions.saturating_add(1);
        let outcome = self.call();
        let next = extended(&self.register, value);
        settle(&mut self.register, outcome, self.leaves, next);
        outcome
    }
}
