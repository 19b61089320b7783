//! Devices in memory that stop for good where the program's life ends. They tell nothing of what
//! they hold, as files do.

ghost use Rattle.std.specs.Prelude.{◌≡◌, IfErr, None, false};
ghost use Rattle.mm_bytes.specs.Limits.{CountsFaults};
ghost use Rattle.mm_files.specs.UntoldDevices.{none_are, untold_standing};

use crate::life::{Leaves, Life, front_left, leave};
use mm_base::Sink;
use mm_bytes::{Bytes, Failed, Memory};
use mm_digest::{Digest, extended, zero};
use mm_platform::{Device, RawNv, Register, StepFault};
use mm_store::{Four, LONGEST_SLOT, Store, StoreFault};
use std::alloc::Global;

/// A memory of 209 bytes and a register.
#[derive(Drop)]
pub struct MortalRaw<'a> {
    life: &'a Life,
    bytes: [u8; 209],
    register: Digest,
    steps: u64,
    cycles: u64,
    faults: u64,
    leaves: Leaves,
}

impl<'a> MortalRaw<'a> {
    /// As it was left.
    pub fn new(life: &'a Life, bytes: [u8; 209], register: Digest) -> MortalRaw<'a> {
        MortalRaw {
            life,
            bytes,
            register,
            steps: 0,
            cycles: 0,
            faults: 0,
            leaves: Leaves::Nothing,
        }
    }

    /// The memory's bytes.
    pub fn bytes(&self) -> [u8; 209] {
        self.bytes
    }

    /// The register.
    pub fn register(&self) -> Digest {
        self.register
    }

    // One call, which fails from the last one on, and what it leaves.
    fn call(&mut self) -> Result<(), StepFault>
        ensures counts { CountsFaults self.old.faults self.new.faults result }
        ensures failed { IfErr result (λ fault. fault ≡ StepFault.Failed) }
        ensures steps { self.new.steps ≡ self.old.steps }
        ensures cycles { self.new.cycles ≡ self.old.cycles }
    {
        let (is_well, leaves) = self.life.call();
        self.leaves = leaves;
        if is_well {
            return Ok(());
        }
        self.faults = self.faults.saturating_add(1);
        Err(StepFault::Failed)
    }

    // The register's value, by a call.
    fn value(&mut self) -> Result<Digest, StepFault>
        ensures counts { CountsFaults self.old.faults self.new.faults result }
        ensures failed { IfErr result (λ fault. fault ≡ StepFault.Failed) }
        ensures steps { self.new.steps ≡ self.old.steps }
        ensures cycles { self.new.cycles ≡ self.old.cycles }
    {
        match self.call() {
            Ok(()) => Ok(self.register),
            Err(fault) => Err(fault),
        }
    }
}

// Gives the register a value, where a call leaves all of its effect.
fn settle(register: &mut Digest, leaves: Leaves, value: Digest) {
    if leaves == Leaves::All {
        *register = value;
    }
}

impl Device for MortalRaw<'_> {
    ghost standing = { λ it. untold_standing it.steps it.cycles it.faults };
}

impl RawNv for MortalRaw<'_> {
    fn raw_read(&mut self, at: u16, into: &mut [u8]) -> Result<(), StepFault> {
        self.call()?;
        let start = usize::from(at);
        into.copy_from_slice(&self.bytes[start..start + into.len()]);
        Ok(())
    }

    fn raw_write(&mut self, at: u16, bytes: &[u8]) -> Result<(), StepFault> {
        let outcome = self.call();
        let left = self.leaves;
        let start = usize::from(at);
        leave(&mut self.bytes[start..start + bytes.len()], bytes, left);
        outcome
    }

    fn raw_cycle(&mut self) -> Result<(), StepFault> {
        self.cycles = self.cycles.saturating_add(1);
        let outcome = self.call();
        settle(&mut self.register, self.leaves, zero());
        outcome
    }

    ghost is_whole = { λ _ bytes told. none_are 209 bytes told };
}

impl Register for MortalRaw<'_> {
    fn reg_ready(&mut self) -> Result<(), Memory> {
        Ok(())
    }

    fn reg_read(&mut self) -> Result<Digest, StepFault> {
        self.steps = self.steps.saturating_add(1);
        self.value()
    }

    fn reg_reset(&mut self) -> Result<(), StepFault> {
        self.steps = self.steps.saturating_add(1);
        let outcome = self.call();
        settle(&mut self.register, self.leaves, zero());
        outcome
    }

    fn reg_extend(&mut self, value: &Digest) -> Result<(), StepFault> {
        self.steps = self.steps.saturating_add(1);
        let outcome = self.call();
        let next = extended(&self.register, value);
        settle(&mut self.register, self.leaves, next);
        outcome
    }
}

/// Four slots.
#[derive(Drop)]
pub struct MortalStore<'a> {
    pub life: &'a Life,
    pub slots: Four<Bytes>,
    pub faults: u64,
}

impl Store for MortalStore<'_> {
    ghost use Rattle.mm_store.specs.StoreStanding.{StoreStanding};

    ghost kept = { λ it. record { slots = None; is_honest = false; faults = it.faults; unsynced = None } };

    fn read(&mut self, alloc: Global, slot: u8) -> Result<Bytes, StoreFault> {
        let (is_well, _) = self.life.call();
        if !is_well {
            self.faults = self.faults.saturating_add(1);
            return Err(StoreFault::Failed);
        }
        let bytes = self.slots.get(slot).as_slice();
        let (front, _) = bytes.split_at(bytes.len().min(LONGEST_SLOT));
        match Bytes::copy_of(alloc, front) {
            Ok(read) => Ok(read),
            Err(_) => Err(StoreFault::Memory),
        }
    }

    fn write(&mut self, slot: u8, bytes: &[u8]) -> Result<(), StoreFault> {
        let (is_well, leaves) = self.life.call();
        if leaves != Leaves::Nothing {
            let held = self.slots.get_mut(slot);
            held.clear();
            if held.append(front_left(bytes, leaves)).is_err() {
                return Err(StoreFault::Memory);
            }
        }
        if is_well {
            return Ok(());
        }
        self.faults = self.faults.saturating_add(1);
        Err(StoreFault::Failed)
    }
}

/// What a program says.
#[derive(Drop)]
pub struct MortalSink<'a> {
    pub life: &'a Life,
    pub received: Bytes,
    pub faults: u64,
}

impl Sink for MortalSink<'_> {
    ghost received = { λ _. None };

    ghost faults = { λ it. it.faults };

    fn give(&mut self, piece: &[u8]) -> Result<usize, Failed> {
        let (is_well, leaves) = self.life.call();
        let outcome = self.received.append(front_left(piece, leaves));
        if is_well && outcome.is_ok() {
            return Ok(piece.len());
        }
        self.faults = self.faults.saturating_add(1);
        Err(Failed)
    }
}
