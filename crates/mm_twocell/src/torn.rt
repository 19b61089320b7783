//! A memory whose writes tear where they are told to.

ghost use Rattle.std.specs.Prelude.{◌≡◌, ◌↔◌, ◌≤◌, ◌+◌, ◌-◌, ℕ, List, Some, None, IsOk, IsErr, IfOk, OnOk, OnErr, length, take};
ghost use Rattle.std.specs.Result.{result_err};
ghost use Rattle.mm_platform.specs.Standing.{Item, register_after, item_values, PowerCycles, StepGoes, RoomGrows, ReadRegister};
ghost use Rattle.mm_platform.specs.Standing.{ResetRegister, ExtendRegister};
ghost use Rattle.mm_platform.specs.Memory.{range_of, bytes_with_part, ReadsRaw, WritesRaw};
ghost use Rattle.mm_twocell.specs.TornMemory.{TornMemory, IsUsable, IsSteady, first_memory, told_standing, will_fail, memory_after_call};
ghost use Rattle.mm_twocell.specs.TornMemory.{memory_after_cycle, memory_with_part, memory_after_write, StepsRegister, told_size};

use mm_bytes::{CELL_LENGTH, Memory};
use mm_digest::Digest;
use mm_platform::{Device, MemPlatform, Platform, RawNv, Register, StepFault};
use std::alloc::Global;
use std::marker::Model;

/// Non-volatile memory of 209 bytes, with a register. One call fails, where it is told to, and no
/// other.
#[derive(Drop)]
pub struct MemRaw {
    bytes: [u8; 209],
    // Only its register is used.
    register: MemPlatform,
    cycles: u64,
    faults: u64,
    ahead: u64,
    leaves: Vec<u8>,
}

impl Model for MemRaw {
    ghost Value = { TornMemory };

    ghost view = { λ it. record {
      standing = record it.register {
        cell = Some it.bytes;
        cycles = it.cycles;
        faults = it.faults;
        plan = None;
      };
      ahead = it.ahead;
      leaves = it.leaves.items;
    } };

    ghost invariant = { λ it. IsSteady it.register };
}

impl MemRaw {
    /// A memory of 209 zero bytes: on, with an empty register, and no call is to fail.
    pub fn new(alloc: Global) -> MemRaw
        ensures { result ≡ first_memory }
    {
        MemRaw {
            bytes: [0; 209],
            register: MemPlatform::new(alloc, &[0; CELL_LENGTH]),
            cycles: 0,
            faults: 0,
            ahead: 0,
            leaves: Vec::new(alloc),
        }
    }

    /// Lets the call of `raw_read`, `raw_write` or `raw_cycle` with this number fail, counted from
    /// 1 from now on; none where it is 0. A write that fails leaves these bytes in front of its
    /// range, as far as it goes. After want of memory nothing has changed.
    pub fn stop_at(&mut self, call: u64, leaves: &[u8]) -> Result<(), Memory>
        ensures ok { OnOk result
            (self.new ≡ record self.old { ahead = call; leaves = leaves.now }) }
        ensures err { OnErr result (self.new ≡ self.old) }
    {
        self.leaves = Vec::from_slice(*self.leaves.allocator(), leaves)?;
        self.ahead = call;
        Ok(())
    }

    /// The bytes.
    pub fn bytes(&self) -> &[u8; 209]
        ensures { self.now.standing.cell ≡ Some result.now }
    {
        &self.bytes
    }

    // Counts a call of the memory or of power, and answers whether it fails.
    fn fails(&mut self) -> bool
        ensures ready { IsUsable self.old }
        ensures fails { result ≡ will_fail self.old }
        ensures after { self.new ≡ memory_after_call self.old }
    {
        let is_failing = self.ahead == 1;
        self.ahead = self.ahead.saturating_sub(1);
        if is_failing {
            self.faults = self.faults.saturating_add(1);
        }
        is_failing
    }

    // Puts these bytes in place of those from `at` on.
    fn put(&mut self, at: u16, bytes: &[u8])
        requires { at + length bytes.now ≤ 209 }
        ensures { self.new ≡ memory_with_part at bytes.now self.old }
    {
        put_at(&mut self.bytes, at, bytes);
    }

    // Puts what a failed write leaves in front of this many bytes from `at` on.
    fn put_leaves(&mut self, at: u16, size: usize)
        requires { at + size ≤ 209 }
        ensures { self.new ≡ memory_with_part at (take size self.old.leaves) self.old }
    {
        let count = size.min(self.leaves.len());
        put_at(&mut self.bytes, at, &self.leaves[..count]);
    }
}

// Puts these bytes in place of those from `at` on.
fn put_at(into: &mut [u8; 209], at: u16, bytes: &[u8])
    requires { at + length bytes.now ≤ 209 }
    ensures { into.new ≡ bytes_with_part at bytes.now into.old }
{
    let (_, rest) = into.split_at_mut(usize::from(at));
    let (range, _) = rest.split_at_mut(bytes.len());
    range.copy_from_slice(bytes);
}

impl Device for MemRaw {
    ghost standing = { told_standing };
}

impl RawNv for MemRaw {
    fn raw_read(&mut self, at: u16, into: &mut [u8]) -> Result<(), StepFault>
        requires { at + length into.old ≤ 209 }
        ensures goes { ReadsRaw (told_standing self.old) (told_standing self.new)
            (result_err result) }
        ensures read { OnOk result ((bytes : List ℕ) → (told_standing self.old).cell ≡ Some bytes
            → into.new ≡ range_of at (length into.old) bytes) }
        ensures unread { OnErr result (into.new ≡ into.old) }
        ensures failing { IsErr result ↔ (self.old.ahead ≡ 1) }
        ensures after { self.new ≡ memory_after_call self.old }
    {
        if self.fails() {
            return Err(StepFault::Failed);
        }
        let start = usize::from(at);
        into.copy_from_slice(&self.bytes[start..start + into.len()]);
        Ok(())
    }

    fn raw_write(&mut self, at: u16, bytes: &[u8]) -> Result<(), StepFault>
        requires { at + length bytes.now ≤ 209 }
        ensures goes { WritesRaw at bytes.now (told_standing self.old) (told_standing self.new)
            (result_err result) }
        ensures failing { IsErr result ↔ (self.old.ahead ≡ 1) }
        ensures after { self.new ≡ memory_after_write at bytes.now self.old }
    {
        if self.fails() {
            self.put_leaves(at, bytes.len());
            return Err(StepFault::Failed);
        }
        self.put(at, bytes);
        Ok(())
    }

    fn raw_cycle(&mut self) -> Result<(), StepFault>
        ensures goes { PowerCycles (told_standing self.old) (told_standing self.new)
            (result_err result) }
        ensures failing { IsErr result ↔ (self.old.ahead ≡ 1) }
        ensures failed { OnErr result (self.new ≡ memory_after_cycle self.old) }
        ensures ahead { self.new.ahead ≡ self.old.ahead - 1 }
        ensures leaves { self.new.leaves ≡ self.old.leaves }
    {
        self.cycles = self.cycles.saturating_add(1);
        if self.fails() {
            return Err(StepFault::Failed);
        }
        self.register.cycle()
    }

    ghost is_whole = { told_size };
}

impl Register for MemRaw {
    fn reg_ready(&mut self) -> Result<(), Memory>
        ensures ok { OnOk result (RoomGrows (told_standing self.old) (told_standing self.new)) }
        ensures err { OnErr result (told_standing self.new ≡ told_standing self.old) }
        ensures ahead { self.new.ahead ≡ self.old.ahead }
        ensures leaves { self.new.leaves ≡ self.old.leaves }
    {
        self.register.reg_ready()
    }

    #[tactic(auto, using(crate::proofs::Writing::read_steps))]
    fn reg_read(&mut self) -> Result<Digest, StepFault>
        ensures goes { StepGoes ReadRegister (told_standing self.old) (told_standing self.new)
            (result_err result) }
        ensures read { IfOk result (λ value. (items : List Item)
            → (told_standing self.new).items ≡ Some items
            → value.bytes ≡ register_after (item_values items)) }
        ensures done { IsOk result }
        ensures steps { StepsRegister ReadRegister self.old self.new }
    {
        self.register.reg_read()
    }

    #[tactic(auto, using(crate::proofs::Writing::reset_steps))]
    fn reg_reset(&mut self) -> Result<(), StepFault>
        ensures goes { StepGoes ResetRegister (told_standing self.old) (told_standing self.new)
            (result_err result) }
        ensures done { IsOk result }
        ensures steps { StepsRegister ResetRegister self.old self.new }
    {
        self.register.reg_reset()
    }

    #[tactic(auto, using(crate::proofs::Writing::extend_steps))]
    fn reg_extend(&mut self, value: &Digest) -> Result<(), StepFault>
        requires { 1 ≤ (told_standing self.old).spare }
        ensures goes { StepGoes (ExtendRegister value.now.bytes) (told_standing self.old)
            (told_standing self.new)
            (result_err result) }
        ensures done { IsOk result }
        ensures steps { StepsRegister (ExtendRegister value.now.bytes) self.old self.new }
    {
        self.register.reg_extend(value)
    }
}
