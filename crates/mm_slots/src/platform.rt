//! A platform in memory with up to 16 slots.

use mm_bytes::{CELL_LENGTH, Memory};
use mm_digest::Digest;
use mm_platform::{Device, MemPlatform, Nv, Platform, Register, StepFault};
use std::alloc::Global;
use std::marker::Model;

/// A platform in memory with up to 16 slots, each with its own cell and register; the power is
/// common. Its device steps are those of the selected slot. Contracts see what stands in each slot,
/// and the number of the selected one.
#[derive(Drop)]
pub struct SlotPlatform {
    slots: Vec<MemPlatform>,
    selected: usize,
}

impl Model for SlotPlatform {
    ghost use Rattle.std.specs.Prelude.{◌<◌, length};
    ghost use Rattle.mm_slots.specs.Stage.{Slots};

    ghost Value = { Slots };

    ghost view = { λ p. record { slots = p.slots.items; selected = p.selected } };

    ghost invariant = { λ p. p.selected < length p.slots.items };
}

impl SlotPlatform {
    ghost use Rattle.std.specs.Prelude.{◌≡◌, ◌<◌, ◌≤◌, IfOk, OnOk, OnErr, length, map};
    ghost use Rattle.std.specs.Borrow.{sem};
    ghost use Rattle.mm_platform.specs.Memory.{new_platform};
    ghost use Rattle.mm_slots.specs.Stage.{selected_standing, standing_in, slots_after_value, slots_with_failure, slots_after_cycle};
    ghost use Rattle.mm_slots.specs.HeldParts.{LendsSlot};

    /// A platform with these cells of 104 bytes each, one a slot: on, with empty registers and no
    /// faults. Slot 0 is selected.
    pub fn new(alloc: Global, cells: &[[u8; CELL_LENGTH]]) -> Result<SlotPlatform, Memory>
        requires some { 1 ≤ length cells.now }
        requires few { length cells.now ≤ 16 }
        ensures { IfOk result (λ platform. platform
            ≡ record { slots = map new_platform cells.now; selected = 0 }) }
    {
        let mut slots = Vec::new(alloc);
        for cell in cells {
            slots.push(MemPlatform::new(alloc, cell))?;
        }
        Ok(SlotPlatform { slots, selected: 0 })
    }

    /// Selects the slot with this number.
    pub fn select(&mut self, slot: usize)
        requires { slot < length self.old.slots }
        ensures { self.new ≡ record self.old { selected = slot } }
    {
        self.selected = slot;
    }

    /// Others extend the register of the slot with this number by this value. After want of memory
    /// nothing has changed.
    pub fn foreign(&mut self, slot: usize, value: &Digest) -> Result<(), Memory>
        requires { slot < length self.old.slots }
        ensures ok { OnOk result (self.new ≡ slots_after_value self.old slot value.now) }
        ensures err { OnErr result (self.new ≡ self.old) }
    {
        self.slots[slot].foreign(value)
    }

    /// The next step of the slot with this number fails, with its effect where `done`; no other
    /// step does.
    pub fn fail_next(&mut self, slot: usize, done: bool)
        requires { slot < length self.old.slots }
        ensures { self.new ≡ slots_with_failure self.old slot done }
    {
        self.slots[slot].fail_next(done);
    }

    /// Loses power and gets it back: the registers of all slots are zero.
    pub fn power(&mut self)
        ensures { self.new ≡ slots_after_cycle self.old }
    {
        self.cycle_all();
    }

    /// The slot with this number.
    pub fn slot(&mut self, slot: usize) -> &mut MemPlatform
        requires { slot < length self.old.slots }
        ensures* writes_back { sem 𝓛 (LendsSlot self.entry slot result) }
        ensures value { result.now ≡ standing_in self.old slot }
    {
        &mut self.slots[slot]
    }

    // Takes the power of each slot and gives it back.
    fn cycle_all(&mut self)
        ensures all { self.new ≡ slots_after_cycle self.old }
        ensures inside { self.old.selected < length self.old.slots }
    {
        for slot in self.slots.iter_mut() {
            slot.lose_power();
        }
    }

    // The selected slot.
    fn here(&mut self) -> &mut MemPlatform
        ensures* writes_back { sem 𝓛 (LendsSlot self.entry self.old.selected result) }
        ensures value { result.now ≡ selected_standing self.old }
        ensures inside { self.old.selected < length self.old.slots }
    {
        &mut self.slots[self.selected]
    }
}

impl Device for SlotPlatform {
    ghost use Rattle.mm_slots.specs.Stage.{selected_standing};

    ghost standing = { selected_standing };
}

impl Nv for SlotPlatform {
    ghost use Rattle.std.specs.Prelude.{◌≡◌, ℕ, List, Some, OnOk, OnErr};
    ghost use Rattle.std.specs.Result.{result_err};
    ghost use Rattle.mm_platform.specs.Standing.{ReadCell, WriteCell, StepGoes};
    ghost use Rattle.mm_slots.specs.Stage.{selected_standing, KeepsOthers};

    fn nv_read(&mut self, into: &mut [u8; CELL_LENGTH]) -> Result<(), StepFault>
        ensures goes { StepGoes ReadCell (selected_standing self.old) (selected_standing self.new)
            (result_err result) }
        ensures read { OnOk result ((cell : List ℕ) → (selected_standing self.old).cell ≡ Some cell
            → into.new ≡ cell) }
        ensures unread { OnErr result (into.new ≡ into.old) }
        ensures others { KeepsOthers self.old self.new }
    {
        self.here().nv_read(into)
    }

    fn nv_write(&mut self, bytes: &[u8; CELL_LENGTH]) -> Result<(), StepFault>
        ensures goes { StepGoes (WriteCell bytes.now) (selected_standing self.old)
            (selected_standing self.new)
            (result_err result) }
        ensures others { KeepsOthers self.old self.new }
    {
        self.here().nv_write(bytes)
    }
}

impl Register for SlotPlatform {
    ghost use Rattle.std.specs.Prelude.{◌≡◌, ◌≤◌, List, Some, OnOk, OnErr, IfOk};
    ghost use Rattle.std.specs.Result.{result_err};
    ghost use Rattle.mm_platform.specs.Standing.{Item, item_values, register_after, ReadRegister, ResetRegister, ExtendRegister, StepGoes};
    ghost use Rattle.mm_platform.specs.Standing.{RoomGrows};
    ghost use Rattle.mm_slots.specs.Stage.{selected_standing, KeepsOthers};

    fn reg_ready(&mut self) -> Result<(), Memory>
        ensures ok { OnOk result
            (RoomGrows (selected_standing self.old) (selected_standing self.new)) }
        ensures err { OnErr result (selected_standing self.new ≡ selected_standing self.old) }
        ensures others { KeepsOthers self.old self.new }
    {
        self.here().reg_ready()
    }

    fn reg_read(&mut self) -> Result<Digest, StepFault>
        ensures goes { StepGoes ReadRegister (selected_standing self.old)
            (selected_standing self.new)
            (result_err result) }
        ensures read { IfOk result (λ value. (items : List Item)
            → (selected_standing self.new).items ≡ Some items
            → value.bytes ≡ register_after (item_values items)) }
        ensures others { KeepsOthers self.old self.new }
    {
        self.here().reg_read()
    }

    fn reg_reset(&mut self) -> Result<(), StepFault>
        ensures goes { StepGoes ResetRegister (selected_standing self.old)
            (selected_standing self.new)
            (result_err result) }
        ensures others { KeepsOthers self.old self.new }
    {
        self.here().reg_reset()
    }

    fn reg_extend(&mut self, value: &Digest) -> Result<(), StepFault>
        requires { 1 ≤ (selected_standing self.old).spare }
        ensures goes { StepGoes (ExtendRegister value.now.bytes) (selected_standing self.old)
            (selected_standing self.new) (result_err result) }
        ensures others { KeepsOthers self.old self.new }
    {
        self.here().reg_extend(value)
    }
}

impl Platform for SlotPlatform {
    ghost use Rattle.std.specs.Prelude.{◌≡◌};
    ghost use Rattle.std.specs.Result.{result_err};
    ghost use Rattle.mm_platform.specs.Standing.{PowerCycles};
    ghost use Rattle.mm_slots.specs.Stage.{selected_standing, slots_after_cycle};

    fn cycle(&mut self) -> Result<(), StepFault>
        ensures cycles { PowerCycles (selected_standing self.old) (selected_standing self.new)
            (result_err result) }
        ensures all { self.new ≡ slots_after_cycle self.old }
    {
        SlotPlatform::cycle_all(self);
        Ok(())
    }
}
