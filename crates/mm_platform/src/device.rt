//! The devices of a platform, by what stands on it.

ghost use Rattle.std.specs.Prelude.{◌≡◌, ◌≤◌, ℕ, List, Some, OnOk, OnErr, IfOk};
ghost use Rattle.std.specs.Result.{result_err};
ghost use Rattle.mm_platform.specs.Standing.{Item, Standing, item_values, register_after, ReadCell, WriteCell, ReadRegister, ResetRegister};
ghost use Rattle.mm_platform.specs.Standing.{ExtendRegister, StepGoes, RoomGrows, PowerCycles};

use crate::fault::StepFault;
use mm_bytes::{CELL_LENGTH, Memory};
use mm_digest::Digest;

/// The devices of one platform. It has no call: it carries what stands on the platform, so that a
/// step of one device says what stays of the others.
pub trait Device {
    /// The cell, the register's items, power, counts of steps, writes, power losses and faults,
    /// room for items.
    ghost standing: { Self → Standing };
}

/// A cell of 104 bytes in non-volatile memory, which is read and written as a whole. Each call is a
/// device step.
pub trait Nv: Device {
    /// Reads the cell. After a fault `into` is as before.
    fn nv_read(&mut self, into: &mut [u8; CELL_LENGTH]) -> Result<(), StepFault>
        ensures goes { StepGoes ReadCell (Self.standing self.old) (Self.standing self.new)
            (result_err result) }
        ensures read { OnOk result ((cell : List ℕ) → (Self.standing self.old).cell ≡ Some cell
            → into.new ≡ cell) }
        ensures unread { OnErr result (into.new ≡ into.old) };

    /// Writes the cell.
    fn nv_write(&mut self, bytes: &[u8; CELL_LENGTH]) -> Result<(), StepFault>
        ensures { StepGoes (WriteCell bytes.now) (Self.standing self.old) (Self.standing self.new)
            (result_err result) };
}

/// A register of 32 bytes, which can be read, set to zero, and extended by a value of 32 bytes.
/// Each call but `reg_ready` is a device step.
pub trait Register: Device {
    /// Makes room to record one own extension, so that the extension itself takes no memory.
    fn reg_ready(&mut self) -> Result<(), Memory>
        ensures ok { OnOk result (RoomGrows (Self.standing self.old) (Self.standing self.new)) }
        ensures err { OnErr result (Self.standing self.new ≡ Self.standing self.old) };

    /// Reads the register's value.
    fn reg_read(&mut self) -> Result<Digest, StepFault>
        ensures goes { StepGoes ReadRegister (Self.standing self.old) (Self.standing self.new)
            (result_err result) }
        ensures read { IfOk result (λ value. (items : List Item)
            → (Self.standing self.new).items ≡ Some items
            → value.bytes ≡ register_after (item_values items)) };

    /// Sets the register to zero.
    fn reg_reset(&mut self) -> Result<(), StepFault>
        ensures { StepGoes ResetRegister (Self.standing self.old) (Self.standing self.new)
            (result_err result) };

    /// Extends the register by a value.
    fn reg_extend(&mut self, value: &Digest) -> Result<(), StepFault>
        requires { 1 ≤ (Self.standing self.old).spare }
        ensures { StepGoes (ExtendRegister value.now.bytes) (Self.standing self.old)
            (Self.standing self.new) (result_err result) };
}

/// A cell, a register and their power.
pub trait Platform: Nv + Register {
    /// Loses power and gets it back: the register is zero afterwards, and the cell stays.
    fn cycle(&mut self) -> Result<(), StepFault>
        ensures { PowerCycles (Self.standing self.old) (Self.standing self.new)
            (result_err result) };
}
