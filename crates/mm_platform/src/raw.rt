//! Non-volatile memory whose writes may tear.

ghost use Rattle.std.specs.Prelude.{◌≡◌, ◌≤◌, ◌+◌, ℕ, List, Some, OnOk, OnErr, length};
ghost use Rattle.std.specs.Result.{result_err};
ghost use Rattle.mm_platform.specs.Standing.{PowerCycles};
ghost use Rattle.mm_platform.specs.Memory.{range_of, ReadsRaw, WritesRaw};

use crate::device::Device;
use crate::fault::StepFault;

/// Non-volatile memory of 209 bytes, which stand for the platform's cell, and of which any range
/// can be read or written. A write that fails may leave any bytes in its range.
pub trait RawNv: Device {
    /// Reads the bytes from `at` on. After a fault `into` is as before.
    fn raw_read(&mut self, at: u16, into: &mut [u8]) -> Result<(), StepFault>
        requires { at + length into.old ≤ 209 }
        ensures goes { ReadsRaw (Self.standing self.old) (Self.standing self.new)
            (result_err result) }
        ensures read { OnOk result ((bytes : List ℕ) → (Self.standing self.old).cell ≡ Some bytes
            → into.new ≡ range_of at (length into.old) bytes) }
        ensures unread { OnErr result (into.new ≡ into.old) };

    /// Writes these bytes from `at` on.
    fn raw_write(&mut self, at: u16, bytes: &[u8]) -> Result<(), StepFault>
        requires { at + length bytes.now ≤ 209 }
        ensures { WritesRaw at bytes.now (Self.standing self.old) (Self.standing self.new)
            (result_err result) };

    /// Loses power and gets it back: the register is zero afterwards, and the bytes stay.
    fn raw_cycle(&mut self) -> Result<(), StepFault>
        ensures { PowerCycles (Self.standing self.old) (Self.standing self.new)
            (result_err result) };

    /// A platform that tells its bytes has 209.
    ghost is_whole: { (it : Self) (bytes : List ℕ) → (Self.standing it).cell ≡ Some bytes
        → length bytes ≡ 209 };
}
