//! What a driver does.

use mm_bytes::Failed;

/// The hardware: 209 bytes of memory that outlive a loss of power, and a register of 32 bytes. No
/// contract says what a call does: that it does what stands here is trusted. A call that fails may
/// leave a part of its work done, but none of it happens later.
pub trait Driver {
    /// Fills `into` with the bytes of the memory from `at` on.
    fn read_memory(&mut self, at: u16, into: &mut [u8]) -> Result<(), Failed>;

    /// Writes the memory from `at` on. Where it answers Ok, the bytes outlive a loss of power.
    fn write_memory(&mut self, at: u16, bytes: &[u8]) -> Result<(), Failed>;

    /// Gives the register.
    fn read_register(&mut self) -> Result<[u8; 32], Failed>;

    /// Sets the register to zero.
    fn reset_register(&mut self) -> Result<(), Failed>;

    /// Puts SHA-256 of the register and the value into the register.
    fn extend_register(&mut self, value: &[u8; 32]) -> Result<(), Failed>;
}
