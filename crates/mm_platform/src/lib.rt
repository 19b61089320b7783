//! The platform below a module: a cell in non-volatile memory, a register that can only be extended
//! or reset, and their power. Traits say what each device step does, and how it may fail.
#![tactic(auto)]

mod device;
mod extensions;
mod fate;
mod fault;
mod memory;
mod plan;
mod raw;

pub use device::{Device, Nv, Platform, Register};
pub use fault::StepFault;
pub use memory::MemPlatform;
pub use plan::{Meddle, Stop};
pub use raw::RawNv;
