//! A store of four slots over a device of pages, which writes only the pages that changed.
#![tactic(auto)]

mod device;
mod digests;
mod memory;
mod page;
mod reading;
mod renewal;
mod store;
mod writing;

pub use device::PageDevice;
pub use memory::MemPages;
pub use store::PageStore;
