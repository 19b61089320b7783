//! An example of a platform of your own: a cell and a register behind a driver.
#![tactic(auto)]

mod driver;
mod platform;

pub use driver::Driver;
pub use platform::DrivenPlatform;
