//! What is either core's: a call, in one go or a device step at a time, and how a platform begins.
#![tactic(auto)]

mod ask;
mod caller;
mod provisioning;
mod secrets;

pub use ask::Ask;
pub use caller::Caller;
pub use provisioning::provision;
pub use secrets::Secrets;
