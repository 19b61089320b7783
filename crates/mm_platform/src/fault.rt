//! How a device step fails.

use thiserror::Error;

/// A device step failed. Its effect was made or wasn't, and nothing of it comes later.
#[derive(Clone, Copy, Debug, PartialEq, Eq, Error)]
pub enum StepFault {
    /// The step failed, and the platform is still on.
    #[error("the device failed")]
    Failed,
    /// The platform may be off. While it is, every step answers so and has no effect.
    #[error("the platform is off")]
    Off,
}
