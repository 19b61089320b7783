//! What a platform in memory will do at its coming steps.

use mm_digest::Digest;

/// Others extend the register by this value just before the step with this number, counted from 1.
#[derive(Clone, Copy, PartialEq, Eq)]
pub struct Meddle {
    pub step: u8,
    pub value: Digest,
}

/// What goes wrong, and at which step, counted from 1.
#[derive(Clone, Copy, PartialEq, Eq)]
pub enum Stop {
    /// Nothing.
    Quiet,
    /// Power is lost: the step has its effect and answers Off, and the platform is off.
    Cut(u8),
    /// The answer is lost: the step has its effect and answers Off, and the platform stays on with
    /// its register.
    Drop(u8),
    /// The device fails: the step answers Failed, and has its effect where `done`.
    Fail { step: u8, done: bool },
}
