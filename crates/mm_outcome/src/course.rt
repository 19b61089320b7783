//! The course that a schedule plans for a call.

use mm_platform::{Meddle, Stop};

/// Where a call is stopped, and what others put into the register before its steps.
#[derive(Clone, Copy)]
pub struct CallPlan<'a> {
    pub stop: Stop,
    pub meddles: &'a [Meddle],
}
