//! The machine of whatever a platform is asked: it reads the cell, and the register where that is
//! wanted, finds what is to be done, and makes the steps that do it, one at a time or to their end.
//! An operation says what it sees and finds; the order of the device steps, their faults and the
//! room for an own extension stand here once.
#![tactic(auto)]

mod call;
mod change;
mod finishing;
mod operation;
mod reading;

pub use call::{OpCall, OpResult, OpStage, StepResult, advance};
pub use change::{Change, SegmentOpening};
pub use finishing::{advance_and_finish, finish, finish_change, run};
pub use operation::{OpFinding, Operation, ReadyChange, Sight};
pub use reading::{Halt, OpPrepared, read};
