//! What a checkpoint finds, and what it says.

use mm_platform::StepFault;
use mm_seal::Cell;
use thiserror::Error;

/// What a checkpoint did.
#[derive(Clone, Copy, PartialEq, Eq)]
pub enum Checkpointed {
    /// The open segment is closed.
    Done,
    /// There was no open segment, and nothing has changed.
    NoSegment,
}

/// Why a checkpoint was refused, in the order in which it looks for it, but for Device.
#[derive(Clone, Copy, Debug, PartialEq, Eq, Error)]
pub enum CheckpointRefusal {
    /// A step of the platform failed.
    #[error("a step of the platform failed")]
    Device(StepFault),
    /// The cell is blank: 104 zero bytes.
    #[error("the cell is blank")]
    Blank,
    /// The cell's bytes are neither blank nor a cell's.
    #[error("the cell isn't spelled")]
    Cell,
    /// The cell is one of Basic, which has no segments.
    #[error("the cell is one of Basic")]
    Kind,
    /// Power was lost inside the open segment.
    #[error("power was lost inside an open segment")]
    Lost,
}

/// The segment of a cell.
#[derive(Drop)]
pub enum Segment {
    /// A segment is open.
    Open(Cell),
    /// No segment is open.
    Shut,
}
