//! How the program ends.

use mm_base::ReplayFault;
use mm_model::Refusal;

/// How the program ends. Lines are numbered from 1.
#[derive(Clone, Copy)]
pub enum Status {
    /// All was done and written.
    Done,
    /// The words are no command.
    Usage,
    /// The input failed; of `init`, the entropy.
    ReadFault,
    /// The output failed.
    WriteFault,
    /// Want of memory.
    Memory,
    /// A step of the platform failed.
    PlatformFault,
    /// The store failed.
    StoreFault,
    /// The platform's cell is blank: there is no instance yet.
    Blank,
    /// The platform's cell isn't blank: there is an instance already.
    Already,
    /// The platform's cell isn't one that this program can go on with.
    Cell,
    /// Power was lost inside an open segment.
    Lost,
    /// The host's snapshot was refused.
    Refused(Refusal),
    /// The line is outside the grammar, has no LF, or is missing.
    BadLine { line: u32 },
    /// The line has too many bytes.
    LineLong { line: u32 },
    /// The events or the bytes kept are too many.
    TooMuch,
    /// The entropy ended after so many bytes, too few.
    Short { got: u8 },
    /// The platform's cell is one of Basic, which has no segments.
    Kind,
}

impl Status {
    ghost use Rattle.std.specs.Prelude.{◌≡◌};
    ghost use Rattle.mm_status.specs.Status.{exit_code, status_at};

    /// The program's exit status.
    pub fn code(&self) -> u8
        ensures { result ≡ exit_code self.now }
    {
        match self {
            Status::Done => 0,
            Status::Usage => 2,
            Status::ReadFault => 3,
            Status::WriteFault => 4,
            Status::Memory => 5,
            Status::PlatformFault => 6,
            Status::StoreFault => 7,
            Status::Blank => 8,
            Status::Already => 9,
            Status::Cell => 10,
            Status::Lost => 11,
            Status::Refused(_) => 12,
            Status::BadLine { .. } => 13,
            Status::LineLong { .. } => 14,
            Status::TooMuch => 15,
            Status::Short { .. } => 16,
            Status::Kind => 17,
        }
    }

    /// How the program ends where a command stopped so.
    pub fn of(fault: ReplayFault) -> Status
        ensures { result ≡ status_at fault }
    {
        match fault {
            ReplayFault::Memory => Status::Memory,
            ReplayFault::ReadFault => Status::ReadFault,
            ReplayFault::WriteFault => Status::WriteFault,
            ReplayFault::BadLine { line } => Status::BadLine { line },
            ReplayFault::LineLong { line } => Status::LineLong { line },
            ReplayFault::TooMuch => Status::TooMuch,
        }
    }
}
