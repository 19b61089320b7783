//! What a call says to C, as a number.

use mm_model::Refusal;
use mm_move::MoveRefusal;
use mm_opt::CheckpointRefusal;

/// What a call says.
#[derive(Clone, Copy)]
pub enum ReturnStatus {
    /// It is done, and everything is written.
    Done,
    /// The core refused.
    Refused(Refusal),
    /// The next step is to be made.
    Next,
    /// The steps that were made aren't those of this call.
    Differs,
    /// No segment was open.
    NoSegment,
    /// The platform has a module, or waits for another ticket.
    Already,
    /// A segment is open.
    Open,
    /// The module has left the platform.
    Gone,
    /// The platform waits for a ticket with another nonce.
    Nonce,
    /// The cell has another barrier than the link.
    Barrier,
    /// The platform was invited before, just so.
    Again,
    /// No variant has this number.
    NoVariant,
    /// No module has this id.
    NoModule,
    /// More steps than a call makes.
    TooMany,
    /// No step has this kind, or no answer this number.
    NoStep,
    /// There is less room than is needed.
    NoRoom,
    /// A key has not 32 bytes.
    NoKey,
    /// No request has this position.
    NoPosition,
}

impl ReturnStatus {
    ghost use Rattle.std.specs.Prelude.{◌≡◌, ◌↔◌};
    ghost use Rattle.memoir_c.specs.Numbers.{number_of, closing_status, move_status};

    /// Its number, 0 for Done alone, and 16 for Next alone.
    pub fn code(self) -> u32
        ensures number { result ≡ number_of self }
        ensures done { (result ≡ 0) ↔ (self ≡ ReturnStatus.Done) }
        ensures next { (result ≡ 16) ↔ (self ≡ ReturnStatus.Next) }
    {
        match self {
            ReturnStatus::Done => 0,
            ReturnStatus::Refused(refusal) => u32::from(refusal.code()),
            ReturnStatus::Next => 16,
            ReturnStatus::Differs => 17,
            ReturnStatus::NoSegment => 18,
            ReturnStatus::Already => 19,
            ReturnStatus::Open => 20,
            ReturnStatus::Gone => 21,
            ReturnStatus::Nonce => 22,
            ReturnStatus::Barrier => 23,
            ReturnStatus::Again => 24,
            ReturnStatus::NoVariant => 32,
            ReturnStatus::NoModule => 33,
            ReturnStatus::TooMany => 34,
            ReturnStatus::NoStep => 35,
            ReturnStatus::NoRoom => 36,
            ReturnStatus::NoKey => 37,
            ReturnStatus::NoPosition => 38,
        }
    }

    /// Of a refused checkpoint, as of a call that is refused for the same.
    pub fn of_checkpoint(refusal: CheckpointRefusal) -> ReturnStatus
        ensures { result ≡ closing_status refusal }
    {
        match refusal {
            CheckpointRefusal::Device(fault) => ReturnStatus::Refused(Refusal::Device(fault)),
            CheckpointRefusal::Blank => ReturnStatus::Refused(Refusal::Blank),
            CheckpointRefusal::Cell => ReturnStatus::Refused(Refusal::Cell),
            CheckpointRefusal::Kind => ReturnStatus::Refused(Refusal::Kind),
            CheckpointRefusal::Lost => ReturnStatus::Refused(Refusal::Lost),
        }
    }

    /// Of a refused move, as of a call that is refused for the same.
    pub fn of_move(refusal: MoveRefusal) -> ReturnStatus
        ensures { result ≡ move_status refusal }
    {
        match refusal {
            MoveRefusal::Core(refusal) => ReturnStatus::Refused(refusal),
            MoveRefusal::Already => ReturnStatus::Already,
            MoveRefusal::Open => ReturnStatus::Open,
            MoveRefusal::Gone => ReturnStatus::Gone,
            MoveRefusal::Nonce => ReturnStatus::Nonce,
            MoveRefusal::Barrier => ReturnStatus::Barrier,
        }
    }
}
