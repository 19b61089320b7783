//! Why a move is refused.

ghost use Rattle.std.specs.Prelude.{◌≡◌};

use mm_model::Refusal;
use thiserror::Error;

/// Why a move was refused, each in the order of its call.
#[derive(Clone, Copy, Debug, Error)]
pub enum MoveRefusal {
    /// As a call of the module is refused: never as Long, Lost or Full.
    #[error(transparent)]
    Core(Refusal),
    /// The platform has a module, or waits for another ticket.
    #[error("the platform isn't free")]
    Already,
    /// A segment is open.
    #[error("a segment is open")]
    Open,
    /// The module has left the platform.
    #[error("the module has left the platform")]
    Gone,
    /// The platform waits for a ticket with another nonce.
    #[error("the ticket is for another nonce")]
    Nonce,
    /// The cell has another barrier than the link.
    #[error("the cell has another barrier than the link")]
    Barrier,
}

impl MoveRefusal {
    ghost use Rattle.mm_move.specs.Cells.{move_code_of};

    /// The refusal's number: 13 to 17, and that of a call's refusal as it is.
    pub fn code(&self) -> u8
        ensures { result ≡ move_code_of self.now }
    {
        match self {
            MoveRefusal::Core(refusal) => refusal.code(),
            MoveRefusal::Already => 13,
            MoveRefusal::Open => 14,
            MoveRefusal::Gone => 15,
            MoveRefusal::Nonce => 16,
            MoveRefusal::Barrier => 17,
        }
    }
}
