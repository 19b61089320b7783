//! What an event of two sides is answered.

use mm_schedule::{Cause, Reply, Way};

/// Why a move is refused.
#[derive(Clone, Copy)]
pub enum MoveCause {
    /// As a call of a schedule is refused.
    Refused(Cause),
    /// The side has the module, or waits for another ticket.
    Already,
    /// A segment is open.
    Open,
    /// The module left the side for another nonce, or left it at all.
    Gone,
    /// The side waits for a ticket with another nonce.
    Nonce,
    /// The cell has another barrier than the link.
    Barrier,
}

/// The answer to an event of two sides.
#[derive(Drop)]
pub enum MoveReply {
    /// The reply to an event of a schedule.
    Said(Reply),
    /// The side waits for a ticket.
    Invited,
    /// The module has left the side, by the ticket with this number.
    Left { ticket: u32 },
    /// The module has entered the side, after so many requests.
    Entered { position: u64 },
    /// The move was refused.
    Denied(MoveCause),
    /// No snapshot with this number was issued on the side.
    NoSnapshot,
    /// No ticket with this number was issued.
    NoTicket,
    /// The move was disturbed, and the module was moved or not.
    Broken { way: Way, moved: bool },
}
