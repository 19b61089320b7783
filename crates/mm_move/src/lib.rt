//! A module that moves from one platform to another, with its one history.
//!
//! The platform that the module goes to is invited: its cell waits for a ticket with a nonce. The
//! platform that it leaves is retired to that nonce, and gives the ticket. The first accepts the
//! ticket, and the module lives there. Each of the three reads the cell, and writes it in its
//! second step, which is the one that moves the module.
#![tactic(auto)]

mod accepting;
mod cell;
mod fields;
mod inviting;
mod laws;
mod link;
mod owner;
mod ready;
mod refusal;
mod retiring;
mod ticket;

pub use accepting::{Accepted, accept};
pub use cell::{MovedCell, RetiredCell, WaitingCell, moved_bytes, read_moved};
pub use inviting::{Invited, invite};
pub use laws::{cells_are_read, tickets_are_read};
pub use link::Link;
pub use refusal::MoveRefusal;
pub use retiring::retire;
pub use ticket::{OfferedTicket, Ticket, read_ticket, ticket_bytes};
