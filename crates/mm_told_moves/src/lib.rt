//! Moves whose device steps a host makes: they are led on by what the host's cell answered, and say
//! the next step behind that.
#![tactic(auto)]

mod finding;
mod following;
mod laws;
mod moves;

pub use finding::{FoundMove, HostMove};
pub use following::follow;
pub use laws::told_moves_are_moves;
pub use moves::{accept, invite, retire};
