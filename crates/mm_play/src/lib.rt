//! The lines of an input, each answered before the next is read.
#![tactic(auto)]

mod commands;
mod lines;
mod player;
mod progress;
mod stage;

pub use commands::LinePlayer;
pub use lines::play;
pub use player::{LineRefusal, Player, ReplyFault};
pub use progress::Progress;
pub use stage::{Heading, PlayStage};
