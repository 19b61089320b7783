//! A module that moves between two platforms, and keeps its one list of requests: schedules of both
//! sides, from bytes to bytes.
#![tactic(auto)]

mod between;
mod commands;
mod event;
mod laws;
mod moving;
mod nonce;
mod opening;
mod put;
mod read;
mod reply;
mod report;
mod side;
mod sides;
mod stage;
mod text;
mod whole;

pub use event::{Command, SideAct, SideChoice, SideEvent};
pub use laws::{transfers_are_one_run, transfers_go_on};
pub use mm_move::{Accepted, Invited, Link, MoveRefusal, accept, invite, retire};
pub use nonce::Nonce;
pub use opening::FirstLine;
pub use put::{put_answer, put_end};
pub use read::{read_first, read_side_event};
pub use reply::{MoveCause, MoveReply};
pub use report::TransferReport;
pub use sides::Sides;
pub use stage::TransferStage;
pub use whole::transfer;
