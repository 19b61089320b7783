//! The events of two sides.

use crate::nonce::Nonce;
use mm_platform::Stop;
use mm_schedule::{Event, Meddles, Offer};

/// The first side or the second, whose numbers are 0 and 1.
#[derive(Clone, Copy)]
pub enum SideChoice {
    First,
    Second,
}

/// A command that moves the module.
#[derive(Drop)]
pub enum Command {
    /// The module is invited to the side, under a nonce.
    Invite { nonce: Nonce },
    /// The module leaves the side for whoever was invited under the nonce, with one of the side's
    /// snapshots.
    Retire { nonce: Nonce, offer: Offer },
    /// The module enters the side, with one of the tickets.
    Accept { offer: Offer },
}

/// What happens on a side.
#[derive(Drop)]
pub enum SideAct {
    /// An event of a schedule.
    Plain(Event),
    /// A command. Others extend the register just before certain steps of it, and it may be stopped
    /// at a step.
    Moves {
        meddles: Meddles,
        stop: Stop,
        command: Command,
    },
}

/// One event of two sides.
#[derive(Drop)]
pub struct SideEvent {
    pub which: SideChoice,
    pub act: SideAct,
}
