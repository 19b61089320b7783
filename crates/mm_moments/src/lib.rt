//! Programs that are killed at any moment: each is a program that ended by itself, as a device
//! failed at that moment; so it is a part of a life.
#![tactic(auto)]

mod moments;
mod mortal;

pub use moments::{call_stops_anywhere, session_stops_anywhere, sessions_may_be_killed};
pub use mortal::{
    killed_sessions_offer_slots, mortal_lives_are_one, mortal_lives_end, mortal_lives_go_on,
    mortal_lives_keep_promises,
};
