//! The life of a platform: whatever is done behind a first start, program after program, with
//! whatever in the slots, is one list of requests.
#![tactic(auto)]

mod honest;
mod killed;
mod laws;
mod one_store;

pub use honest::{basic_life_goes_on, opt_life_goes_on};
pub use killed::killed_programs_live;
pub use laws::{
    basic_life_is_one, batch_calls_are_deeds, deeds_stay, device_calls_are_deeds,
    lives_keep_promises, lives_tell_what_was_said, lives_write_once, next_may_start,
    one_request_meets_premises, opt_life_is_one, parts_are_refused_elsewhere, sessions_offer_slots,
};
pub use one_store::{
    BothSessions, BothSessionsFault, CheckedSessions, live_on_one_store, live_over_checkpoint,
};
