//! Schedules over a platform in memory, in either variant.
#![tactic(auto)]

mod call;
mod keys;
mod parts;
mod planning;
mod seat;
mod views;
mod world;

pub use call::{CallReport, call_by_offer, planned_checkpoint, settle, takes_effect};
pub use keys::world_secrets;
pub use planning::{CallTeller, planned, settled};
pub use seat::Seat;
pub use views::{EventView, OfferView, line_view, owned_view};
pub use world::World;
