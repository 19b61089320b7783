//! Schedules, line by line: the events that they ask for, and the lines that answer them.
#![tactic(auto)]

mod event;
mod fault;
mod header;
pub mod laws;
mod print;
mod put;
mod read;
mod reply;
mod text;
mod words;

pub use event::{Event, Meddles, Offer};
pub use fault::EventFault;
pub use header::{Header, put_header, read_head, read_header, read_variant, variant_word};
pub use print::{print_line, print_told, reply_lines};
pub use put::{put_end, put_line};
pub use read::read_event;
pub use reply::{Cause, Reply, Way};
pub use text::{EventText, OfferText, event_in, meddles_in, offer_in, owned_offer, stop_in};
pub use words::{after, is_text, number_in, spells_bytes, value_in, word_in};
