//! A client whose sessions are killed, each at any moment: each of his requests is run once.
#![tactic(auto)]

mod laws;

pub use laws::{basic_mortal_clients_are_served_once, opt_mortal_clients_are_served_once};
