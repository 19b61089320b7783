//! The quota ledger: accounts with limits, in a small and a wide size.
#![tactic(auto)]

mod account;
mod listed;
mod place;
mod quota;
mod request;

pub use quota::{Accounts, Ledger, Quota};
