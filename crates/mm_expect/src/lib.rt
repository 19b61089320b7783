//! Works out, event by event, what a schedule has to be answered: by the list of all requests,
//! without any digest. `check` compares recorded replies with it. In the words of mm_outcome it is
//! the fold by lists, followed in code.
#![tactic(auto)]

mod answering;
mod calls;
mod chronicle;
mod course;
mod expecting;
mod judging;
mod offers;
mod replies;

pub use expecting::{Expectation, ExpectedOutcome};
