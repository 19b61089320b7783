//! One call, as both variants have it: what stands below the two cores, in definitions and in code.
//!
//! A call over any platform is the walk of its steps on some course: what others put into the
//! register just before each step, and how the step ends. The definitions say what a call comes to
//! on a course, by lists, which know no digest, and by digests, which know no list. The code is
//! what both cores do alike: a batch that runs in memory, the answer that it is sealed into, and
//! the order in which an offer is refused.
#![tactic(auto)]

mod answering;
mod ended;
mod examining;
mod first;
mod laws;
mod turn;
mod whole;

pub use answering::answer;
pub use ended::{AskResult, refusal_of};
pub use examining::{admit, admit_batch, vet};
pub use first::{Provisioned, provision_with};
pub use laws::{
    basic_calls_agree, basic_checkpoints_agree, opt_calls_agree, opt_checkpoints_agree, opt_tied,
    trails_lead,
};
pub use mm_model::{BatchRun, run_batch};
pub use mm_seal::KeptKey;
pub use turn::Turn;
pub use whole::{Committed, commit, finish_call, read_call, read_call_alone};
