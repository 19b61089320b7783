//! The history that a protected module's digests stand for, and what is said of an offered
//! snapshot.
#![tactic(auto)]

mod answer;
mod hashes;
mod kept;
mod laws;
mod long;
mod move_laws;
mod refusal;
mod running;
mod verdict;

pub use answer::{Answer, BatchAnswer};
pub use hashes::{guard, link};
pub use kept::{
    KeptBatch, KeptEntry, copies_of, copy_entries, last_is, normal, reserve_one, some_value,
};
pub use laws::{
    anchors_are_told_apart, basic_verdict_is_judged, batches_are_hashed, batches_are_told_apart,
    chains_go_on, ended_histories_accept_nothing, histories_list_their_messages, offers_stand_here,
    opt_verdict_is_judged, registers_are_told_apart, summaries_are_told_apart, zero_is_lost,
};
pub use long::is_long;
pub use move_laws::{
    answers_name_the_last_position, basic_messages_go_on, fresh_offers_list_their_batch,
    moves_are_device_steps, moves_keep_histories_sound, moves_keep_names,
    moves_keep_values_outside, opt_messages_go_on, whole_commits_are_moves,
};
pub use refusal::Refusal;
pub use running::{BatchRun, run_batch, run_batch_in};
pub use verdict::Verdict;
