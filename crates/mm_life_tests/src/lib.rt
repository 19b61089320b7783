//! Callers of the laws of lives and of calls by steps come to an end over memory, and tell what
//! they should; and a client's rule is the one that `examples/client` has. Tests stand apart from
//! the crates that they call, since a crate with tests is proved twice by the gate; and what is
//! dear to prove in four crates, side by side: mm_client_tests, mm_work_tests and mm_copy_tests
//! have the rest.
#![tactic(auto)]

#[cfg(test)]
mod hearings;
#[cfg(test)]
mod lives;
#[cfg(test)]
mod told;
