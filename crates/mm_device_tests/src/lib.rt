//! The room of device tests: what no contract says, of devices in memory, of what is put together
//! over them, and of the bytes that go into them. Calls fail where they are told to, writes tear,
//! and it is counted how often a device is called; callers of a platform, of a store and of the
//! cores are run once; whole commands meet inputs too long for a table, a reader and a writer that
//! fail, and an input that waits for replies. Known messages, bytes read as they were spelled, the
//! longest states, and moves on cells that no run makes. They stand apart, since a crate with tests
//! is proved twice by the gate.
#![tactic(auto)]

#[cfg(test)]
mod callers;
#[cfg(test)]
mod commands;
#[cfg(test)]
mod digest;
#[cfg(test)]
mod limits;
#[cfg(test)]
mod lines;
#[cfg(test)]
mod model;
#[cfg(test)]
mod moved_cell;
#[cfg(test)]
mod moves;
#[cfg(test)]
mod pages;
#[cfg(test)]
mod platform;
#[cfg(test)]
mod quota;
#[cfg(test)]
mod record;
#[cfg(test)]
mod samples;
#[cfg(test)]
mod seal;
#[cfg(test)]
mod slots;
#[cfg(test)]
mod store;
#[cfg(test)]
mod streams;
#[cfg(test)]
mod twocell;
