//! What lies below every crate of Memoir: bytes, decimals, numbers of fixed length, limits and
//! faults. mm_base hands all of it on; crates that need no lines stand on this one alone.
#![tactic(auto)]

mod bytes;
mod decimal;
mod fault;
mod fields;
mod limits;

pub use bytes::Bytes;
pub use decimal::{put_decimal, put_numbered, read_decimal};
pub use fault::{Failed, Memory, WriteFault};
pub use fields::{bytes_of_u32, bytes_of_u64, split_u32, split_u64};
pub use limits::{
    CELL_LENGTH, LAST_POSITION, LONGEST_LINE, LONGEST_REQUEST, MOST_EVENTS, MOST_MEMBERS,
};
