//! What the programs of Memoir stand on: where bytes come from and where they go, the lines of an
//! input, and all of mm_bytes: bytes, decimals, numbers of fixed length, limits and faults.
#![tactic(auto)]

mod lines;
mod replay_fault;
mod sink;
mod source;

pub use lines::{LineFault, LineReader, Read};
pub use mm_bytes::{
    Bytes, CELL_LENGTH, Failed, LAST_POSITION, LONGEST_LINE, LONGEST_REQUEST, MOST_EVENTS,
    MOST_MEMBERS, Memory, WriteFault, bytes_of_u32, bytes_of_u64, put_decimal, put_numbered,
    read_decimal, split_u32, split_u64,
};
pub use replay_fault::ReplayFault;
pub use sink::{MemSink, Sink, write_all};
pub use source::{MemSource, Source};
