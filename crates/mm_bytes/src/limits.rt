//! Limits that several crates name.

/// The most bytes of a line, its LF apart.
pub const LONGEST_LINE: usize = 8400;

/// The most bytes that a request has, or what a module says.
pub const LONGEST_REQUEST: usize = 4096;

/// The most requests of a batch.
pub const MOST_MEMBERS: usize = 64;

/// The greatest position, 2^48: the most requests that are counted.
pub const LAST_POSITION: u64 = 281474976710656;

/// The bytes of a cell.
pub const CELL_LENGTH: usize = 104;

/// The most events of a schedule.
pub const MOST_EVENTS: u32 = 20_000;
