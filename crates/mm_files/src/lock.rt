//! What is asked of an open file besides its bytes: a lock that keeps two programs from one file or
//! folder, and whether it stands where a standard stream was.

use std::fs::File;
use std::io;
use std::os::fd::AsRawFd;

/// An open file that can be locked.
pub trait Lock {
    /// Locks it until it is closed. An error where another program holds the lock: none waits for
    /// it.
    fn lock_alone(&self) -> io::Result<()>;

    /// Whether it has the number of a standard stream, which was closed then.
    fn is_standard(&self) -> bool;
}

impl Lock for File {
    fn lock_alone(&self) -> io::Result<()> {
        self.try_lock()?;
        Ok(())
    }

    fn is_standard(&self) -> bool {
        self.as_raw_fd() <= 2
    }
}
