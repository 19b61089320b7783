//! What came of the cases.

use mm_bytes::{Bytes, Memory, put_decimal};
use std::alloc::Global;

/// What the last command wrote, how many cases came out as they stand, and what is to be written.
#[derive(Drop)]
pub struct TableNotes {
    pub alloc: Global,
    pub last: Bytes,
    pub right: u64,
    written: Bytes,
}

impl TableNotes {
    /// No case was played.
    pub fn new(alloc: Global) -> TableNotes {
        TableNotes {
            alloc,
            last: Bytes::new(alloc),
            right: 0,
            written: Bytes::new(alloc),
        }
    }

    /// What is to be written.
    pub fn text(&self) -> &[u8] {
        self.written.as_slice()
    }

    /// Notes what the last command wrote.
    pub fn write(&mut self, bytes: &[u8]) -> Result<(), Memory> {
        self.last = Bytes::copy_of(self.alloc, bytes)?;
        Ok(())
    }

    /// Notes whether a command came out as it stands.
    pub fn tell(&mut self, is_so: bool, command: &str, code: u64) -> Result<bool, Memory> {
        if !is_so {
            self.written.append(b"not so: ")?;
            self.written.append(command.as_bytes())?;
            self.written.append(b"\nbut ")?;
            put_decimal(&mut self.written, code)?;
            self.written.push(b' ')?;
            self.written.append(self.last.as_slice())?;
            self.written.push(b'\n')?;
        }
        Ok(is_so)
    }

    /// Notes whether a case came out as it stands.
    pub fn count(&mut self, is_so: bool, row: &str) -> Result<(), Memory> {
        if is_so {
            self.right = self.right.saturating_add(1);
            return Ok(());
        }
        self.written.append(b"where ")?;
        self.written.append(row.as_bytes())?;
        self.written.push(b'\n')
    }

    /// Notes a heading.
    pub fn head(&mut self, title: &str) -> Result<(), Memory> {
        self.written.push(b'\n')?;
        self.written
            .append(title.lines().next().unwrap_or("").as_bytes())?;
        self.written.push(b'\n')
    }

    /// Ends a table with this title.
    pub fn end(&mut self, title: &str) -> Result<(), Memory> {
        self.written.append(title.as_bytes())?;
        self.written.append(b": ")?;
        put_decimal(&mut self.written, self.right)?;
        self.right = 0;
        self.written.push(b'\n')
    }
}
