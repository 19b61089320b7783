//! Why a call on one of the program's files failed.

use crate::name::FileName;
use crate::reason::Reason;
use std::io::{self, ErrorKind};

/// Why a call on one of the program's files failed: a reason, by the file and not by what it is
/// called.
#[derive(Clone, Copy)]
pub enum Cause {
    System {
        name: FileName,
        error: io::Error,
    },
    Folder {
        name: FileName,
        error: io::Error,
    },
    InUse {
        name: FileName,
    },
    Leased {
        name: FileName,
    },
    Standard {
        name: FileName,
    },
    Moved {
        name: FileName,
    },
    NoFile {
        name: FileName,
    },
    Named {
        name: FileName,
    },
    Same {
        name: FileName,
        other: FileName,
    },
    Length {
        name: FileName,
        size: u64,
        wanted: u64,
    },
    Long {
        name: FileName,
        size: u64,
        most: u64,
    },
}

impl Cause {
    // The reason.
    fn reason(self) -> Reason {
        match self {
            Cause::System { name, error } => Reason::System {
                name: name.text(),
                error,
            },
            Cause::Folder { name, error } => Reason::Folder {
                name: name.text(),
                error,
            },
            Cause::InUse { name } => Reason::InUse { name: name.text() },
            Cause::Leased { name } => Reason::Leased { name: name.text() },
            Cause::Standard { name } => Reason::Standard { name: name.text() },
            Cause::Moved { name } => Reason::Moved { name: name.text() },
            Cause::NoFile { name } => Reason::NoFile { name: name.text() },
            Cause::Named { name } => Reason::Named { name: name.text() },
            Cause::Same { name, other } => Reason::Same {
                name: name.text(),
                other: other.text(),
            },
            Cause::Length { name, size, wanted } => Reason::Length {
                name: name.text(),
                size,
                wanted,
            },
            Cause::Long { name, size, most } => Reason::Long {
                name: name.text(),
                size,
                most,
            },
        }
    }
}

/// An outcome whose error is what the system says of this file.
pub fn named<T>(name: FileName, outcome: io::Result<T>) -> Result<T, Cause> {
    match outcome {
        Ok(value) => Ok(value),
        Err(error) => Err(Cause::System { name, error }),
    }
}

/// What came of the try to lock this file. An error where another program has.
pub fn locked(name: FileName, outcome: io::Result<()>) -> Result<(), Cause> {
    match outcome {
        Err(error) if error.kind() == ErrorKind::WouldBlock => Err(Cause::InUse { name }),
        outcome => named(name, outcome),
    }
}

/// An outcome whose error is told in words.
pub fn in_words<T>(outcome: Result<T, Cause>) -> Result<T, Reason> {
    match outcome {
        Ok(value) => Ok(value),
        Err(cause) => Err(cause.reason()),
    }
}
