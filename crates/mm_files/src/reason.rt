//! Why a call on a file failed.

ghost use Rattle.std.specs.Prelude.{◌≡◌, Ok, Err, MatchResult};
ghost use Rattle.mm_files.specs.declared.reason.Reason.TheVariants.{System};

use std::io;
use thiserror::Error;

/// Why a call on a file failed, in words for people.
#[derive(Clone, Copy, Debug, Error)]
pub enum Reason {
    /// What the system says of the file.
    #[error("{name}: {error}")]
    System {
        name: &'static str,
        error: io::Error,
    },
    /// What it says of the folder in which the file itself stands.
    #[error("the folder of {name}: {error}")]
    Folder {
        name: &'static str,
        error: io::Error,
    },
    /// Another program has locked it, or, of `nv`, the current directory.
    #[error("{name} is in use by another memoir")]
    InUse {
        name: &'static str,
    },
    /// Another program holds a lease on it, which lets who opens it wait.
    #[error("another program holds a lease on {name}")]
    Leased {
        name: &'static str,
    },
    /// It got the number of a standard stream.
    #[error("a standard stream is closed, and {name} would take its place")]
    Standard {
        name: &'static str,
    },
    /// Its name was given to another file while it was open.
    #[error("{name} was replaced while it was open")]
    Moved {
        name: &'static str,
    },
    /// A FIFO or a device is in its place, or, of `register`, a link.
    #[error("{name} is no regular file")]
    NoFile {
        name: &'static str,
    },
    /// It has another name, which keeps an old copy where this one is given to a new file.
    #[error("{name} has another name, which would keep an old copy of it")]
    Named {
        name: &'static str,
    },
    /// Two names lead to one file.
    #[error("{name} is the same file as {other}")]
    Same {
        name: &'static str,
        other: &'static str,
    },
    /// It has another length than the one that it may have.
    #[error("{name} has {size} bytes, not {wanted}")]
    Length {
        name: &'static str,
        size: u64,
        wanted: u64,
    },
    /// It is longer than it may be.
    #[error("{name} has {size} bytes, more than {most}")]
    Long {
        name: &'static str,
        size: u64,
        most: u64,
    },
}

/// An outcome whose error is what the system says of the file of this name.
pub fn named<T>(name: &'static str, outcome: io::Result<T>) -> Result<T, Reason>
    ensures { MatchResult outcome (λ value. result ≡ Ok value)
        (λ error. result ≡ Err (System name.entry error)) }
{
    match outcome {
        Ok(value) => Ok(value),
        Err(error) => Err(Reason::System { name, error }),
    }
}
