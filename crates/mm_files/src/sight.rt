//! What is seen of a file or a folder.

use std::fs::{self, Metadata};
use std::io;
use std::os::unix::fs::MetadataExt;
use std::rt::Files;

/// Which file or folder of the system one is.
#[derive(Clone, Copy, PartialEq, Eq)]
pub struct Identity {
    // The device that it is on, and its number there.
    device: u64,
    number: u64,
}

impl Identity {
    /// That of a number on a device of these parts, as Linux puts them into one number.
    pub fn of_parts(major: u64, minor: u64, number: u64) -> Identity {
        let upper = ((major & 0xffff_f000) << 32) | ((minor & 0xffff_ff00) << 12);
        let lower = ((major & 0xfff) << 8) | (minor & 0xff);
        Identity {
            device: upper | lower,
            number,
        }
    }
}

/// What is seen of a file or a folder.
#[derive(Clone, Copy)]
pub struct Sight {
    pub identity: Identity,
    pub size: u64,
    /// How many names it has.
    pub names: u64,
    pub is_file: bool,
    /// Whether its owner may read and write it, by its mode.
    pub is_open_to_owner: bool,
}

impl Sight {
    /// What this tells.
    pub fn of(there: &Metadata) -> Sight {
        Sight {
            identity: Identity {
                device: there.dev(),
                number: there.ino(),
            },
            size: there.len(),
            names: there.nlink(),
            is_file: there.is_file(),
            is_open_to_owner: there.mode() & 0o600 == 0o600,
        }
    }
}

/// What is seen at a path, behind the links there.
pub fn sight_at<R: Files>(files: &R, path: &str) -> io::Result<Sight> {
    Ok(Sight::of(&fs::metadata(files, path)?))
}

/// What is seen at a path, of a link itself.
pub fn sight_of_link<R: Files>(files: &R, path: &str) -> io::Result<Sight> {
    Ok(Sight::of(&fs::symlink_metadata(files, path)?))
}
