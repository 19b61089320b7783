//! The numbers of the standard streams. A file that is opened takes the lowest number that is free:
//! so what is written to a stream that was closed could go into a file of the instance.

use mm_files::Lock;
use std::fs::{self, File};

/// What stands in the place of standard streams that were closed: the current directory, which can
/// neither be read nor written as a file.
#[derive(Drop)]
pub struct TakenNumbers {
    _first: Option<File>,
    _second: Option<File>,
    _third: Option<File>,
}

/// Takes the numbers of closed streams, until what this answers is dropped. Where the directory
/// can't be opened none is taken; then mm_files refuses each file that would get one.
pub fn taken_numbers(rt: &HostRuntime) -> TakenNumbers {
    let first = taken_number(rt);
    let second = if first.is_some() {
        taken_number(rt)
    } else {
        None
    };
    let third = if second.is_some() {
        taken_number(rt)
    } else {
        None
    };
    TakenNumbers {
        _first: first,
        _second: second,
        _third: third,
    }
}

// The directory where it got the number of a stream.
fn taken_number(rt: &HostRuntime) -> Option<File> {
    match fs::open(rt, ".") {
        Ok(folder) if folder.is_standard() => Some(folder),
        _ => None,
    }
}
