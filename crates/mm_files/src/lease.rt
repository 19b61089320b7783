//! Leases. To open a file on which another program holds one waits until that gives it up, or for
//! the time that the system lets it. `std` has no way to open without waiting, so what the system
//! tells of leases is asked before: who takes one just then still lets the program wait.

use crate::sight::Identity;
use std::io::Read;
use std::rt::Files;
use std::{fs, str};

/// Where the system tells of leases: a line for each, with the word `LEASE` and behind it the file.
const LOCKS: &str = "/proc/locks";

/// The most bytes of a word that are looked at.
const WORD: usize = 64;

/// The search for a lease on a file, in lines that come in pieces.
#[derive(Drop)]
struct LeaseSearch {
    file: Identity,
    word: [u8; WORD],
    length: usize,
    // Whether the line is of a lease.
    is_lease: bool,
    is_found: bool,
}

/// Whether another program holds a lease on this file, as far as the system tells.
pub fn is_leased<R: Files>(files: &R, file: Identity) -> bool {
    match fs::open(files, LOCKS) {
        Ok(mut locks) => tell_of(&mut locks, file),
        Err(_) => false,
    }
}

// Whether these lines tell of a lease on this file.
fn tell_of<F: Read>(lines: &mut F, file: Identity) -> bool {
    let mut search = LeaseSearch::new(file);
    let mut piece = [0; 4096];
    for _ in 0..u64::MAX {
        match lines.read(&mut piece) {
            Ok(count) if count > 0 => search.take(&piece[..count]),
            _ => break,
        }
    }
    search.is_found
}

impl LeaseSearch {
    fn new(file: Identity) -> LeaseSearch {
        LeaseSearch {
            file,
            word: [0; WORD],
            length: 0,
            is_lease: false,
            is_found: false,
        }
    }

    fn take(&mut self, bytes: &[u8]) {
        for byte in bytes {
            match byte {
                b' ' => self.end_word(),
                b'\n' => {
                    self.end_word();
                    self.is_lease = false;
                }
                byte => self.take_byte(*byte),
            }
        }
    }

    fn take_byte(&mut self, byte: u8) {
        if let Some(place) = self.word.get_mut(self.length) {
            *place = byte;
            self.length = self.length.saturating_add(1);
        }
    }

    fn end_word(&mut self) {
        let word = &self.word[..self.length.min(WORD)];
        if word == b"LEASE".as_slice() {
            self.is_lease = true;
        } else if self.is_lease && file_of(word) == Some(self.file) {
            self.is_found = true;
        }
        self.length = 0;
    }
}

// The file of a word: the hexadecimal parts of its device's number, and its own number.
fn file_of(word: &[u8]) -> Option<Identity> {
    let (major, rest) = str::from_utf8(word).ok()?.split_once(':')?;
    let (minor, number) = rest.split_once(':')?;
    Some(Identity::of_parts(
        u64::from_str_radix(major, 16).ok()?,
        u64::from_str_radix(minor, 16).ok()?,
        u64::from_str_radix(number, 10).ok()?,
    ))
}
