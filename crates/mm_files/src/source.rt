//! A source over a file.

ghost use Rattle.std.specs.Prelude.{◌≡◌, ◌≤◌, None, IfOk, length};

use crate::counting::counted;
use crate::lease::is_leased;
use crate::reason::{Reason, named};
use crate::sight::sight_at;
use mm_base::Source;
use mm_bytes::Failed;
use std::fs;
use std::io::Read;
use std::rt::Files;

/// The bytes of a file of the current directory. They aren't told.
#[derive(Drop)]
pub struct FileSource<'a, R: Files> {
    files: &'a R,
    name: &'static str,
    file: Option<R::File>,
    faults: u64,
    last: Option<Reason>,
}

impl<'a, R: Files> FileSource<'a, R> {
    /// A source over the file of this name, which is opened at the first call. Where there is none,
    /// or something else in its place, that call fails.
    pub fn new(files: &'a R, name: &'static str) -> FileSource<'a, R>
        ensures faults { result.faults ≡ 0 }
        ensures reason { result.last ≡ None }
    {
        FileSource {
            files,
            name,
            file: None,
            faults: 0,
            last: None,
        }
    }

    /// Why the last call that failed did. None where none has.
    pub fn last_reason(&self) -> Option<Reason>
        ensures { result ≡ self.now.last }
    {
        self.last
    }

    // Opens the file, which may be one that can't be written. What is no file isn't opened, nor one
    // on which another program holds a lease, since that might wait.
    fn open(&self) -> Result<R::File, Reason> {
        let name = self.name;
        let there = named(name, sight_at(self.files, name))?;
        if !there.is_file {
            return Err(Reason::NoFile { name });
        }
        if is_leased(self.files, there.identity) {
            return Err(Reason::Leased { name });
        }
        named(name, fs::open(self.files, name))
    }

    // Reads the next bytes.
    fn read(&mut self, buf: &mut [u8]) -> Result<usize, Reason>
        ensures within { IfOk result (λ count. count ≤ length buf.new) }
        ensures faults { self.new.faults ≡ self.old.faults }
    {
        match &mut self.file {
            Some(file) => named(self.name, file.read(buf)),
            None => self.read_first(buf),
        }
    }

    // Opens the file, and reads its first bytes. It stays open where both could be done.
    fn read_first(&mut self, buf: &mut [u8]) -> Result<usize, Reason>
        ensures within { IfOk result (λ count. count ≤ length buf.new) }
        ensures faults { self.new.faults ≡ self.old.faults }
    {
        let mut file = self.open()?;
        match file.read(buf) {
            Ok(count) => {
                self.file = Some(file);
                Ok(count)
            }
            Err(error) => Err(Reason::System {
                name: self.name,
                error,
            }),
        }
    }
}

impl<R: Files> Source for FileSource<'_, R> {
    ghost left = { λ _. None };

    ghost faults = { λ source. source.faults };

    fn take(&mut self, buf: &mut [u8]) -> Result<usize, Failed> {
        let outcome = self.read(buf);
        counted(&mut self.faults, &mut self.last, outcome)
    }
}
