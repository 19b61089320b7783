//! A folder of its own, where the calls on files are told.

use std::alloc::{Allocator, Global};
use std::cell::Cell;
use std::fs::{self, File, Metadata, OpenOptions};
use std::io::{self, ErrorKind};
use std::os::unix::fs::symlink;
use std::path::PathBuf;
use std::process;
use std::rt::Files;

/// A folder below `/tmp`, with a folder `other` in it. Each call on its files is written as it
/// comes, and the one with a given number fails.
#[derive(Drop)]
pub struct WatchedFolder<'r> {
    rt: &'r HostRuntime,
    id: u32,
    failing: Cell<u16>,
    // The number of the file that another program has locked, 0 for none.
    held: Cell<u8>,
}

impl<'r> WatchedFolder<'r> {
    pub fn new(rt: &'r HostRuntime) -> io::Result<WatchedFolder<'r>> {
        let watched = WatchedFolder {
            rt,
            id: process::id(rt.process()),
            failing: Cell::new(0),
            held: Cell::new(0),
        };
        watched.make()?;
        Ok(watched)
    }

    /// Takes the folder away.
    pub fn end(&self) -> io::Result<()> {
        let path = self.path("")?;
        fs::remove_dir_all(self.rt, path.as_str())
    }

    fn make(&self) -> io::Result<()> {
        let path = self.path("")?;
        fs::create_dir(self.rt, path.as_str())?;
        let other = self.path("other")?;
        fs::create_dir(self.rt, other.as_str())
    }

    /// Where the adapters' memory comes from.
    pub fn alloc(&self) -> Global {
        self.rt.alloc()
    }

    fn path(&self, name: &str) -> io::Result<String> {
        Ok(format!(in self.rt.alloc(); "/tmp/mm_watch_{}/{name}", self.id)?)
    }

    /// Writes that a part begins.
    pub fn tell_part(&self, kind: &str) -> io::Result<()> {
        print!(self.rt; "== {kind}\n")
    }

    /// Writes what is asked.
    pub fn tell_asked(&self, line: &str) -> io::Result<()> {
        print!(self.rt; "{line}:")
    }

    /// Writes what came.
    pub fn tell_answer(&self, answer: Option<u64>) -> io::Result<()> {
        match answer {
            Some(number) => print!(self.rt; " => {number}\n"),
            None => print!(self.rt; " => failed\n"),
        }
    }

    /// Writes a number of a call.
    pub fn tell_count(&self, count: u64) -> io::Result<()> {
        print!(self.rt; " {count}")
    }

    /// Writes a call on a file. An error where it is to fail.
    pub fn meet(&self, what: &str, name: &str) -> io::Result<()> {
        print!(self.rt; " {what} {name}")?;
        let failing = self.failing.get();
        self.failing.set(failing.saturating_sub(1));
        if failing == 1 {
            return Err(io::Error::from(ErrorKind::Other));
        }
        Ok(())
    }

    /// Lets the call with this number fail, counted from 1 from now on. It answers 0.
    pub fn fail_at(&self, call: u16) -> u64 {
        self.failing.set(call);
        0
    }

    /// Lets a file have so many bytes 5, at most 256.
    pub fn put(&self, name: &str, count: u16) -> io::Result<()> {
        let bytes = [5; 256];
        let (front, _) = bytes.split_at(usize::from(count).min(256));
        let path = self.path(name)?;
        fs::write(self.rt, path.as_str(), front)
    }

    /// Takes a file away.
    pub fn remove(&self, name: &str) -> io::Result<()> {
        let path = self.path(name)?;
        fs::remove_file(self.rt, path.as_str())
    }

    /// Puts another file of so many bytes 5, at most 256, in a file's place.
    pub fn swap(&self, name: &str, count: u16) -> io::Result<()> {
        self.remove(name)?;
        self.put(name, count)
    }

    /// Puts a device in a file's place.
    pub fn put_device(&self, name: &str) -> io::Result<()> {
        self.remove(name)?;
        let path = self.path(name)?;
        symlink(self.rt, "/dev/null", path.as_str())
    }

    /// From now on a file is locked, as by another program, until another is, or `leave` is called.
    pub fn hold(&self, name: &str) -> u64 {
        self.held.set(number_of(name));
        0
    }

    /// The file that was locked last is let go. It answers 0.
    pub fn leave(&self) -> u64 {
        self.held.set(0);
        0
    }

    /// An error where another program has locked this file.
    pub fn refuse_held(&self, name: &str) -> io::Result<()> {
        let number = number_of(name);
        if number > 0 && number == self.held.get() {
            return Err(io::Error::from(ErrorKind::WouldBlock));
        }
        Ok(())
    }

    /// Puts a link to a file in another's place, whether it is there or not.
    pub fn put_link(&self, name: &str, target: &str) -> io::Result<()> {
        let path = self.path(name)?;
        let _ = fs::remove_file(self.rt, path.as_str());
        symlink(self.rt, target, path.as_str())
    }

    /// Gives a file a second name, in another's place.
    pub fn put_second(&self, name: &str, file: &str) -> io::Result<()> {
        let path = self.path(name)?;
        let file = self.path(file)?;
        let _ = fs::remove_file(self.rt, path.as_str());
        fs::hard_link(self.rt, file.as_str(), path.as_str())
    }

    /// What a link says.
    pub fn read_link<B: Allocator>(&self, alloc: B, name: &str) -> io::Result<PathBuf<B>> {
        let path = self.path(name)?;
        self.rt.read_link(alloc, path.as_str())
    }

    /// Opens a file of the folder.
    pub fn open(&self, how: &OpenOptions, name: &str) -> io::Result<File> {
        let path = self.path(name)?;
        how.open(self.rt, path.as_str())
    }

    /// Gives a file another name.
    pub fn rename(&self, from: &str, to: &str) -> io::Result<()> {
        let from = self.path(from)?;
        let to = self.path(to)?;
        fs::rename(self.rt, from.as_str(), to.as_str())
    }

    /// What is seen of a file.
    pub fn metadata(&self, name: &str) -> io::Result<Metadata> {
        let path = self.path(name)?;
        fs::metadata(self.rt, path.as_str())
    }

    /// What is seen of a file, or of a link itself.
    pub fn symlink_metadata(&self, name: &str) -> io::Result<Metadata> {
        let path = self.path(name)?;
        fs::symlink_metadata(self.rt, path.as_str())
    }
}

// The number of a file that may be locked, 0 for another.
fn number_of(name: &str) -> u8 {
    match name {
        "nv" => 1,
        "slot0" => 2,
        "slot1" => 3,
        "slot2" => 4,
        "slot3" => 5,
        _ => 0,
    }
}
