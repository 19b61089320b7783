//! Where the file of a slot itself stands, behind links, and whether it is one of its own.

use crate::cause::{Cause, named};
use crate::name::{FILES, FileName};
use crate::sight::{Identity, sight_at};
use mm_bytes::Memory;
use std::alloc::Global;
use std::fs::{self, OpenFile};
use std::io::{self, ErrorKind};
use std::path::PathBuf;
use std::rt::Files;

/// How many links are followed.
const MOST_LINKS: u32 = 40;

/// Where the file of a slot stands: the path to which the links of its name led when the program
/// began, whether a file was there or not.
#[derive(Drop)]
pub struct FilePlace {
    name: FileName,
    path: PathBuf,
    // Why the links couldn't be followed.
    failed: Option<io::Error>,
}

impl FilePlace {
    /// That of this name, whose links weren't followed yet.
    pub fn new(alloc: Global, name: FileName) -> FilePlace {
        FilePlace {
            name,
            path: PathBuf::new(alloc),
            failed: None,
        }
    }

    /// Follows the links. After want of memory they weren't.
    pub fn follow<R: Files>(&mut self, alloc: Global, files: &R) -> Result<(), Memory> {
        match follow_links(alloc, files, self.name.text(), &mut self.path) {
            Ok(()) => Ok(()),
            Err(error) if error.kind() == ErrorKind::OutOfMemory => Err(Memory),
            Err(error) => {
                self.failed = Some(error);
                Ok(())
            }
        }
    }

    // An error where it isn't known.
    fn known(&self) -> Result<(), Cause> {
        let name = self.name;
        match self.failed {
            Some(error) => Err(Cause::System { name, error }),
            None => Ok(()),
        }
    }

    /// The path.
    pub fn path(&self) -> &str {
        self.path.as_str()
    }

    // The folder of the path.
    fn folder(&self) -> &str {
        match self.path.parent() {
            Some(folder) if !folder.as_os_str().is_empty() => folder.as_os_str(),
            _ => ".",
        }
    }

    /// Lets the name of the file be on the disk, in the folder where the file itself stands. Where
    /// a link leads there the link's name is, too.
    pub fn sync_name<R: Files>(&self, files: &R) -> Result<(), Cause> {
        self.known()?;
        let name = self.name;
        match sync_folder(files, self.folder()) {
            Err(error) => Err(Cause::Folder { name, error }),
            Ok(()) if self.path.as_str() != name.text() => named(
                FileName::Here,
                sync_folder(files, "."),
            ),
            Ok(()) => Ok(()),
        }
    }

    /// An error where the place is that of another of the program's files.
    pub fn refuse_other<R: Files>(&self, files: &R) -> Result<(), Cause> {
        self.known()?;
        let name = self.name;
        match self.other_name() {
            Some(other) if named(name, is_current(files, self.folder()))? => {
                Err(Cause::Same { name, other })
            }
            _ => Ok(()),
        }
    }

    // Which of the other files has the name that the path ends in.
    fn other_name(&self) -> Option<FileName> {
        let last = self.path.file_name()?;
        for other in FILES {
            if other != self.name && other.text() == last {
                return Some(other);
            }
        }
        None
    }
}

// Why a link couldn't be read: no error where nothing is at its path, or no link.
fn unless_no_link(error: io::Error) -> io::Result<()> {
    match error.kind() {
        ErrorKind::NotFound | ErrorKind::InvalidInput => Ok(()),
        _ => Err(error),
    }
}

// Lets an empty path become the one to which the links of a name lead. It is the name where it is
// no link.
fn follow_links<R: Files>(
    alloc: Global,
    files: &R,
    name: &str,
    path: &mut PathBuf,
) -> io::Result<()> {
    path.push(name)?;
    for _ in 0..MOST_LINKS {
        match files.read_link(alloc, path.as_str()) {
            Ok(target) => {
                let _ = path.pop();
                path.push(target)?;
            }
            Err(error) => return unless_no_link(error),
        }
    }
    Err(io::Error::from(ErrorKind::FilesystemLoop))
}

// Lets the names of a folder's files be on the disk.
fn sync_folder<R: Files>(files: &R, path: &str) -> io::Result<()> {
    fs::open(files, path)?.sync_all()
}

// Whether a folder is the current directory.
fn is_current<R: Files>(files: &R, path: &str) -> io::Result<bool> {
    let folder = sight_at(files, path)?;
    let current = sight_at(files, ".")?;
    Ok(folder.identity == current.identity)
}

/// An error where a slot's file is another of the program's files, by its name.
pub fn refuse_same<R: Files>(files: &R, name: FileName, identity: Identity) -> Result<(), Cause> {
    for other in FILES {
        if other != name && is_at(files, other, identity)? {
            return Err(Cause::Same { name, other });
        }
    }
    Ok(())
}

// Whether a name leads to this file.
fn is_at<R: Files>(files: &R, name: FileName, identity: Identity) -> Result<bool, Cause> {
    match sight_at(files, name.text()) {
        Ok(there) => Ok(there.identity == identity),
        Err(error) if error.kind() == ErrorKind::NotFound => Ok(false),
        Err(error) => Err(Cause::System { name, error }),
    }
}
