//! The file system that the adapters see: the system's below a folder, watched.

use crate::watched::WatchedFolder;
use mm_files::Lock;
use std::alloc::Allocator;
use std::fs::{File, Metadata, OpenFile, OpenOptions, Permissions};
use std::io::{self, ErrorKind, Read, Seek, SeekFrom, Write};
use std::os::unix::fs::FileExt;
use std::path::PathBuf;
use std::rt::Files;

/// The file system that the adapters see.
#[derive(Clone, Copy)]
pub struct Mount<'a>(pub &'a WatchedFolder<'a>);

impl<'a> Files for Mount<'a> {
    type File = WatchedFile<'a>;

    type Dir = io::Empty;

    // Nothing is told of leases.
    fn open_file(&self, how: &OpenOptions, path: &str) -> io::Result<WatchedFile<'a>> {
        if path == "/proc/locks" {
            return Err(io::Error::from(ErrorKind::NotFound));
        }
        self.0.meet("open", path)?;
        let file = self.0.open(how, path)?;
        Ok(WatchedFile {
            file,
            name: name_of(path),
            watched: self.0,
        })
    }

    fn open_dir(&self, _path: &str) -> io::Result<io::Empty> {
        Err(io::Error::from(ErrorKind::Unsupported))
    }

    fn metadata(&self, path: &str) -> io::Result<Metadata> {
        self.0.meet("look", path)?;
        self.0.metadata(path)
    }

    fn symlink_metadata(&self, path: &str) -> io::Result<Metadata> {
        self.0.meet("look", path)?;
        self.0.symlink_metadata(path)
    }

    fn read_link<B: Allocator>(&self, alloc: B, path: &str) -> io::Result<PathBuf<B>> {
        self.0.meet("link", path)?;
        self.0.read_link(alloc, path)
    }

    fn copy(&self, _from: &str, _to: &str) -> io::Result<u64> {
        Err(io::Error::from(ErrorKind::Unsupported))
    }

    fn rename(&self, from: &str, to: &str) -> io::Result<()> {
        self.0.meet("rename", from)?;
        self.0.rename(from, to)
    }

    fn remove_file(&self, path: &str) -> io::Result<()> {
        self.0.meet("remove", path)?;
        self.0.remove(path)
    }

    fn create_dir(&self, _path: &str) -> io::Result<()> {
        Err(io::Error::from(ErrorKind::Unsupported))
    }

    fn remove_dir(&self, _path: &str) -> io::Result<()> {
        Err(io::Error::from(ErrorKind::Unsupported))
    }

    fn remove_dir_all<B: Allocator>(&self, _alloc: B, _path: &str) -> io::Result<()> {
        Err(io::Error::from(ErrorKind::Unsupported))
    }
}

// The name of a file that the adapters open.
fn name_of(path: &str) -> &'static str {
    match path {
        "." => ".",
        "nv" => "nv",
        "register" => "register",
        "register.new" => "register.new",
        "slot0" => "slot0",
        "slot1" => "slot1",
        "slot2" => "slot2",
        "slot3" => "slot3",
        "other" => "other",
        "other/slot0" => "other/slot0",
        "other/slot1" => "other/slot1",
        "other/slot2" => "other/slot2",
        "other/slot3" => "other/slot3",
        _ => "another",
    }
}

/// An open file of it.
#[derive(Drop)]
pub struct WatchedFile<'a> {
    file: File,
    name: &'static str,
    watched: &'a WatchedFolder<'a>,
}

impl Read for WatchedFile<'_> {
    fn read(&mut self, buf: &mut [u8]) -> io::Result<usize> {
        self.watched.meet("read", self.name)?;
        self.file.read(buf)
    }
}

// The adapters write at a place alone, and move in no file.
impl Write for WatchedFile<'_> {
    fn write(&mut self, _buf: &[u8]) -> io::Result<usize> {
        Err(io::Error::from(ErrorKind::Unsupported))
    }

    fn flush(&mut self) -> io::Result<()> {
        Err(io::Error::from(ErrorKind::Unsupported))
    }
}

impl Seek for WatchedFile<'_> {
    fn seek(&mut self, _to: SeekFrom) -> io::Result<u64> {
        Err(io::Error::from(ErrorKind::Unsupported))
    }
}

impl FileExt for WatchedFile<'_> {
    fn read_at(&self, buf: &mut [u8], offset: u64) -> io::Result<usize> {
        self.watched.meet("read", self.name)?;
        self.file.read_at(buf, offset)
    }

    fn write_at(&self, buf: &[u8], offset: u64) -> io::Result<usize> {
        self.watched.meet("write", self.name)?;
        self.watched.tell_count(offset)?;
        self.watched.tell_count(buf.len() as u64)?;
        self.file.write_at(buf, offset)
    }
}

impl OpenFile for WatchedFile<'_> {
    fn metadata(&self) -> io::Result<Metadata> {
        self.watched.meet("size", self.name)?;
        self.file.metadata()
    }

    fn set_len(&self, size: u64) -> io::Result<()> {
        self.watched.meet("cut", self.name)?;
        self.watched.tell_count(size)?;
        self.file.set_len(size)
    }

    fn sync_all(&self) -> io::Result<()> {
        self.watched.meet("sync", self.name)?;
        self.file.sync_all()
    }

    fn sync_data(&self) -> io::Result<()> {
        self.watched.meet("sync", self.name)?;
        self.file.sync_data()
    }

    fn set_permissions(&self, perm: Permissions) -> io::Result<()> {
        self.watched.meet("mode", self.name)?;
        self.file.set_permissions(perm)
    }
}

impl Lock for WatchedFile<'_> {
    fn lock_alone(&self) -> io::Result<()> {
        self.watched.meet("lock", self.name)?;
        self.watched.refuse_held(self.name)?;
        self.file.lock_alone()
    }

    fn is_standard(&self) -> bool {
        self.file.is_standard()
    }
}
