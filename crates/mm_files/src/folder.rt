//! The files `nv` and `register`.

use crate::cause::{Cause, locked, named};
use crate::kept::KeptFile;
use crate::lock::Lock;
use crate::name::FileName;
use mm_digest::{Digest, extended, zero};
use std::fs::{self, OpenFile};
use std::io::{self, ErrorKind};
use std::os::unix::fs::FileExt;
use std::rt::Files;

/// The bytes of `nv`: two cells and a selector.
pub const WHOLE: usize = 209;

/// The bytes of a cell.
const CELL: usize = 104;

/// Where the selector is.
const SELECTOR: u16 = 208;

/// The bytes of the register.
const VALUE: u64 = 32;

/// The current directory, which is locked from the first call on, as `nv` is wherever it stands.
/// What a session goes on from, that is the cell and the register, was written and synced by this
/// program, whoever wrote it first: a program that was stopped, or whose sync failed, may have left
/// bytes that the system shows and the disk hasn't.
#[derive(Drop)]
pub struct Folder<F> {
    lock: Option<F>,
    nv: KeptFile<F>,
    register: KeptFile<F>,
    // The file that is to be the register's.
    new_register: KeptFile<F>,
    // Whether `nv` is made where it is absent.
    makes_nv: bool,
    /// What was read of `nv`.
    pub bytes: [u8; WHOLE],
    // Whether it was read with the selector, for the next read.
    is_seen: bool,
}

impl<F: Lock + OpenFile + FileExt + Drop> Folder<F> {
    /// The current directory, in which nothing is opened yet.
    pub fn new(makes_nv: bool) -> Folder<F> {
        Folder {
            lock: None,
            nv: KeptFile::new(FileName::Nv),
            register: KeptFile::new(FileName::Register),
            new_register: KeptFile::new(FileName::NewRegister),
            makes_nv,
            bytes: [0; WHOLE],
            is_seen: false,
        }
    }

    // Locks the folder, where that isn't done, and lets what an earlier program left of both files,
    // and their names, be on the disk.
    fn enter<R: Files<File = F>>(&mut self, files: &R) -> Result<(), Cause> {
        if self.lock.is_some() {
            return Ok(());
        }
        let folder = named(FileName::Here, fs::open(files, "."))?;
        match self.enter_by(files, &folder) {
            Ok(()) => {
                self.lock = Some(folder);
                self.nv.set_listed();
                self.register.set_listed();
                Ok(())
            }
            Err(cause) => {
                self.register.close();
                self.nv.close();
                Err(cause)
            }
        }
    }

    // Does so by this folder, which was just opened.
    fn enter_by<R: Files<File = F>>(&mut self, files: &R, folder: &F) -> Result<(), Cause> {
        locked(FileName::Nv, folder.lock_alone())?;
        self.open_nv(files)?;
        open_register(&mut self.register, files)?;
        named(FileName::Here, folder.sync_all())
    }

    // Opens `nv` where it isn't open, locked, and lets the cell in it be on the disk. It stays
    // closed where it is absent.
    fn open_nv<R: Files<File = F>>(&mut self, files: &R) -> Result<(), Cause> {
        if self.nv.opened.is_some() {
            return Ok(());
        }
        self.nv.open(files);
        self.nv.lock();
        if self.nv.size() <= WHOLE as u64 {
            self.read_whole();
            renew_cell(&mut self.nv, &self.bytes);
        }
        self.nv.sync();
        self.nv.outcome()
    }

    // Opens `nv`, which is looked at where it is open: its name has to lead there still.
    fn find_nv<R: Files<File = F>>(&mut self, files: &R) -> Result<(), Cause> {
        self.enter(files)?;
        self.nv.look_again(files);
        self.nv.outcome()?;
        self.open_nv(files)
    }

    // Reads what `nv` has. Bytes past its end are zero.
    fn read_whole(&mut self) {
        let size = self.nv.size_within(WHOLE as u64);
        self.bytes = [0; WHOLE];
        let whole = &mut self.bytes[..];
        self.nv.read(0, &mut whole[..size as usize]);
    }

    /// Sees to it that `bytes` are those of `nv`. Those past its end are zero, and all where it is
    /// absent. They are read with the selector, and the next read has these.
    pub fn read_nv<R: Files<File = F>>(&mut self, files: &R, at: u16) -> Result<(), Cause> {
        if self.is_seen && at != SELECTOR {
            self.is_seen = false;
            return Ok(());
        }
        self.is_seen = false;
        self.find_nv(files)?;
        settle(&mut self.nv, &self.lock);
        self.read_whole();
        self.nv.outcome()?;
        self.is_seen = at == SELECTOR;
        Ok(())
    }

    /// Writes these bytes of `nv` from `at` on, in place.
    pub fn put_nv<R: Files<File = F>>(
        &mut self,
        files: &R,
        at: u16,
        bytes: &[u8],
    ) -> Result<(), Cause> {
        self.is_seen = false;
        self.find_nv(files)?;
        self.make_nv(files);
        let _ = self.nv.size_within(WHOLE as u64);
        self.nv.write(u64::from(at), bytes);
        settle(&mut self.nv, &self.lock);
        self.nv.outcome()
    }

    // Makes an empty `nv`, locked, where it is absent. An error where it isn't to be made.
    fn make_nv<R: Files<File = F>>(&mut self, files: &R) {
        if !self.nv.is_absent() {
            return;
        }
        let name = FileName::Nv;
        if self.makes_nv {
            self.nv.make(files, name.text());
            self.nv.lock();
        } else {
            let error = io::Error::from(ErrorKind::NotFound);
            self.nv.fail(Cause::System { name, error });
        }
    }

    /// The register's value, zero where the file is absent.
    pub fn register<R: Files<File = F>>(&mut self, files: &R) -> Result<Digest, Cause> {
        self.enter(files)?;
        self.register.look(files);
        value_in(&mut self.register, &self.lock)
    }

    /// Sets the register to zero, whatever the file has.
    pub fn reset_register<R: Files<File = F>>(&mut self, files: &R) -> Result<(), Cause> {
        self.enter(files)?;
        self.register.look(files);
        self.register.refuse_other_names();
        self.register.outcome()?;
        self.put_register(files, &zero())
    }

    // Puts this value in place of the register's. It is never seen in part: it is written to a new
    // file and synced, which takes the name. So the file that has the name has no other.
    fn put_register<R: Files<File = F>>(&mut self, files: &R, value: &Digest) -> Result<(), Cause> {
        self.register.close();
        fill(&mut self.new_register, files, &value.bytes)?;
        rename(files, &mut self.new_register, &mut self.register)?;
        settle(&mut self.register, &self.lock);
        self.register.outcome()
    }

    /// Extends the register by a value. The file isn't looked at for that where it is open.
    pub fn extend_register<R: Files<File = F>>(
        &mut self,
        files: &R,
        value: &Digest,
    ) -> Result<(), Cause> {
        self.enter(files)?;
        self.register.open(files);
        let old = value_in(&mut self.register, &self.lock)?;
        self.put_register(files, &extended(&old, value))
    }
}

// Lets the cell that the selector picks in these bytes of `nv` be on the disk, and then the
// selector: the disk may still have an older one, and the other cell stays as it is there.
fn renew_cell<F: Lock + OpenFile + FileExt + Drop>(nv: &mut KeptFile<F>, bytes: &[u8; WHOLE]) {
    let size = nv.size_within(WHOLE as u64) as usize;
    let start = CELL * usize::from(bytes[SELECTOR as usize] % 2);
    let end = size.min(start + CELL);
    nv.write(start as u64, &bytes[start.min(end)..end]);
    nv.sync();
    if size == WHOLE {
        nv.write(u64::from(SELECTOR), &bytes[SELECTOR as usize..]);
        nv.sync();
    }
}

// Opens the register's file, which has one name alone, and lets its bytes be on the disk.
fn open_register<R: Files>(register: &mut KeptFile<R::File>, files: &R) -> Result<(), Cause>
where
    R::File: Lock + FileExt,
{
    register.open(files);
    register.refuse_other_names();
    renew_register(register);
    register.sync();
    register.outcome()
}

// Writes the register's bytes again, where this program didn't yet. A file of another size is no
// register.
fn renew_register<F: Lock + OpenFile + FileExt + Drop>(register: &mut KeptFile<F>) {
    if register.size() == VALUE {
        register.renew(VALUE);
    }
}

// Lets a file's bytes and its name be on the disk, where this program didn't yet.
fn settle<F: Lock + OpenFile + FileExt + Drop>(kept: &mut KeptFile<F>, lock: &Option<F>) {
    kept.sync();
    if let Some(folder) = lock {
        if kept.set_listed() {
            kept.ended(named(FileName::Here, folder.sync_all()));
        }
    }
}

// The value in the register's file.
fn value_in<F: Lock + OpenFile + FileExt + Drop>(
    kept: &mut KeptFile<F>,
    lock: &Option<F>,
) -> Result<Digest, Cause> {
    let mut bytes = [0; VALUE as usize];
    kept.refuse_other_names();
    kept.refuse_other_size(VALUE);
    renew_register(kept);
    settle(kept, lock);
    kept.read(0, &mut bytes);
    kept.outcome()?;
    Ok(Digest { bytes })
}

// Puts these bytes into a new file. What an earlier program left under its name is taken away.
fn fill<R: Files>(kept: &mut KeptFile<R::File>, files: &R, bytes: &[u8]) -> Result<(), Cause>
where
    R::File: Lock + FileExt,
{
    kept.make_anew(files);
    kept.write(0, bytes);
    kept.sync();
    kept.outcome()
}

// Gives the new file the register's name, which isn't synced yet. The file stays open.
fn rename<R: Files>(
    files: &R,
    new: &mut KeptFile<R::File>,
    register: &mut KeptFile<R::File>,
) -> Result<(), Cause>
where
    R::File: Lock + FileExt,
{
    match fs::rename(files, "register.new", "register") {
        Ok(()) => {
            register.take_from(new);
            Ok(())
        }
        Err(error) => {
            new.close();
            Err(Cause::System {
                name: FileName::Register,
                error,
            })
        }
    }
}
