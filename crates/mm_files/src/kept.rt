//! A file of the current directory that stays open. What answered `Ok` after a sync is on the disk.

ghost use Rattle.std.specs.Prelude.{◌≡◌, ◌≤◌};
ghost use Rattle.std.specs.Option.{option_map, unwrap_or};

use crate::cause::{Cause, locked, named};
use crate::lease::is_leased;
use crate::lock::Lock;
use crate::name::FileName;
use crate::sight::{Identity, Sight, sight_at, sight_of_link};
use std::fs::{self, OpenFile, OpenOptions, Permissions};
use std::io::{self, ErrorKind};
use std::os::unix::fs::{FileExt, OpenOptionsExt, PermissionsExt};
use std::rt::Files;

/// Whom a file that is made serves: its owner alone reads and writes it.
const OWNER_ALONE: u32 = 0o600;

/// How many bytes are read and written again at a time.
const PIECE: u64 = 4096;

/// An open file.
#[derive(Drop)]
pub struct OpenedFile<F> {
    file: F,
    pub identity: Identity,
    // How many bytes it has, by what was seen of it and done to it.
    size: u64,
    // How many names it has, by what was seen of it.
    names: u64,
    // Whether this program wrote all of it that is read: it made it, or wrote it again.
    is_own: bool,
    // Whether this program let its bytes be on the disk.
    is_synced: bool,
    // Whether it did so with its name.
    is_listed: bool,
    /// Whether it was seen to be none of the program's other files.
    pub is_alone: bool,
}

impl<F> OpenedFile<F> {
    // Whether it is what is seen there. From then on it has the size and the names that are seen.
    fn is_seen(&mut self, there: &io::Result<Sight>) -> bool {
        match there {
            Ok(there) if there.identity == self.identity => {
                self.size = there.size;
                self.names = there.names;
                true
            }
            _ => false,
        }
    }
}

/// The file of a name, which stays open from the first call on. Where a call on it failed it is
/// closed, and what opens it next does so anew. Where it is looked at, and others gave the name to
/// another file, that one is opened. Where it isn't open nothing is read of it or done to it: so
/// calls follow one another, and behind the last `outcome` tells whether one failed.
#[derive(Drop)]
pub struct KeptFile<F> {
    name: FileName,
    /// The file where it is open.
    pub opened: Option<OpenedFile<F>>,
    // Why a call on it failed, until `outcome` tells that.
    failed: Option<Cause>,
}

impl<F: Lock + OpenFile + FileExt + Drop> KeptFile<F> {
    /// The file of this name, which isn't opened yet.
    pub fn new(name: FileName) -> KeptFile<F> {
        KeptFile {
            name,
            opened: None,
            failed: None,
        }
    }

    /// Which file is open.
    pub fn identity(&self) -> Option<Identity> {
        match &self.opened {
            Some(opened) => Some(opened.identity),
            None => None,
        }
    }

    /// How many bytes it has, 0 where it isn't open.
    pub fn size(&self) -> u64
        ensures { result ≡ unwrap_or (option_map (λ opened. opened.size) self.now.opened) 0 }
    {
        match &self.opened {
            Some(opened) => opened.size,
            None => 0,
        }
    }

    /// What came of the calls on the file since this was asked last.
    pub fn outcome(&mut self) -> Result<(), Cause> {
        match self.failed.take() {
            Some(cause) => Err(cause),
            None => Ok(()),
        }
    }

    /// Whether there is no file, by calls that didn't fail.
    pub fn is_absent(&self) -> bool {
        self.opened.is_none() && self.failed.is_none()
    }

    /// Opens the file, looked at. It stays closed where it is absent.
    pub fn look<R: Files<File = F>>(&mut self, files: &R) {
        self.close_other(files);
        self.open(files);
    }

    /// Looks at the file where it is open: it has the size that it has now. An error where its name
    /// leads elsewhere.
    pub fn look_again<R: Files<File = F>>(&mut self, files: &R) {
        let name = self.name;
        if let Some(opened) = &mut self.opened {
            match sight_at(files, name.text()) {
                Ok(there) if there.identity == opened.identity => opened.size = there.size,
                Ok(_) => self.fail(Cause::Moved { name }),
                Err(error) => self.fail(Cause::System { name, error }),
            }
        }
    }

    /// Opens the file where it isn't open. It stays closed where it is absent.
    pub fn open<R: Files<File = F>>(&mut self, files: &R) {
        if self.opened.is_none() && self.is_there(files) {
            self.keep(opened(files, self.name.text(), false), false);
        }
    }

    // Whether a file is there. An error where something else is, or another program holds a lease
    // on it: it isn't opened, as that might wait.
    fn is_there<R: Files<File = F>>(&mut self, files: &R) -> bool {
        let name = self.name;
        match seen(files, name) {
            Ok(there) if !there.is_file => self.failed = Some(Cause::NoFile { name }),
            Ok(there) if is_leased(files, there.identity) => {
                self.failed = Some(Cause::Leased { name });
            }
            Ok(_) => return true,
            Err(error) if error.kind() == ErrorKind::NotFound => {}
            Err(error) => self.failed = Some(Cause::System { name, error }),
        }
        false
    }

    /// Makes an empty file at this path. An error where something is there: no link is followed.
    pub fn make<R: Files<File = F>>(&mut self, files: &R, path: &str) {
        self.keep(opened(files, path, true), true);
    }

    /// Makes an empty file of this name. What is there is taken away first, and a link isn't
    /// followed.
    pub fn make_anew<R: Files<File = F>>(&mut self, files: &R) {
        let name = self.name;
        match opened(files, name.text(), true) {
            Err(error) if error.kind() == ErrorKind::AlreadyExists => {
                self.ended(named(name, fs::remove_file(files, name.text())));
                if self.is_absent() {
                    self.make(files, name.text());
                }
            }
            outcome => self.keep(outcome, true),
        }
    }

    // Keeps the file that was opened, or made. An error where it is no file.
    fn keep(&mut self, outcome: io::Result<F>, is_made: bool) {
        match looked_at(outcome, self.name, is_made) {
            Ok(opened) => self.opened = Some(opened),
            Err(cause) => self.failed = Some(cause),
        }
    }

    // Closes the file where it isn't the one of the name any more. Otherwise it has the size that
    // it has now.
    fn close_other<R: Files<File = F>>(&mut self, files: &R) {
        if let Some(opened) = &mut self.opened {
            if !opened.is_seen(&seen(files, self.name)) {
                self.close();
            }
        }
    }

    /// Keeps the file open that another has open.
    pub fn take_from(&mut self, other: &mut KeptFile<F>) {
        self.opened = other.opened.take();
    }

    /// Closes the file.
    pub fn close(&mut self) {
        self.opened = None;
    }

    /// A call on the file failed so: it is closed.
    pub fn fail(&mut self, cause: Cause) {
        self.close();
        self.failed = Some(cause);
    }

    /// What came of a call on the file, which is closed where that failed.
    pub fn ended(&mut self, outcome: Result<(), Cause>) {
        if let Err(cause) = outcome {
            self.fail(cause);
        }
    }

    /// Reads bytes from `at` on, as many as there is room for.
    pub fn read(&mut self, at: u64, into: &mut [u8]) {
        if let Some(opened) = &self.opened {
            let outcome = named(self.name, opened.file.read_exact_at(into, at));
            self.ended(outcome);
        }
    }

    /// Writes these bytes from `at` on, in place.
    pub fn write(&mut self, at: u64, bytes: &[u8]) {
        if let Some(opened) = &mut self.opened {
            opened.is_synced = false;
            opened.size = opened.size.max(at.saturating_add(bytes.len() as u64));
            let outcome = named(self.name, opened.file.write_all_at(bytes, at));
            self.ended(outcome);
        }
    }

    /// Gives it this length, where it has another.
    pub fn cut(&mut self, length: u64) {
        if let Some(opened) = &mut self.opened {
            opened.is_synced = false;
            if opened.size != length {
                opened.size = length;
                let outcome = named(self.name, opened.file.set_len(length));
                self.ended(outcome);
            }
        }
    }

    /// Writes the bytes that it has, up to the first `most`, once more and in place, where this
    /// program didn't write all of them. A system may tell once that bytes didn't come to the disk,
    /// and hold them for clean then: only what is written again is brought there by a sync.
    pub fn renew(&mut self, most: u64) {
        match &mut self.opened {
            Some(opened) if !opened.is_own => {
                opened.is_own = true;
                opened.is_synced = false;
                let size = opened.size.min(most);
                let outcome = named(self.name, write_again(&opened.file, size));
                self.ended(outcome);
            }
            _ => {}
        }
    }

    /// Lets its bytes be on the disk, where this program didn't yet.
    pub fn sync(&mut self) {
        match &mut self.opened {
            Some(opened) if !opened.is_synced => {
                opened.is_synced = true;
                let outcome = named(self.name, opened.file.sync_data());
                self.ended(outcome);
            }
            _ => {}
        }
    }

    /// Locks it until it is closed. An error where another program has locked it.
    pub fn lock(&mut self) {
        if let Some(opened) = &self.opened {
            let outcome = locked(self.name, opened.file.lock_alone());
            self.ended(outcome);
        }
    }

    /// Says that its name is on the disk, and answers whether that wasn't said yet.
    pub fn set_listed(&mut self) -> bool {
        match &mut self.opened {
            Some(opened) if !opened.is_listed => {
                opened.is_listed = true;
                true
            }
            _ => false,
        }
    }

    /// Its size, at most this many bytes. A greater one is an error.
    pub fn size_within(&mut self, most: u64) -> u64
        ensures { result ≤ most }
    {
        let size = self.size();
        if size <= most {
            return size;
        }
        let name = self.name;
        self.fail(Cause::Long { name, size, most });
        0
    }

    /// An error where it has another name, too.
    pub fn refuse_other_names(&mut self) {
        match &self.opened {
            Some(opened) if opened.names > 1 => self.fail(Cause::Named { name: self.name }),
            _ => {}
        }
    }

    /// An error where it has another size than this.
    pub fn refuse_other_size(&mut self, wanted: u64) {
        match &self.opened {
            Some(opened) if opened.size != wanted => {
                let size = opened.size;
                let name = self.name;
                self.fail(Cause::Length { name, size, wanted });
            }
            _ => {}
        }
    }
}

// What is seen of the file of this name. A register isn't sought behind a link: each change puts a
// new file in the link's place, and what it leads to would stay as it is.
fn seen<R: Files>(files: &R, name: FileName) -> io::Result<Sight> {
    match name {
        FileName::Register => sight_of_link(files, name.text()),
        _ => sight_at(files, name.text()),
    }
}

// Opens the file at this path, to read and to write at once, or makes a new one there.
fn opened<R: Files>(files: &R, path: &str, is_new: bool) -> io::Result<R::File> {
    OpenOptions::new()
        .read(true)
        .write(true)
        .create_new(is_new)
        .mode(OWNER_ALONE)
        .open(files, path)
}

// The file that was just opened, or made, as it is seen. An error where it is none.
fn looked_at<F: Lock + OpenFile + Drop>(
    outcome: io::Result<F>,
    name: FileName,
    is_made: bool,
) -> Result<OpenedFile<F>, Cause> {
    let file = named(name, outcome)?;
    let there = look_at(&file, name)?;
    if is_made {
        open_to_owner(&file, name, &there)?;
    }
    Ok(OpenedFile {
        file,
        identity: there.identity,
        size: there.size,
        names: there.names,
        is_own: is_made,
        is_synced: false,
        is_listed: false,
        is_alone: false,
    })
}

// What is seen of a file that was just opened. An error where it is none, but a FIFO, a device or a
// folder, and where it took the place of a standard stream that was closed: what is written there
// would go into it.
fn look_at<F: Lock + OpenFile>(file: &F, name: FileName) -> Result<Sight, Cause> {
    if file.is_standard() {
        return Err(Cause::Standard { name });
    }
    let there = Sight::of(&named(name, file.metadata())?);
    if there.is_file {
        Ok(there)
    } else {
        Err(Cause::NoFile { name })
    }
}

// Lets the owner read and write a file that was made, whatever the mask of modes took.
fn open_to_owner<F: OpenFile>(file: &F, name: FileName, there: &Sight) -> Result<(), Cause> {
    if there.is_open_to_owner {
        return Ok(());
    }
    named(
        name,
        file.set_permissions(Permissions::from_mode(OWNER_ALONE)),
    )
}

// Writes the first so many bytes of a file again, in place.
fn write_again<F: FileExt>(file: &F, size: u64) -> io::Result<()> {
    for number in 0..size.div_ceil(PIECE) {
        let at = number.saturating_mul(PIECE);
        write_piece_again(file, at, size.saturating_sub(at).min(PIECE) as usize)?;
    }
    Ok(())
}

// Writes so many bytes of a file again, in place, from `at` on.
fn write_piece_again<F: FileExt>(file: &F, at: u64, count: usize) -> io::Result<()>
    requires { count ≤ 4096 }
{
    let mut bytes = [0; PIECE as usize];
    let (piece, _) = bytes.split_at_mut(count);
    file.read_exact_at(piece, at)?;
    file.write_all_at(piece, at)
}
