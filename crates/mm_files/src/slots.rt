//! The files `slot0` to `slot3`.

ghost use Rattle.std.specs.Prelude.{◌≡◌, ◌≤◌, ◌-◌, ◌^◌, IfOk, min};
ghost use Rattle.std.specs.Option.{option_map, unwrap_or};

use crate::cause::Cause;
use crate::kept::KeptFile;
use crate::lock::Lock;
use crate::name::FileName;
use crate::place::{FilePlace, refuse_same};
use crate::sight::Identity;
use mm_bytes::Memory;
use mm_store::Four;
use std::alloc::Global;
use std::fs::OpenFile;
use std::os::unix::fs::FileExt;
use std::rt::Files;

/// The bytes of a page.
const PAGE: u64 = 256;

/// The most bytes that are read of a slot.
const LONGEST: u64 = 1_100_032;

/// A page behind the first.
const LATER: u16 = 1;

/// The files of the slots.
#[derive(Drop)]
pub struct SlotFiles<F> {
    slots: Four<Slot<F>>,
}

impl<F: Lock + OpenFile + FileExt + Drop> SlotFiles<F> {
    /// The slots, whose links are followed now.
    pub fn new<R: Files>(alloc: Global, files: &R) -> Result<SlotFiles<F>, Memory> {
        let mut slots = SlotFiles::unfollowed(alloc);
        slots.follow_links(alloc, files)?;
        Ok(slots)
    }

    // The slots, whose links weren't followed yet.
    fn unfollowed(alloc: Global) -> SlotFiles<F> {
        SlotFiles {
            slots: Four::new(
                Slot::new(alloc, FileName::Slot0),
                Slot::new(alloc, FileName::Slot1),
                Slot::new(alloc, FileName::Slot2),
                Slot::new(alloc, FileName::Slot3),
            ),
        }
    }

    // Follows the slots' links.
    fn follow_links<R: Files>(&mut self, alloc: Global, files: &R) -> Result<(), Memory> {
        for slot in 0..4 {
            self.slots.get_mut(slot).place.follow(alloc, files)?;
        }
        Ok(())
    }

    /// The slot of this number below 4. It knows which files the others have open.
    pub fn get(&mut self, slot: u8) -> &mut Slot<F> {
        let claims = self.claims();
        let slot = self.slots.get_mut(slot);
        slot.claims = claims;
        slot
    }

    // Which files the slots have open.
    fn claims(&self) -> Four<Option<Identity>> {
        Four::new(
            self.slots.get(0).kept.identity(),
            self.slots.get(1).kept.identity(),
            self.slots.get(2).kept.identity(),
            self.slots.get(3).kept.identity(),
        )
    }
}

// The slot that has this file open, of slots that have these.
fn name_of(claims: &Four<Option<Identity>>, file: Identity) -> Option<FileName> {
    let file = Some(file);
    if *claims.get(0) == file {
        Some(FileName::Slot0)
    } else if *claims.get(1) == file {
        Some(FileName::Slot1)
    } else if *claims.get(2) == file {
        Some(FileName::Slot2)
    } else if *claims.get(3) == file {
        Some(FileName::Slot3)
    } else {
        None
    }
}

/// The file of a slot. A page is written up to its last byte that isn't zero, and over all that the
/// file has of it. So a slot has the bytes of its file, and behind them zero bytes up to the length
/// that writes of pages gave it. `sync` lets the file have that length. What was opened is taken
/// for unsynced until this program synced it.
///
/// The file stays open. It is looked at where page 0 is read or written, and where its length is
/// asked: so one that others put in its place is found by whoever reads or writes the slot from the
/// front on. What was opened is neither read nor written where it is another of the program's
/// files, or another program has it open: it is locked.
#[derive(Drop)]
pub struct Slot<F> {
    name: FileName,
    place: FilePlace,
    kept: KeptFile<F>,
    // The length that writes of pages gave it, none where it is that of its file.
    length: Option<u64>,
    // What all slots had open when this call began.
    claims: Four<Option<Identity>>,
}

impl<F: Lock + OpenFile + FileExt + Drop> Slot<F> {
    fn new(alloc: Global, name: FileName) -> Slot<F> {
        Slot {
            name,
            place: FilePlace::new(alloc, name),
            kept: KeptFile::new(name),
            length: None,
            claims: Four::new(None, None, None, None),
        }
    }

    // Opens the file, looked at for the first page. It stays closed where it is absent.
    fn find<R: Files<File = F>>(&mut self, files: &R, page: u16) {
        match page {
            0 => self.kept.look(files),
            _ => self.kept.open(files),
        }
        self.refuse_others(files);
    }

    // Opens the file, looked at for the first page. Where it is absent an empty one is made.
    fn find_or_make<R: Files<File = F>>(&mut self, files: &R, page: u16) {
        self.find(files, page);
        if self.kept.is_absent() {
            self.make(files);
        }
    }

    // Makes an empty file, where it is absent.
    fn make<R: Files<File = F>>(&mut self, files: &R) {
        match self.place.refuse_other(files) {
            Ok(()) => {
                self.kept.make(files, self.place.path());
                self.refuse_others(files);
            }
            Err(cause) => self.kept.fail(cause),
        }
    }

    // An error where the file is another of the program's, or another program's.
    fn refuse_others<R: Files<File = F>>(&mut self, files: &R) {
        match &mut self.kept.opened {
            Some(opened) if !opened.is_alone => {
                opened.is_alone = true;
                let identity = opened.identity;
                let outcome = self.refuse_same(files, identity);
                self.kept.ended(outcome);
                self.kept.lock();
            }
            _ => {}
        }
    }

    // An error where this file has the name of another of the program's files, or another slot has
    // it open.
    fn refuse_same<R: Files<File = F>>(&self, files: &R, file: Identity) -> Result<(), Cause> {
        refuse_same(files, self.name, file)?;
        let name = self.name;
        match name_of(&self.claims, file) {
            Some(other) if other != name => Err(Cause::Same { name, other }),
            _ => Ok(()),
        }
    }

    /// How many bytes the slot has, none where its file is absent; the greatest number stands for
    /// each greater one. What the file has is synced afterwards; of a renewed slot, and of that
    /// alone, it is then on the disk.
    pub fn length<R: Files<File = F>>(&mut self, files: &R) -> Result<u32, Cause>
        ensures { IfOk result (λ told. told ≡ min (unwrap_or self.new.length
            (unwrap_or (option_map (λ opened. opened.size) self.new.kept.opened) 0)) (2 ^ 32 - 1)) }
    {
        if self.length.is_none() {
            self.find(files, 0);
            self.settle(files);
            self.kept.outcome()?;
        }
        Ok(told_length(self.length.unwrap_or(self.kept.size())))
    }

    /// Writes the bytes of the slot's file once more, where this program didn't write all of them,
    /// and lets them and its name be on the disk: so what an earlier program couldn't bring there
    /// is there. An absent file stays so.
    pub fn renew<R: Files<File = F>>(&mut self, files: &R) -> Result<(), Cause> {
        self.find(files, 0);
        self.kept.renew(LONGEST);
        self.settle(files);
        self.kept.outcome()
    }

    /// Reads a page. Bytes past the slot's end are zero.
    pub fn read<R: Files<File = F>>(
        &mut self,
        files: &R,
        page: u16,
        into: &mut [u8; 256],
    ) -> Result<(), Cause> {
        *into = [0; 256];
        self.find(files, page);
        let start = start_of(page);
        let (front, _) = into.split_at_mut(part_of(self.kept.size(), start));
        self.kept.read(start, front);
        self.kept.outcome()
    }

    /// Writes a page, in place. After an error the slot has the bytes of its file alone.
    pub fn write<R: Files<File = F>>(
        &mut self,
        files: &R,
        page: u16,
        bytes: &[u8; 256],
    ) -> Result<(), Cause> {
        let length = self.length.take().unwrap_or(0);
        self.find_or_make(files, page);
        let start = start_of(page);
        let (front, _) = bytes.split_at(size_set(bytes).max(part_of(self.kept.size(), start)));
        self.kept.write(start, front);
        self.kept.outcome()?;
        self.length = Some(self.kept.size().max(length).max(start + PAGE));
        Ok(())
    }

    /// Cuts the slot to this length, or fills it up to there with zero bytes. Its file is changed
    /// where it has another. After an error the slot has the bytes of its file alone.
    pub fn set_length<R: Files<File = F>>(&mut self, files: &R, length: u64) -> Result<(), Cause> {
        self.length = None;
        self.find_or_make(files, LATER);
        self.kept.cut(length);
        self.kept.outcome()
    }

    /// Lets the slot's bytes, in a file of their length, and its name be on the disk. An absent
    /// file stays so.
    pub fn sync<R: Files<File = F>>(&mut self, files: &R) -> Result<(), Cause> {
        if let Some(length) = self.length {
            self.set_length(files, length)?;
        }
        self.find(files, LATER);
        self.settle(files);
        self.kept.outcome()
    }

    // Lets the file's bytes and its name be on the disk, where this program didn't yet.
    fn settle<R: Files<File = F>>(&mut self, files: &R) {
        self.kept.sync();
        if self.kept.set_listed() {
            let outcome = self.place.sync_name(files);
            self.kept.ended(outcome);
        }
    }
}

// How a length is told: the greatest number stands for each greater one.
fn told_length(length: u64) -> u32
    ensures { result ≡ min length (2 ^ 32 - 1) }
{
    u32::try_from(length).unwrap_or(u32::MAX)
}

// Where a page begins.
fn start_of(page: u16) -> u64
    ensures { result ≤ 16776960 }
{
    PAGE * u64::from(page)
}

// How many bytes of the page that begins there a file of this length has.
fn part_of(size: u64, start: u64) -> usize
    ensures { result ≤ 256 }
{
    size.saturating_sub(start).min(PAGE) as usize
}

// How many bytes there are up to the last that isn't zero.
fn size_set(bytes: &[u8; 256]) -> usize
    ensures { result ≤ 256 }
{
    let mut size = 0;
    for at in 0..bytes.len() {
        if bytes[at] != 0 {
            size = at + 1;
        }
    }
    size
}
