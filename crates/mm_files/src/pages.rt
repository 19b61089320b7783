//! Pages over files.

ghost use Rattle.std.specs.Prelude.{◌≡◌, None, IfOk};
ghost use Rattle.mm_files.specs.UntoldDevices.{untold_pages};

use crate::cause::in_words;
use crate::counting::counted;
use crate::lock::Lock;
use crate::reason::Reason;
use crate::slots::SlotFiles;
use mm_bytes::{Failed, Memory};
use mm_pages::PageDevice;
use std::alloc::Global;
use std::os::unix::fs::FileExt;
use std::rt::Files;

/// Four slots in the files `slot0` to `slot3` of the current directory, or behind links there,
/// which have the plain bytes. No content is told. Each file stays open from the first call on it.
/// A file that is `nv`, `register`, `register.new` or another slot's is neither read nor written:
/// the call fails.
#[derive(Drop)]
pub struct FilePages<'a, R: Files> {
    files: &'a R,
    slots: SlotFiles<R::File>,
    faults: u64,
    page_reads: u64,
    page_writes: u64,
    length_writes: u64,
    renewals: u64,
    last: Option<Reason>,
}

impl<'a, R: Files> FilePages<'a, R>
where
    R::File: Lock + FileExt,
{
    /// The pages of these files. Links are followed now; no file is opened before the first call.
    pub fn new(alloc: Global, files: &'a R) -> Result<FilePages<'a, R>, Memory>
        ensures faults { IfOk result (λ pages. pages.faults ≡ 0) }
        ensures reads { IfOk result (λ pages. pages.page_reads ≡ 0) }
        ensures writes { IfOk result (λ pages. pages.page_writes ≡ 0) }
        ensures lengths { IfOk result (λ pages. pages.length_writes ≡ 0) }
        ensures renewals { IfOk result (λ pages. pages.renewals ≡ 0) }
        ensures reason { IfOk result (λ pages. pages.last ≡ None) }
    {
        let slots = SlotFiles::new(alloc, files)?;
        Ok(FilePages {
            files,
            slots,
            faults: 0,
            page_reads: 0,
            page_writes: 0,
            length_writes: 0,
            renewals: 0,
            last: None,
        })
    }

    /// Why the last call that failed did. None where none has.
    pub fn last_reason(&self) -> Option<Reason>
        ensures { result ≡ self.now.last }
    {
        self.last
    }
}

impl<R: Files> PageDevice for FilePages<'_, R>
where
    R::File: Lock + FileExt,
{
    ghost pages = { λ it. untold_pages it.faults it.page_reads it.page_writes it.length_writes
        it.renewals };

    fn length(&mut self, slot: u8) -> Result<u32, Failed> {
        let outcome = self.slots.get(slot).length(self.files);
        counted(&mut self.faults, &mut self.last, in_words(outcome))
    }

    fn read_page(&mut self, slot: u8, page: u16, into: &mut [u8; 256]) -> Result<(), Failed> {
        self.page_reads = self.page_reads.saturating_add(1);
        let outcome = self.slots.get(slot).read(self.files, page, into);
        counted(&mut self.faults, &mut self.last, in_words(outcome))
    }

    fn write_page(&mut self, slot: u8, page: u16, bytes: &[u8; 256]) -> Result<(), Failed> {
        self.page_writes = self.page_writes.saturating_add(1);
        let outcome = self.slots.get(slot).write(self.files, page, bytes);
        counted(&mut self.faults, &mut self.last, in_words(outcome))
    }

    fn set_length(&mut self, slot: u8, length: u32) -> Result<(), Failed> {
        self.length_writes = self.length_writes.saturating_add(1);
        let outcome = self
            .slots
            .get(slot)
            .set_length(self.files, u64::from(length));
        counted(&mut self.faults, &mut self.last, in_words(outcome))
    }

    fn sync(&mut self, slot: u8) -> Result<(), Failed> {
        let outcome = self.slots.get(slot).sync(self.files);
        counted(&mut self.faults, &mut self.last, in_words(outcome))
    }

    fn renew(&mut self, slot: u8) -> Result<(), Failed> {
        self.renewals = self.renewals.saturating_add(1);
        let outcome = self.slots.get(slot).renew(self.files);
        counted(&mut self.faults, &mut self.last, in_words(outcome))
    }
}
