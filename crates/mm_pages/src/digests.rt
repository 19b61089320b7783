//! The digests that are kept of pages.

ghost use Rattle.std.specs.Prelude.{◌≡◌, ◌<◌, ◌≤◌, ◌+◌, [], take, drop, length, Some, None, IfOk};
ghost use Rattle.mm_pages.specs.Rows.{no_rows, row_in, rows_with, kept_digest, row_with_digest, DropsPage};

use mm_bytes::Memory;
use mm_digest::Digest;
use mm_store::Four;
use std::alloc::Global;
use std::marker::Model;

// The most pages of a slot.
const MOST_PAGES: usize = 4297;

// The digests of the first pages of one slot, each kept or not. There is room for those of all
// pages.
#[derive(Drop)]
pub struct DigestRow {
    digests: Vec<Option<Digest>>,
}

impl Model for DigestRow {
    ghost use Rattle.std.specs.Prelude.{List, Option, ◌≤◌, vec_capacity};
    ghost use Rattle.mm_digest.specs.declared.digest.Digest.{Digest};

    ghost Value = { List (Option Digest) };

    ghost view = { λ r. r.digests.items };

    ghost invariant = { λ r. 4297 ≤ vec_capacity r.digests };
}

impl DigestRow {
    // No digests.
    fn new(alloc: Global) -> Result<DigestRow, Memory>
        ensures { IfOk result (λ row. row ≡ []) }
    {
        let digests = Vec::with_capacity(alloc, MOST_PAGES)?;
        Ok(DigestRow { digests })
    }

    // The digest that is kept of a page.
    fn get(&self, page: u16) -> Option<Digest>
        ensures { result ≡ kept_digest self.now page }
    {
        match self.digests.get(usize::from(page)) {
            None => None,
            Some(kept) => *kept,
        }
    }

    // Keeps the digest of a page below 4,297, which follows those of the pages before it.
    fn keep(&mut self, page: u16, digest: Digest)
        requires page { page < 4297 }
        requires reached { page ≤ length self.old }
        ensures { self.new ≡ row_with_digest page digest self.old }
    {
        let page = usize::from(page);
        if page < self.digests.len() {
            self.digests[page] = Some(digest);
        } else {
            self.digests.push_reserved(Some(digest));
        }
    }

    // Drops the digest of a page.
    fn drop_page(&mut self, page: u16)
        ensures len { length self.new ≡ length self.old }
        ensures before { take page self.new ≡ take page self.old }
        ensures after { drop (page + 1) self.new ≡ drop (page + 1) self.old }
    {
        let page = usize::from(page);
        if page < self.digests.len() {
            self.digests[page] = None;
        }
    }

    // Drops the digests of this page and of all later ones.
    fn cut(&mut self, page: u16)
        ensures { self.new ≡ take page self.old }
    {
        self.digests.truncate(usize::from(page));
    }
}

// The digests of all slots.
#[derive(Drop)]
pub struct SlotDigests {
    rows: Four<DigestRow>,
}

impl Model for SlotDigests {
    ghost use Rattle.mm_pages.specs.Rows.{Rows, rows_of};

    ghost Value = { Rows };

    ghost view = { λ d. rows_of d.rows };
}

impl SlotDigests {
    /// No digests, with room for all of them.
    pub fn new(alloc: Global) -> Result<SlotDigests, Memory>
        ensures { IfOk result (λ digests. digests ≡ no_rows) }
    {
        let zero = DigestRow::new(alloc)?;
        let one = DigestRow::new(alloc)?;
        let two = DigestRow::new(alloc)?;
        let three = DigestRow::new(alloc)?;
        Ok(SlotDigests {
            rows: Four::new(zero, one, two, three),
        })
    }

    /// The digest that is kept of a page.
    pub fn get(&self, slot: u8, page: u16) -> Option<Digest>
        requires { slot < 4 }
        ensures { result ≡ kept_digest (row_in self.now slot) page }
    {
        self.rows.get(slot).get(page)
    }

    /// Keeps the digest of a page, which follows those of the pages before it.
    pub fn keep(&mut self, slot: u8, page: u16, digest: Digest)
        requires slot { slot < 4 }
        requires page { page < 4297 }
        requires reached { page ≤ length (row_in self.old slot) }
        ensures { self.new ≡ rows_with self.old slot
            (row_with_digest page digest (row_in self.old slot)) }
    {
        self.rows.get_mut(slot).keep(page, digest);
    }

    /// Drops the digest of a page.
    pub fn drop_page(&mut self, slot: u8, page: u16)
        requires { slot < 4 }
        ensures { DropsPage slot page self.old self.new }
    {
        self.rows.get_mut(slot).drop_page(page);
    }

    /// Drops the digests of a slot's pages from this one on.
    pub fn cut(&mut self, slot: u8, page: u16)
        requires { slot < 4 }
        ensures { self.new ≡ rows_with self.old slot (take page (row_in self.old slot)) }
    {
        self.rows.get_mut(slot).cut(page);
    }
}
