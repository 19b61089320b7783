//! Batches and entries of a history, owned.

ghost use Rattle.std.specs.Prelude.{◌≡◌, ◌<◌, map, IfOk, OnOk, vec_len, vec_capacity};
ghost use Rattle.mm_module.specs.Batch.{normal_batch, has_tab};
ghost use Rattle.mm_module.specs.Batches.{batch_of};
ghost use Rattle.mm_model.specs.Standing.{is_same_batch, has_value};
ghost use Rattle.mm_model.specs.Verdicts.{is_last, kept_batch, kept_batches, kept_entry, kept_entries};

use mm_bytes::{Bytes, Memory};
use mm_digest::Digest;
use mm_module::Batch;
use std::alloc::Global;

/// A batch: one request, or the text of several with its TABs.
#[derive(Drop)]
pub enum KeptBatch {
    One(Bytes),
    Many(Bytes),
}

/// What a register took in: a committed batch, or a value that stands for none.
#[derive(Drop)]
pub enum KeptEntry {
    Own(KeptBatch),
    Value(Digest),
}

/// Whether a text is several requests: whether some byte of it is a TAB.
fn has_tab(text: &[u8]) -> bool
    ensures { result ≡ has_tab text.now }
{
    text.contains(&b'\t')
}

/// The batch with these members that its members fix: a text with no TAB is one request.
pub fn normal(batch: Batch<'_>) -> Batch<'_>
    ensures { batch_of result ≡ normal_batch (batch_of batch.entry) }
{
    match batch {
        Batch::One(request) => Batch::One(request),
        Batch::Many(text) => {
            if has_tab(text) {
                Batch::Many(text)
            } else {
                Batch::One(text)
            }
        }
    }
}

impl KeptBatch {
    /// An own copy.
    pub fn copy_of(alloc: Global, batch: &Batch<'_>) -> Result<KeptBatch, Memory>
        ensures { IfOk result (λ kept. kept_batch kept ≡ batch_of batch.now) }
    {
        let text = Bytes::copy_of(alloc, batch.text())?;
        match *batch {
            Batch::One(_) => Ok(KeptBatch::One(text)),
            Batch::Many(_) => Ok(KeptBatch::Many(text)),
        }
    }

    /// The batch, lent.
    pub fn lent(&self) -> Batch<'_>
        ensures { batch_of result ≡ kept_batch self.now }
    {
        match self {
            KeptBatch::One(request) => Batch::One(request.as_slice()),
            KeptBatch::Many(text) => Batch::Many(text.as_slice()),
        }
    }

    /// Whether the two are one batch.
    pub fn is(&self, other: &KeptBatch) -> bool
        ensures { result ≡ is_same_batch (kept_batch self.now) (kept_batch other.now) }
    {
        self.is_that(&other.lent())
    }

    /// Whether this is that batch.
    fn is_that(&self, batch: &Batch<'_>) -> bool
        ensures { result ≡ is_same_batch (kept_batch self.now) (batch_of batch.now) }
    {
        match self {
            KeptBatch::One(request) => match *batch {
                Batch::One(second) => request.as_slice() == second,
                Batch::Many(_) => false,
            },
            KeptBatch::Many(text) => match *batch {
                Batch::One(_) => false,
                Batch::Many(second) => text.as_slice() == second,
            },
        }
    }
}

impl KeptEntry {
    fn copy(&self, alloc: Global) -> Result<KeptEntry, Memory>
        ensures { IfOk result (λ kept. kept_entry kept ≡ kept_entry self.now) }
    {
        match self {
            KeptEntry::Own(batch) => {
                let copy = KeptBatch::copy_of(alloc, &batch.lent())?;
                Ok(KeptEntry::Own(copy))
            }
            KeptEntry::Value(value) => Ok(KeptEntry::Value(*value)),
        }
    }
}

/// Three copies of a batch.
pub fn copies_of(
    alloc: Global,
    batch: &Batch<'_>,
) -> Result<(KeptBatch, KeptBatch, KeptBatch), Memory>
    ensures { IfOk result (λ copies. (kept_batch copies.0 ≡ batch_of batch.now)
        × (kept_batch copies.1 ≡ batch_of batch.now)
        × (kept_batch copies.2 ≡ batch_of batch.now)) }
{
    let first = KeptBatch::copy_of(alloc, batch)?;
    let second = KeptBatch::copy_of(alloc, batch)?;
    let third = KeptBatch::copy_of(alloc, batch)?;
    Ok((first, second, third))
}

/// Makes room for one more in each list.
pub fn reserve_one(
    batches: &mut Vec<KeptBatch>,
    current: &mut Vec<KeptBatch>,
    items: &mut Vec<KeptEntry>,
) -> Result<(), Memory>
    ensures batches { batches.new.items ≡ batches.old.items }
    ensures current { current.new.items ≡ current.old.items }
    ensures items { items.new.items ≡ items.old.items }
    ensures room { OnOk result ((vec_len batches.new < vec_capacity batches.new)
        × (vec_len current.new < vec_capacity current.new)
        × (vec_len items.new < vec_capacity items.new)) }
{
    batches.reserve(1)?;
    current.reserve(1)?;
    items.reserve(1)?;
    Ok(())
}

/// A copy of entries.
pub fn copy_entries(alloc: Global, entries: &[KeptEntry]) -> Result<Vec<KeptEntry>, Memory>
    ensures { IfOk result (λ copies. kept_entries copies.items ≡ kept_entries entries.now) }
{
    let mut copies = Vec::new(alloc);
    'entries: for entry in entries {
        let copy = entry.copy(alloc)?;
        copies.push(copy)?;
    }
    Ok(copies)
}

/// Whether some entry is a value that stands for no batch.
pub fn some_value(entries: &[KeptEntry]) -> bool
    ensures { result ≡ has_value (kept_entries entries.now) }
{
    'entries: for entry in entries {
        if let KeptEntry::Value(_) = entry {
            return true;
        }
    }
    false
}

/// Whether the last of the batches is this one.
pub fn last_is(batches: &[KeptBatch], batch: &Batch<'_>) -> bool
    ensures { result ≡ is_last (kept_batches batches.now) (batch_of batch.now) }
{
    let count = batches.len();
    if count == 0 {
        return false;
    }
    batches[count - 1].is_that(batch)
}
