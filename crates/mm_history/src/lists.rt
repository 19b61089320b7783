//! A history as lists.

ghost use Rattle.std.specs.Prelude.{◌≡◌, ◌<◌, vec_len, vec_capacity};
ghost use Rattle.mm_model.specs.History.{entries_with_last_batch};
ghost use Rattle.mm_model.specs.Verdicts.{kept_batch, kept_entries};

use crate::marks::register_of;
use mm_bytes::Memory;
use mm_digest::Digest;
use mm_model::{KeptBatch, KeptEntry, copies_of, copy_entries, last_is, reserve_one, some_value};
use mm_module::Batch;
use std::alloc::Global;
use std::marker::Model;

/// A history as lists, which contracts see as the history.
#[derive(Drop)]
pub struct HistoryLists {
    alloc: Global,
    batches: Vec<KeptBatch>,
    closed: Vec<Vec<KeptEntry>>,
    current: Vec<KeptBatch>,
    is_open: bool,
    items: Vec<KeptEntry>,
}

impl Model for HistoryLists {
    ghost use Rattle.mm_model.specs.History.{History};
    ghost use Rattle.mm_model.specs.Verdicts.{kept_batches, kept_entries, kept_segments};

    ghost Value = { History };

    ghost view = { λ s. record {
      batches = kept_batches s.batches.items;
      closed = kept_segments s.closed.items;
      current = kept_batches s.current.items;
      is_open = s.is_open;
      items = kept_entries s.items.items;
    } };
}

// The batch's own entry comes in place of the last one.
fn rename_last(items: &mut Vec<KeptEntry>, batch: KeptBatch)
    requires { vec_len items.old < vec_capacity items.old }
    ensures { kept_entries items.new.items
        ≡ entries_with_last_batch (kept_entries items.old.items) (kept_batch batch) }
{
    let _ = items.pop();
    items.push_reserved(KeptEntry::Own(batch));
}

impl HistoryLists {
    ghost use Rattle.std.specs.Prelude.{◌≡◌, ◌++◌, [], ◌∷◌, true, false, length, nat_le, OnOk, OnErr};
    ghost use Rattle.mm_digest.specs.declared.variant.Variant.TheVariants.{Basic, Opt};
    ghost use Rattle.mm_module.specs.Batches.{batch_of};
    ghost use Rattle.mm_model.specs.History.{Value, first_history, history_after_commit, values_of};
    ghost use Rattle.mm_model.specs.Chains.{register_of};
    ghost use Rattle.mm_model.specs.Verdicts.{is_last, kept_batches, kept_segments};
    ghost use Rattle.mm_model.specs.Standing.{is_empty, has_value};

    /// The first history. Takes no memory.
    pub fn new(alloc: Global) -> HistoryLists
        ensures { result ≡ first_history }
    {
        HistoryLists {
            alloc,
            batches: Vec::new(alloc),
            closed: Vec::new(alloc),
            current: Vec::new(alloc),
            is_open: false,
            items: Vec::new(alloc),
        }
    }

    /// Basic: one more batch.
    pub fn add(&mut self, batch: Batch<'_>) -> Result<(), Memory>
        ensures ok { OnOk result
            (self.new ≡ history_after_commit Basic self.old.is_open self.old
            (batch_of batch.entry)) }
        ensures err { OnErr result (self.new ≡ self.old) }
    {
        let kept = KeptBatch::copy_of(self.alloc, &batch)?;
        self.batches.push(kept)?;
        Ok(())
    }

    /// Opt: one more batch in the open segment.
    pub fn add_inside(&mut self, batch: Batch<'_>) -> Result<(), Memory>
        ensures ok { OnOk result
            (self.new ≡ history_after_commit Opt true self.old (batch_of batch.entry)) }
        ensures err { OnErr result (self.new ≡ self.old) }
    {
        reserve_one(&mut self.batches, &mut self.current, &mut self.items)?;
        let (kept, current, own) = copies_of(self.alloc, &batch)?;
        self.batches.push_reserved(kept);
        self.current.push_reserved(current);
        self.items.push_reserved(KeptEntry::Own(own));
        Ok(())
    }

    /// Opt: a batch opens a segment, and the last item becomes its own.
    pub fn open(&mut self, batch: Batch<'_>) -> Result<(), Memory>
        ensures ok { OnOk result
            (self.new ≡ history_after_commit Opt false self.old (batch_of batch.entry)) }
        ensures err { OnErr result (self.new ≡ self.old) }
    {
        reserve_one(&mut self.batches, &mut self.current, &mut self.items)?;
        let (kept, current, own) = copies_of(self.alloc, &batch)?;
        self.batches.push_reserved(kept);
        self.current.clear();
        self.current.push_reserved(current);
        self.is_open = true;
        rename_last(&mut self.items, own);
        Ok(())
    }

    /// The register takes in a value that stands for no batch.
    pub fn take_in(&mut self, value: &Digest) -> Result<(), Memory>
        ensures ok { OnOk result
            (self.new ≡ record self.old { items = self.old.items ++ Value value.now.bytes ∷ [] }) }
        ensures err { OnErr result (self.new ≡ self.old) }
    {
        self.items.push(KeptEntry::Value(*value))?;
        Ok(())
    }

    /// The register is emptied.
    pub fn empty(&mut self)
        ensures { self.new ≡ record self.old { items = [] } }
    {
        self.items.clear();
    }

    /// The items become a closed segment.
    pub fn close(&mut self) -> Result<(), Memory>
        ensures ok { OnOk result (self.new ≡ record self.old {
          closed = self.old.closed ++ self.old.items ∷ [];
          current = [];
          is_open = false;
        }) }
        ensures err { OnErr result (self.new ≡ self.old) }
    {
        let segment = copy_entries(self.alloc, self.items.as_slice())?;
        self.closed.push(segment)?;
        self.current.clear();
        self.is_open = false;
        Ok(())
    }

    /// The batches.
    pub fn batches(&self) -> &[KeptBatch]
        ensures { kept_batches result.now ≡ self.now.batches }
    {
        self.batches.as_slice()
    }

    /// The batches of the open segment.
    pub fn current(&self) -> &[KeptBatch]
        ensures { kept_batches result.now ≡ self.now.current }
    {
        self.current.as_slice()
    }

    /// The closed segments.
    pub fn closed(&self) -> &[Vec<KeptEntry>]
        ensures { kept_segments result.now ≡ self.now.closed }
    {
        self.closed.as_slice()
    }

    /// Whether a segment is open.
    pub fn is_open(&self) -> bool
        ensures { result ≡ self.now.is_open }
    {
        self.is_open
    }

    /// Whether the register has taken in nothing.
    pub fn is_bare(&self) -> bool
        ensures { result ≡ is_empty self.now.items }
    {
        self.items.is_empty()
    }

    /// Whether the register has taken in at most one value.
    pub fn is_alone(&self) -> bool
        ensures { result ≡ nat_le (length self.now.items) 1 }
    {
        self.items.len() <= 1
    }

    /// Whether no batch is in the open segment.
    pub fn is_clear(&self) -> bool
        ensures { result ≡ is_empty self.now.current }
    {
        self.current.is_empty()
    }

    /// Whether the register has taken in a value that stands for no batch.
    pub fn has_value(&self) -> bool
        ensures { result ≡ has_value self.now.items }
    {
        some_value(self.items.as_slice())
    }

    /// Whether this is the last batch.
    pub fn ends_with(&self, batch: Batch<'_>) -> bool
        ensures { result ≡ is_last self.now.batches (batch_of batch.entry) }
    {
        last_is(self.batches.as_slice(), &batch)
    }

    /// What the register reads, under this barrier.
    pub fn register(&self, barrier: &[u8; 32]) -> Digest
        ensures { result.bytes ≡ register_of (values_of barrier.now self.now.items) }
    {
        register_of(barrier, self.items.as_slice())
    }
}
