//! A history as lists, with no digest computed: the reference that digests are judged by.

ghost use Rattle.std.specs.Prelude.{◌≡◌, ◌+◌, true, false, OnOk, OnErr};
ghost use Rattle.mm_digest.specs.declared.variant.Variant.TheVariants.{Basic, Opt};
ghost use Rattle.mm_module.specs.Batch.{normal_batch, size_of};
ghost use Rattle.mm_module.specs.Batches.{batch_of};
ghost use Rattle.mm_model.specs.Chains.{Instance};
ghost use Rattle.mm_model.specs.History.{Foreign, Reset, Close, Power, first_history, history_after, total_of, with_batch};
ghost use Rattle.mm_model.specs.Verdicts.{verdict_on};

use crate::entries::{all_own, some_segment_has_value};
use mm_bytes::Memory;
use mm_digest::{Digest, Variant};
use mm_model::{
    KeptBatch, KeptEntry, Verdict, copies_of, copy_entries, last_is, normal, reserve_one,
};
use mm_module::Batch;
use std::alloc::Global;
use std::marker::Model;

/// A history as lists. Contracts see the variant and the history.
#[derive(Drop)]
pub struct Symbolic {
    alloc: Global,
    variant: Variant,
    batches: Vec<KeptBatch>,
    closed: Vec<Vec<KeptEntry>>,
    current: Vec<KeptBatch>,
    is_open: bool,
    items: Vec<KeptEntry>,
    requests: u64,
}

impl Model for Symbolic {
    ghost use Rattle.std.specs.Prelude.{◌≡◌};
    ghost use Rattle.mm_model.specs.History.{total_of};
    ghost use Rattle.mm_model.specs.Verdicts.{KeptHistory, kept_batches, kept_entries, kept_segments};

    ghost Value = { KeptHistory };

    ghost view = { λ s. record {
      variant = s.variant;
      history = record {
        batches = kept_batches s.batches.items;
        closed = kept_segments s.closed.items;
        current = kept_batches s.current.items;
        is_open = s.is_open;
        items = kept_entries s.items.items;
      };
    } };

    ghost invariant = { λ s. s.requests ≡ total_of (kept_batches s.batches.items) };
}

impl Symbolic {
    /// The first history. Takes no memory.
    pub fn new(alloc: Global, variant: Variant) -> Symbolic
        ensures variant { result.variant ≡ variant }
        ensures history { result.history ≡ first_history }
    {
        Symbolic {
            alloc,
            variant,
            batches: Vec::new(alloc),
            closed: Vec::new(alloc),
            current: Vec::new(alloc),
            is_open: false,
            items: Vec::new(alloc),
            requests: 0,
        }
    }

    /// Commits a batch. Where it opens a segment, this stands for the extension of the register and
    /// the commit together. After want of memory nothing has changed.
    pub fn commit(&mut self, batch: Batch<'_>) -> Result<(), Memory>
        ensures variant { self.new.variant ≡ self.old.variant }
        ensures ok { OnOk result (self.new.history
            ≡ with_batch self.old.variant self.old.history (normal_batch (batch_of batch.entry))) }
        ensures err { OnErr result (self.new.history ≡ self.old.history) }
    {
        let batch = normal(batch);
        let Some(requests) = self.requests.checked_add(batch.len() as u64) else {
            return Err(Memory);
        };
        match self.variant {
            Variant::Basic => self.add_batch(&batch, requests),
            Variant::Opt => self.add_to_segment(&batch, requests),
        }
    }

    // Basic: one more batch.
    fn add_batch(&mut self, batch: &Batch<'_>, requests: u64) -> Result<(), Memory>
        requires { requests ≡ total_of self.old.history.batches + size_of (batch_of batch.now) }
        ensures variant { self.new.variant ≡ self.old.variant }
        ensures ok { OnOk result (self.new.history
            ≡ with_batch Basic self.old.history (batch_of batch.now)) }
        ensures err { OnErr result (self.new.history ≡ self.old.history) }
    {
        let kept = KeptBatch::copy_of(self.alloc, batch)?;
        self.batches.push(kept)?;
        self.requests = requests;
        Ok(())
    }

    // Opt: one more batch, in the open segment or a new one.
    fn add_to_segment(&mut self, batch: &Batch<'_>, requests: u64) -> Result<(), Memory>
        requires { requests ≡ total_of self.old.history.batches + size_of (batch_of batch.now) }
        ensures variant { self.new.variant ≡ self.old.variant }
        ensures ok { OnOk result (self.new.history
            ≡ with_batch Opt self.old.history (batch_of batch.now)) }
        ensures err { OnErr result (self.new.history ≡ self.old.history) }
    {
        reserve_one(&mut self.batches, &mut self.current, &mut self.items)?;
        let (kept, current, own) = copies_of(self.alloc, batch)?;
        if !self.is_open {
            self.current.clear();
        }
        self.batches.push_reserved(kept);
        self.current.push_reserved(current);
        self.items.push_reserved(KeptEntry::Own(own));
        self.is_open = true;
        self.requests = requests;
        Ok(())
    }

    /// Extends the register by a value that stands for no batch: a foreign one, or an own one whose
    /// commit doesn't follow. After want of memory nothing has changed.
    pub fn extend(&mut self, value: &Digest) -> Result<(), Memory>
        ensures variant { self.new.variant ≡ self.old.variant }
        ensures ok { (i : Instance)
            → OnOk result (self.new.history ≡ history_after i self.old.history
            (Foreign value.now.bytes)) }
        ensures err { OnErr result (self.new.history ≡ self.old.history) }
    {
        self.items.push(KeptEntry::Value(*value))?;
        Ok(())
    }

    /// Whether a segment is open.
    pub fn is_open(&self) -> bool
        ensures { result ≡ self.now.history.is_open }
    {
        self.is_open
    }

    /// Empties the register. No segment is open.
    pub fn reset(&mut self)
        requires { self.old.history.is_open ≡ false }
        ensures variant { self.new.variant ≡ self.old.variant }
        ensures history { (i : Instance) → self.new.history
            ≡ history_after i self.old.history Reset }
    {
        self.empty_register();
    }

    /// Closes the open segment: the register's items become a closed one. After want of memory
    /// nothing has changed.
    pub fn close(&mut self) -> Result<(), Memory>
        requires { self.old.history.is_open ≡ true }
        ensures variant { self.new.variant ≡ self.old.variant }
        ensures ok { (i : Instance)
            → OnOk result (self.new.history ≡ history_after i self.old.history Close) }
        ensures err { OnErr result (self.new.history ≡ self.old.history) }
    {
        let segment = copy_entries(self.alloc, self.items.as_slice())?;
        self.closed.push(segment)?;
        self.current.clear();
        self.is_open = false;
        Ok(())
    }

    /// Loses power: the register is empty afterwards.
    pub fn power(&mut self)
        ensures variant { self.new.variant ≡ self.old.variant }
        ensures history { (i : Instance) → self.new.history
            ≡ history_after i self.old.history Power }
    {
        self.empty_register();
    }

    fn empty_register(&mut self)
        ensures variant { self.new.variant ≡ self.old.variant }
        ensures history { (i : Instance) → self.new.history
            ≡ history_after i self.old.history Power }
    {
        self.items.clear();
    }

    /// The verdict on a position and a batch. Takes no memory.
    pub fn judge(&self, position: u64, batch: Batch<'_>) -> Verdict
        ensures { result ≡ verdict_on self.now.variant self.now.history position
            (normal_batch (batch_of batch.entry)) }
    {
        let batch = normal(batch);
        match self.variant {
            Variant::Basic => self.judge_live(position, &batch),
            Variant::Opt => self.judge_opt(position, &batch),
        }
    }

    // Opt: the verdict by the life of the history.
    fn judge_opt(&self, position: u64, batch: &Batch<'_>) -> Verdict
        ensures { result ≡ verdict_on Opt self.now.history position (batch_of batch.now) }
    {
        if self.is_open {
            if self.items.is_empty() {
                return Verdict::Lost;
            }
            if !all_own(self.items.as_slice(), self.current.as_slice()) {
                return Verdict::Stale;
            }
        }
        if some_segment_has_value(self.closed.as_slice()) {
            return Verdict::Stale;
        }
        self.judge_live(position, batch)
    }

    // The verdict where the history goes on.
    fn judge_live(&self, position: u64, batch: &Batch<'_>) -> Verdict
        ensures { result ≡ verdict_on Basic self.now.history position (batch_of batch.now) }
    {
        if position == self.requests {
            return Verdict::Fresh;
        }
        let Some(before) = self.requests.checked_sub(batch.len() as u64) else {
            return Verdict::Stale;
        };
        if before != position {
            return Verdict::Stale;
        }
        if last_is(self.batches.as_slice(), batch) {
            Verdict::Again
        } else {
            Verdict::Stale
        }
    }
}
