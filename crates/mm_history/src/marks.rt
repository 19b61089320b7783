//! What a history comes to.

ghost use Rattle.std.specs.Prelude.{◌≡◌};
ghost use Rattle.mm_model.specs.Chains.{register_of, own_values};
ghost use Rattle.mm_model.specs.History.{extension_value, values_of};
ghost use Rattle.mm_model.specs.Verdicts.{kept_batches, kept_entry, kept_entries};

use crate::known_digests::KnownDigests;
use mm_digest::{Digest, Variant, extended, start, zero};
use mm_model::{KeptBatch, KeptEntry, guard, link};
use mm_module::Batch;

/// What a history comes to.
#[derive(Clone, Copy)]
pub struct HistoryMarks {
    /// How many requests are committed.
    pub total: u64,
    /// The summary, or the anchor.
    pub cell: Digest,
    /// The register's value after the batches of the open segment.
    pub own: Digest,
    /// The register's value.
    pub register: Digest,
    /// Whether the register's items are those of the open segment.
    pub is_own: bool,
    /// Whether a closed segment holds a value that stands for no batch.
    pub is_marred: bool,
}

impl HistoryMarks {
    ghost use Rattle.std.specs.Prelude.{◌≡◌, ◌+◌, ◌<◌, ◌^◌, true, false};
    ghost use Rattle.mm_digest.specs.Messages.{start_digest_of, zero_bytes};
    ghost use Rattle.mm_module.specs.Batch.{size_of};
    ghost use Rattle.mm_module.specs.Batches.{batch_of};
    ghost use Rattle.mm_model.specs.Standing.{digest_of};
    ghost use Rattle.mm_history.specs.Naming.{with_value, emptied_marks, closed_marks, linked_marks, grown_marks, opened_marks};

    /// Those of the first history.
    pub fn first(variant: Variant, id: u8) -> HistoryMarks
        ensures { result ≡ record {
          total = 0;
          cell = digest_of (start_digest_of variant id);
          own = digest_of zero_bytes;
          register = digest_of zero_bytes;
          is_own = true;
          is_marred = false;
        } }
    {
        HistoryMarks {
            total: 0,
            cell: start(variant, id),
            own: zero(),
            register: zero(),
            is_own: true,
            is_marred: false,
        }
    }

    /// After the register took in a value that stands for no batch.
    pub fn with_value(self, known: &mut KnownDigests, value: &Digest) -> HistoryMarks
        ensures { result ≡ with_value self value.now.bytes }
    {
        HistoryMarks {
            register: known.extended(&self.register, value),
            is_own: false,
            ..self
        }
    }

    /// After the register was emptied, by whether no batch is in the open segment.
    pub fn emptied(self, is_clear: bool) -> HistoryMarks
        ensures { result ≡ emptied_marks self is_clear }
    {
        HistoryMarks {
            register: zero(),
            is_own: is_clear,
            ..self
        }
    }

    // The anchor, or the summary, after a segment was closed.
    fn closed_cell(&self, known: &mut KnownDigests, variant: Variant) -> Digest
        ensures { result.bytes ≡ (closed_marks variant self.now true true).cell.bytes }
    {
        match variant {
            Variant::Basic => self.cell,
            Variant::Opt => known.anchored(&self.cell, &self.register),
        }
    }

    /// After the open segment was closed, by whether it holds a value that stands for no batch, and
    /// whether it is empty.
    pub fn closed(
        self,
        known: &mut KnownDigests,
        variant: Variant,
        has_value: bool,
        is_bare: bool,
    ) -> HistoryMarks
        ensures { result ≡ closed_marks variant self has_value is_bare }
    {
        HistoryMarks {
            cell: self.closed_cell(known, variant),
            own: zero(),
            is_own: is_bare,
            is_marred: self.is_marred || has_value,
            ..self
        }
    }

    /// Basic: after one more batch, of this size.
    pub fn linked(self, batch: Batch<'_>, size: u64) -> HistoryMarks
        requires size { size ≡ size_of (batch_of batch) }
        requires fits { self.total + size < 2 ^ 64 }
        ensures { result ≡ linked_marks self (batch_of batch.entry) }
    {
        HistoryMarks {
            total: self.total + size,
            cell: link(&self.cell, batch),
            ..self
        }
    }

    /// After one more batch of this size and guard in the open segment.
    pub fn grown(self, known: &mut KnownDigests, size: u64, guard: &Digest) -> HistoryMarks
        requires { self.total + size < 2 ^ 64 }
        ensures { result ≡ grown_marks self size guard.now.bytes }
    {
        HistoryMarks {
            total: self.total + size,
            own: known.extended(&self.own, guard),
            register: known.extended(&self.register, guard),
            ..self
        }
    }

    /// After a batch of this size and guard opened a segment, by what the register reads then and
    /// whether it had at most one item before.
    pub fn opened(self, size: u64, guard: &Digest, register: Digest, is_alone: bool) -> HistoryMarks
        requires { self.total + size < 2 ^ 64 }
        ensures { result ≡ opened_marks self size guard.now.bytes register.bytes is_alone }
    {
        HistoryMarks {
            total: self.total + size,
            own: extended(&zero(), guard),
            register,
            is_own: is_alone,
            ..self
        }
    }
}

// The value by which an entry extended the register.
fn value(barrier: &[u8; 32], entry: &KeptEntry) -> Digest
    ensures { result.bytes ≡ extension_value barrier.now (kept_entry entry.now) }
{
    match entry {
        KeptEntry::Own(batch) => guard(barrier, batch.lent()),
        KeptEntry::Value(value) => *value,
    }
}

/// The value of a register that took in these entries since it was zero.
pub(crate) fn register_of(barrier: &[u8; 32], entries: &[KeptEntry]) -> Digest
    ensures { result.bytes ≡ register_of (values_of barrier.now (kept_entries entries.now)) }
{
    let mut register = zero();
    'entries: for entry in entries {
        register = extended(&register, &value(barrier, entry));
    }
    register
}

/// The value of a register that took in these batches since it was zero.
pub(crate) fn own_register(barrier: &[u8; 32], batches: &[KeptBatch]) -> Digest
    ensures { result.bytes ≡ register_of (own_values barrier.now (kept_batches batches.now)) }
{
    let mut register = zero();
    'batches: for batch in batches {
        register = extended(&register, &guard(barrier, batch.lent()));
    }
    register
}
