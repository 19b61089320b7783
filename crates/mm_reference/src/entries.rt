//! Tests of a register's entries.

ghost use Rattle.std.specs.Prelude.{◌≡◌};
ghost use Rattle.mm_model.specs.History.{items_of_all};
ghost use Rattle.mm_model.specs.Standing.{has_value, are_own};
ghost use Rattle.mm_model.specs.Verdicts.{kept_batch, kept_batches, kept_entry, kept_entries, kept_segments, is_entry_of};

use mm_model::{KeptBatch, KeptEntry, some_value};

// Whether an entry is the batch's own.
fn stands_for(entry: &KeptEntry, batch: &KeptBatch) -> bool
    ensures { result ≡ is_entry_of (kept_entry entry.now) (kept_batch batch.now) }
{
    match entry {
        KeptEntry::Own(own) => own.is(batch),
        KeptEntry::Value(_) => false,
    }
}

/// Whether some segment holds a value that stands for no batch.
pub(crate) fn some_segment_has_value(segments: &[Vec<KeptEntry>]) -> bool
    ensures { result ≡ has_value (items_of_all (kept_segments segments.now)) }
{
    'segments: for segment in segments {
        if some_value(segment.as_slice()) {
            return true;
        }
    }
    false
}

/// Whether the entries are those of the batches, one by one.
pub(crate) fn all_own(entries: &[KeptEntry], batches: &[KeptBatch]) -> bool
    ensures { result ≡ are_own (kept_entries entries.now) (kept_batches batches.now) }
{
    if entries.len() != batches.len() {
        return false;
    }
    'entries: for i in 0..entries.len() {
        if !stands_for(&entries[i], &batches[i]) {
            return false;
        }
    }
    true
}
