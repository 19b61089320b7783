//! What is kept of a history's positions, so that a test of what a snapshot says doesn't walk over
//! the history again.

ghost use Rattle.std.specs.Prelude.{◌≡◌, ℕ, List, true, take, length, IfSome};
ghost use Rattle.std.specs.List.{AllByRecursion};
ghost use Rattle.mm_module.specs.Meaning.{state_after};
ghost use Rattle.mm_model.specs.History.{requests_of, items_of_all};
ghost use Rattle.mm_model.specs.Verdicts.{kept_segments};
ghost use Rattle.mm_model.specs.Chains.{Instance};
ghost use Rattle.mm_history.specs.Naming.{marks_of, AreWaymarks, EndsWithCurrent, IsBetween, IsStage, is_inside_batch, is_behind_all};

use crate::lists::HistoryLists;
use crate::marks::HistoryMarks;
use mm_bytes::{Bytes, LONGEST_LINE, Memory};
use mm_digest::{Digest, Variant};
use mm_model::KeptEntry;
use std::alloc::Global;

/// The most bytes that are kept of a state: more than an offer has, which stands in hexadecimal in
/// a line.
const MOST_KEPT: usize = LONGEST_LINE / 2;

/// What is kept of a position.
#[derive(Drop)]
pub struct Waymark {
    /// How many batches are before it.
    pub(crate) count: usize,
    /// How many requests.
    pub(crate) position: u64,
    /// In Basic the summary of those batches; in Opt the register's value after all but the first
    /// `start` of them.
    pub(crate) digest: Digest,
    pub(crate) start: usize,
    /// The first `limit` bytes of the module's state.
    pub(crate) state: Bytes,
    pub(crate) limit: usize,
}

/// What is kept of the place where a segment begins.
#[derive(Clone, Copy)]
pub struct SegmentStart {
    /// How many segments are before it.
    pub(crate) count: usize,
    /// How many entries these have.
    pub(crate) entries: usize,
    pub(crate) anchor: Digest,
    /// Whether none of them holds a value that stands for no batch.
    pub(crate) is_clean: bool,
}

/// What is kept of a history's positions and of the beginnings of its segments.
#[derive(Drop)]
pub struct Waymarks {
    pub(crate) marks: Vec<Waymark>,
    pub(crate) stages: Vec<SegmentStart>,
}

// The first bytes.
fn front(bytes: &[u8], limit: usize) -> &[u8]
    ensures { result.now ≡ take limit bytes.now }
{
    if bytes.len() <= limit {
        return bytes;
    }
    &bytes[..limit]
}

// How many entries these segments have, if it is kept how many those before the last one have.
fn entries_in(stages: &[SegmentStart], closed: &[Vec<KeptEntry>]) -> Option<usize>
    ensures { (id : ℕ) (barrier : List ℕ)
        → AllByRecursion (IsStage id barrier (kept_segments closed.now)) stages.now
        → IfSome result (λ entries. entries ≡ length (items_of_all (kept_segments closed.now))) }
{
    let Some((last, before)) = closed.split_last() else {
        return Some(0);
    };
    match stages.get(before.len()) {
        Some(stage) if stage.count == before.len() => {
            stage.entries.checked_add(last.as_slice().len())
        }
        _ => None,
    }
}

impl Waymarks {
    ghost use Rattle.std.specs.Prelude.{◌≡◌, IfOk};

    /// What is kept of a history's first position.
    pub fn first(
        alloc: Global,
        lists: &HistoryLists,
        marks: &HistoryMarks,
        variant: Variant,
        state: &[u8],
    ) -> Result<Waymarks, Memory>
        ensures { IfOk result (λ ways. (i : Instance) → variant ≡ i.variant
            → marks.now ≡ marks_of i lists.now
            → state.now ≡ state_after i.meaning (requests_of lists.now.batches)
            → EndsWithCurrent lists.now
            → AreWaymarks i.variant i.meaning i.barrier lists.now ways) }
    {
        let mut ways = Waymarks {
            marks: Vec::new(alloc),
            stages: Vec::new(alloc),
        };
        ways.keep(alloc, lists, marks, variant, state)?;
        ways.keep_stage(lists, marks)?;
        Ok(ways)
    }

    /// Keeps the position where the history stands, by what it comes to and the module's state.
    pub fn keep(
        &mut self,
        alloc: Global,
        lists: &HistoryLists,
        marks: &HistoryMarks,
        variant: Variant,
        state: &[u8],
    ) -> Result<(), Memory>
        ensures { (i : Instance) → variant ≡ i.variant → marks.now ≡ marks_of i lists.now
            → state.now ≡ state_after i.meaning (requests_of lists.now.batches)
            → AreWaymarks i.variant i.meaning i.barrier lists.now self.old
            → AreWaymarks i.variant i.meaning i.barrier lists.now self.new }
    {
        let state = Bytes::copy_of(alloc, front(state, MOST_KEPT))?;
        let count = lists.batches().len();
        let digest = match variant {
            Variant::Basic => marks.cell,
            Variant::Opt => marks.own,
        };
        self.marks.push(Waymark {
            count,
            position: marks.total,
            digest,
            start: count.saturating_sub(lists.current().len()),
            state,
            limit: MOST_KEPT,
        })?;
        Ok(())
    }

    /// Keeps the place where the next segment begins, if that where the last one began is kept.
    pub fn keep_stage(&mut self, lists: &HistoryLists, marks: &HistoryMarks) -> Result<(), Memory>
        ensures { (i : Instance) → marks.now ≡ marks_of i lists.now
            → AreWaymarks i.variant i.meaning i.barrier lists.now self.old
            → AreWaymarks i.variant i.meaning i.barrier lists.now self.new }
    {
        let closed = lists.closed();
        let Some(entries) = entries_in(self.stages.as_slice(), closed) else {
            return Ok(());
        };
        self.stages.push(SegmentStart {
            count: closed.len(),
            entries,
            anchor: marks.cell,
            is_clean: !marks.is_marred,
        })?;
        Ok(())
    }
}

/// The index of the first waymark whose position isn't lower, as positions rise.
pub(crate) fn first_from(marks: &[Waymark], position: u64) -> usize {
    marks.partition_point(|mark| mark.position < position)
}

// Whether the position is between those of two waymarks, which are a batch apart.
fn is_inside_batch(before: &Waymark, next: &Waymark, position: u64) -> bool
    ensures { result ≡ is_inside_batch before.now next.now position }
{
    before.count < next.count
        && next.count - before.count == 1
        && before.position < position
        && position < next.position
}

// Whether the position is behind the last batch.
fn is_behind_all(last: &Waymark, all: usize, position: u64) -> bool
    ensures { result ≡ is_behind_all last.now all position }
{
    last.count == all && last.position < position
}

/// Whether the waymarks at this index and before it show that none of so many batches ends at the
/// position.
pub(crate) fn is_between(marks: &[Waymark], at: usize, all: usize, position: u64) -> bool
    ensures { result ≡ true → IsBetween marks.now all position }
{
    let before = match marks.get(at.saturating_sub(1)) {
        Some(before) => before,
        None => return false,
    };
    match marks.get(at) {
        Some(next) => is_inside_batch(before, next, position),
        None => is_behind_all(before, all, position),
    }
}
