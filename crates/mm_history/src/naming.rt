//! Whether what a right offer says names a position of the history.

ghost use Rattle.std.specs.Prelude.{◌≡◌, ℕ, List, [], ◌∷◌, ◌++◌, ◌+◌, ◌<◌, ◌≤◌, ◌==◌, ◌&&◌, ◌||◌, ◌-◌, false, take, drop, length, option_map, IfSome, IfOk, nat_lt, nat_le, map};
ghost use Rattle.std.specs.List.{AllByRecursion, list_any};
ghost use Rattle.std.specs.Str.{bytes_eq};
ghost use Rattle.mm_digest.specs.Messages.{zero_bytes};
ghost use Rattle.mm_modules.specs.Modules.{meaning_of};
ghost use Rattle.mm_module.specs.Meaning.{state_after};
ghost use Rattle.mm_digest.specs.declared.variant.Variant.TheVariants.{Opt};
ghost use Rattle.mm_model.specs.Chains.{register_of, summary_of, own_values, instance_by};
ghost use Rattle.mm_model.specs.History.{RegisterEntry, items_of_all, requests_of};
ghost use Rattle.mm_model.specs.Standing.{is_empty, NamesPosition};
ghost use Rattle.mm_model.specs.Moves.{is_long};
ghost use Rattle.mm_seal.specs.Parts.{content_of};
ghost use Rattle.mm_model.specs.Verdicts.{kept_batches, kept_entries, kept_segments};
ghost use Rattle.mm_history.specs.Naming.{BasicNamesAreDecided, OptNamesAreDecided, first_with, anchor_at, is_at, is_behind, is_here};
ghost use Rattle.mm_history.specs.Naming.{is_inside_at, is_within, some_place, is_place_in, IsDecided, AreWaymarks, BeginsBefore};
ghost use Rattle.mm_history.specs.Naming.{EndsWithCurrent, IsStage, IsWaymark, digest_behind, stage_at};

use crate::lists::HistoryLists;
use crate::marks::{own_register, register_of};
use crate::waymarks::{SegmentStart, Waymark, Waymarks, first_from, is_between};
use mm_bytes::{Bytes, Memory};
use mm_digest::{Digest, Variant, anchored, start, zero};
use mm_model::{BatchRun, KeptBatch, KeptEntry, link, run_batch, some_value};
use mm_module::Module;
use mm_modules::AnyModule;
use mm_seal::{Body, Place};
use std::alloc::Global;

/// A test from end to end decides whether what a snapshot says names a position of a history, in
/// either variant.
pub fn names_are_decided()
    ensures basic { BasicNamesAreDecided }
    ensures opt { OptNamesAreDecided }
{}

// How many first batches have so many requests, if there are such.
fn first_with(batches: &[KeptBatch], position: u64) -> Option<usize>
    ensures front { option_map (λ (count : _). take count (kept_batches batches.now)) result
        ≡ first_with position (kept_batches batches.now) }
    ensures within { IfSome result (λ count. count ≤ length batches.now) }
{
    let mut left = position;
    let mut count = 0;
    'batches: for batch in batches {
        if left == 0 {
            return Some(count);
        }
        let size = batch.lent().len() as u64;
        if size > left {
            return None;
        }
        left -= size;
        count += 1;
    }
    if left == 0 { Some(count) } else { None }
}

// The module's state after these batches, run from its first state.
fn state_after(alloc: Global, module: &AnyModule, batches: &[KeptBatch]) -> Result<Bytes, Memory>
    requires { list_any is_long (kept_batches batches.now) ≡ false }
    ensures { IfOk result (λ state. state
        ≡ state_after (meaning_of «module».now) (requests_of (kept_batches batches.now))) }
{
    let mut state = module.first_state(alloc)?;
    'batches: for batch in batches {
        let BatchRun { state: next, .. } = run_batch(
            alloc,
            module,
            state.as_slice(),
            batch.lent(),
        )?;
        state = next;
    }
    Ok(state)
}

// The summary of these batches.
fn summary_of(id: u8, batches: &[KeptBatch]) -> Digest
    ensures { result.bytes ≡ summary_of id (kept_batches batches.now) }
{
    let mut summary = start(Variant::Basic, id);
    'batches: for batch in batches {
        summary = link(&summary, batch.lent());
    }
    summary
}

// Whether two digests are the same.
fn same_digest(one: &Digest, other: &Digest) -> bool
    ensures { result ≡ bytes_eq one.now.bytes other.now.bytes }
{
    *one == *other
}

// Whether the bytes are the same.
fn same_bytes(one: &[u8], other: &[u8]) -> bool
    ensures { result ≡ bytes_eq one.now other.now }
{
    one == other
}

// Whether a digest is zero.
fn is_zero(digest: &Digest) -> bool
    ensures { result ≡ bytes_eq digest.now.bytes zero_bytes }
{
    *digest == zero()
}

// A place that is looked for: behind these first batches, at an anchor and what extends it. The
// register's value after all but the first `start` batches is known.
#[derive(Clone, Copy)]
struct SoughtPlace<'a> {
    named: &'a [KeptBatch],
    start: usize,
    register: &'a Digest,
    anchor: &'a Digest,
    extension: &'a Digest,
}

// Whether the place is at this anchor, behind so many entries.
fn is_at(is_clean: bool, here: &Digest, start: usize, sought: &SoughtPlace<'_>) -> bool
    ensures { result ≡ is_at is_clean here.now.bytes start (kept_batches sought.now.named.now)
        sought.now.anchor.now.bytes
        sought.now.extension.now.bytes }
{
    if !is_clean {
        return false;
    }
    if sought.named.len() != start {
        return false;
    }
    if !same_digest(sought.anchor, here) {
        return false;
    }
    is_zero(sought.extension)
}

// The register's value after the named batches but the first ones.
fn register_behind(barrier: &[u8; 32], start: usize, sought: &SoughtPlace<'_>) -> Digest
    requires within { start < length sought.now.named.now }
    requires register { sought.now.register.now.bytes ≡ register_of (own_values barrier.now
        (drop sought.now.start (kept_batches sought.now.named.now))) }
    ensures { result.bytes
        ≡ register_of (own_values barrier.now (drop start (kept_batches sought.now.named.now))) }
{
    if start == sought.start {
        return *sought.register;
    }
    own_register(barrier, &sought.named[start..])
}

// Whether the place is behind this anchor, in a segment that starts behind so many entries.
fn is_behind(barrier: &[u8; 32], here: &Digest, start: usize, sought: &SoughtPlace<'_>) -> bool
    requires register { sought.now.register.now.bytes ≡ register_of (own_values barrier.now
        (drop sought.now.start (kept_batches sought.now.named.now))) }
    ensures { result ≡ is_behind barrier.now here.now.bytes start
        (kept_batches sought.now.named.now)
        sought.now.anchor.now.bytes sought.now.extension.now.bytes }
{
    if start >= sought.named.len() {
        return false;
    }
    if !same_digest(sought.anchor, here) {
        return false;
    }
    same_digest(sought.extension, &register_behind(barrier, start, sought))
}

// Whether the place is inside the open segment, whose batches are the last of all.
fn is_inside(
    lists: &HistoryLists,
    barrier: &[u8; 32],
    last: &Digest,
    sought: &SoughtPlace<'_>,
) -> bool
    requires register { sought.now.register.now.bytes ≡ register_of (own_values barrier.now
        (drop sought.now.start (kept_batches sought.now.named.now))) }
    requires ends { EndsWithCurrent lists.now }
    ensures { result ≡ is_inside_at barrier.now last.now.bytes lists.now
        (kept_batches sought.now.named.now)
        sought.now.anchor.now.bytes sought.now.extension.now.bytes }
{
    let start = lists.batches().len().saturating_sub(lists.current().len());
    is_behind(barrier, last, start, sought)
}

// The anchor after these segments.
fn anchor_at(id: u8, barrier: &[u8; 32], closed: &[Vec<KeptEntry>]) -> Digest
    ensures { result.bytes ≡ anchor_at id barrier.now (kept_segments closed.now) }
{
    let mut anchor = start(Variant::Opt, id);
    'closed: for segment in closed {
        anchor = anchored(&anchor, &register_of(barrier, segment.as_slice()));
    }
    anchor
}

// Where the first segment begins.
fn first_stage(id: u8) -> SegmentStart
    ensures { (barrier : List ℕ) → result ≡ stage_at id barrier [] }
{
    SegmentStart {
        count: 0,
        entries: 0,
        anchor: start(Variant::Opt, id),
        is_clean: true,
    }
}

// The anchor after all these segments, which was kept or is computed.
fn last_anchor(
    id: u8,
    barrier: &[u8; 32],
    stages: &[SegmentStart],
    closed: &[Vec<KeptEntry>],
) -> Digest
    requires { AllByRecursion (IsStage id barrier.now (kept_segments closed.now)) stages.now }
    ensures { result.bytes ≡ anchor_at id barrier.now (kept_segments closed.now) }
{
    match stages.get(closed.len()) {
        Some(stage) => {
            if stage.count == closed.len() {
                stage.anchor
            } else {
                anchor_at(id, barrier, closed)
            }
        }
        None => anchor_at(id, barrier, closed),
    }
}

// Where the next segment begins, as it was kept or is computed: by how many segments are before it,
// with how many entries, and where the one with these items begins.
fn stage_behind(
    barrier: &[u8; 32],
    stages: &[SegmentStart],
    count: usize,
    entries: usize,
    here: &SegmentStart,
    items: &[KeptEntry],
) -> SegmentStart
    ensures { (id : ℕ) → (before later : List (List RegisterEntry))
        → here.now ≡ stage_at id barrier.now before
        → count ≡ length before + 1
        → entries ≡ length (items_of_all (before ++ kept_entries items.now ∷ []))
        → AllByRecursion (IsStage id barrier.now (before ++ kept_entries items.now ∷ later))
        stages.now
        → result ≡ stage_at id barrier.now (before ++ kept_entries items.now ∷ []) }
{
    if let Some(stage) = stages.get(count)
        && stage.count == count
    {
        return *stage;
    }
    SegmentStart {
        count,
        entries,
        anchor: anchored(&here.anchor, &register_of(barrier, items)),
        is_clean: both(here.is_clean, !some_value(items)),
    }
}

// Whether the place is within a segment of this size, by whether it is the end.
fn is_within(start: usize, sought: &SoughtPlace<'_>, size: usize, ends: bool) -> bool
    ensures { result ≡ is_within start (kept_batches sought.now.named.now) size ends }
{
    if sought.named.len().saturating_sub(start) <= size {
        return true;
    }
    ends
}

// Whether the place is at the segment that comes next, which has so many entries: by whether it is
// the end.
fn is_here(
    is_clean: bool,
    barrier: &[u8; 32],
    here: &Digest,
    start: usize,
    sought: &SoughtPlace<'_>,
    size: usize,
    ends: bool,
) -> bool
    requires register { sought.now.register.now.bytes ≡ register_of (own_values barrier.now
        (drop sought.now.start (kept_batches sought.now.named.now))) }
    ensures { result ≡ is_here is_clean barrier.now here.now.bytes start
        (kept_batches sought.now.named.now)
        size ends sought.now.anchor.now.bytes sought.now.extension.now.bytes }
{
    if is_at(is_clean, here, start, sought) {
        return true;
    }
    if !is_within(start, sought, size, ends) {
        return false;
    }
    is_behind(barrier, here, start, sought)
}

fn both(one: bool, other: bool) -> bool
    ensures { result ≡ (one && other) }
{
    one && other
}

// Where a walk over the segments to a place behind so many batches begins: at the last kept place
// with fewer entries before it, if a segment is behind that, and else where the first segment
// begins.
fn stage_before(id: u8, stages: &[SegmentStart], closed: usize, size: usize) -> SegmentStart
    ensures { (barrier : List ℕ) (segments : List (List RegisterEntry))
        → closed ≡ length segments
        → AllByRecursion (IsStage id barrier segments) stages.now
        → BeginsBefore id barrier segments size result }
{
    let behind = stages.partition_point(|stage| stage.entries < size);
    match stages.get(behind.min(closed).saturating_sub(1)) {
        Some(stage) if stage.count < closed && stage.entries < size => *stage,
        _ => first_stage(id),
    }
}

// Whether it is some place of Opt, from where the first of the last segments begins.
fn some_place_from(
    lists: &HistoryLists,
    stages: &[SegmentStart],
    id: u8,
    barrier: &[u8; 32],
    sought: &SoughtPlace<'_>,
    first: &SegmentStart,
    closed: &[Vec<KeptEntry>],
) -> bool
    requires register { sought.now.register.now.bytes ≡ register_of (own_values barrier.now
        (drop sought.now.start (kept_batches sought.now.named.now))) }
    requires ends { EndsWithCurrent lists.now }
    requires stages { AllByRecursion (IsStage id barrier.now lists.now.closed) stages.now }
    requires first { first.now ≡ stage_at id barrier.now
        (take first.now.count lists.now.closed) }
    requires closed { kept_segments closed.now ≡ drop first.now.count lists.now.closed }
    requires fits { first.now.entries ≤ length sought.now.named.now }
    ensures { result ≡ some_place id barrier.now lists.now (kept_batches sought.now.named.now)
        sought.now.anchor.now.bytes
        sought.now.extension.now.bytes (take first.now.count lists.now.closed)
        (drop first.now.count lists.now.closed) }
{
    let all = lists.closed();
    let is_shut = lists.is_clear();
    let last = last_anchor(id, barrier, stages, all);
    let mut here = *first;
    let mut entries = first.entries;
    let mut later = closed.len();
    'closed: for segment in closed {
        later -= 1;
        let items = segment.as_slice();
        let size = items.len();
        let ends = both(later == 0, is_shut);
        if is_here(
            here.is_clean,
            barrier,
            &here.anchor,
            entries,
            sought,
            size,
            ends,
        ) {
            return true;
        }
        if size > sought.named.len() - entries {
            return is_inside(lists, barrier, &last, sought);
        }
        entries += size;
        here = stage_behind(
            barrier,
            stages,
            all.len().saturating_sub(later),
            entries,
            &here,
            items,
        );
    }
    if is_at(here.is_clean, &here.anchor, entries, sought) {
        return true;
    }
    is_inside(lists, barrier, &last, sought)
}

// The segments from one on.
fn segments_from(closed: &[Vec<KeptEntry>], count: usize) -> &[Vec<KeptEntry>]
    requires { count ≤ length closed.now }
    ensures { result.now ≡ drop count closed.now }
{
    &closed[count..]
}

// Whether it is some place of Opt.
fn some_place(
    lists: &HistoryLists,
    stages: &[SegmentStart],
    id: u8,
    barrier: &[u8; 32],
    sought: &SoughtPlace<'_>,
) -> bool
    requires register { sought.now.register.now.bytes ≡ register_of (own_values barrier.now
        (drop sought.now.start (kept_batches sought.now.named.now))) }
    requires ends { EndsWithCurrent lists.now }
    requires stages { AllByRecursion (IsStage id barrier.now lists.now.closed) stages.now }
    ensures { result ≡ some_place id barrier.now lists.now (kept_batches sought.now.named.now)
        sought.now.anchor.now.bytes
        sought.now.extension.now.bytes [] lists.now.closed }
{
    let closed = lists.closed();
    let first = stage_before(id, stages, closed.len(), sought.named.len());
    some_place_from(
        lists,
        stages,
        id,
        barrier,
        sought,
        &first,
        segments_from(closed, first.count),
    )
}

// What is known of a position: the batches before it; and in Basic their summary, in Opt the
// register's value after all but the first `start` of them.
#[derive(Clone, Copy)]
struct KnownPlace<'a> {
    named: &'a [KeptBatch],
    start: usize,
    digest: &'a Digest,
}

// Whether it is a place of the position.
fn is_place(
    lists: &HistoryLists,
    stages: &[SegmentStart],
    variant: Variant,
    id: u8,
    barrier: &[u8; 32],
    known: &KnownPlace<'_>,
    place: &Place,
) -> bool
    requires digest { known.now.digest.now.bytes ≡ digest_behind variant id barrier.now
        known.now.start (kept_batches known.now.named.now) }
    requires ends { variant ≡ Opt → EndsWithCurrent lists.now }
    requires stages { variant ≡ Opt
        → AllByRecursion (IsStage id barrier.now lists.now.closed) stages.now }
    ensures { result ≡ is_place_in variant id barrier.now lists.now
        (kept_batches known.now.named.now)
        place.now }
{
    match variant {
        Variant::Basic => match place {
            Place::Basic(summary) => same_digest(summary, known.digest),
            Place::Opt { .. } => false,
        },
        Variant::Opt => match place {
            Place::Basic(_) => false,
            Place::Opt { anchor, extension } => some_place(
                lists,
                stages,
                id,
                barrier,
                &SoughtPlace {
                    named: known.named,
                    start: known.start,
                    register: known.digest,
                    anchor,
                    extension,
                },
            ),
        },
    }
}

// What a position of which nothing is kept has for `KnownPlace`, where all its batches are left
// out.
fn digest_anew(variant: Variant, id: u8, named: &[KeptBatch]) -> Digest
    ensures { (barrier : List ℕ) → result.bytes ≡ digest_behind variant id barrier
        (length named.now)
        (kept_batches named.now) }
{
    match variant {
        Variant::Basic => summary_of(id, named),
        Variant::Opt => zero(),
    }
}

// Whether what a right offer says names a position, of which nothing was kept. Runs the module only
// where the place is one.
fn is_named_anew(
    alloc: Global,
    lists: &HistoryLists,
    ways: &Waymarks,
    variant: Variant,
    module: &AnyModule,
    barrier: &[u8; 32],
    body: &Body<'_>,
) -> Result<bool, Memory>
    requires short { list_any is_long lists.now.batches ≡ false }
    requires ways { AreWaymarks variant (meaning_of «module».now) barrier.now lists.now ways.now }
    ensures { IfOk result (λ yes. (key : List ℕ) → IsDecided yes
        (NamesPosition (instance_by variant (meaning_of «module».now) key barrier.now) lists.now
        (content_of body.now))) }
{
    let batches = lists.batches();
    let count = match first_with(batches, body.position) {
        None => return Ok(false),
        Some(count) => count,
    };
    let named = &batches[..count];
    let id = module.id();
    let known = KnownPlace {
        named,
        start: named.len(),
        digest: &digest_anew(variant, id, named),
    };
    if !is_place(
        lists,
        ways.stages.as_slice(),
        variant,
        id,
        barrier,
        &known,
        &body.place,
    ) {
        return Ok(false);
    }
    let state = state_after(alloc, module, named)?;
    Ok(same_bytes(body.state, state.as_slice()))
}

// Whether the state is that behind these batches, which was kept if it isn't too long.
fn is_state(
    alloc: Global,
    module: &AnyModule,
    named: &[KeptBatch],
    mark: &Waymark,
    state: &[u8],
) -> Result<bool, Memory>
    requires short { list_any is_long (kept_batches named.now) ≡ false }
    requires kept { mark.now.state ≡ take mark.now.limit
        (state_after (meaning_of «module».now) (requests_of (kept_batches named.now))) }
    ensures { IfOk result (λ same. same ≡ bytes_eq state.now
        (state_after (meaning_of «module».now) (requests_of (kept_batches named.now)))) }
{
    if state.len() < mark.limit {
        return Ok(same_bytes(state, mark.state.as_slice()));
    }
    let there = state_after(alloc, module, named)?;
    Ok(same_bytes(state, there.as_slice()))
}

// Whether what a right offer says names the position of a waymark.
fn is_named_at(
    alloc: Global,
    lists: &HistoryLists,
    ways: &Waymarks,
    variant: Variant,
    module: &AnyModule,
    barrier: &[u8; 32],
    body: &Body<'_>,
    mark: &Waymark,
) -> Result<bool, Memory>
    requires short { list_any is_long lists.now.batches ≡ false }
    requires ways { AreWaymarks variant (meaning_of «module».now) barrier.now lists.now ways.now }
    requires mark { IsWaymark variant (meaning_of «module».now) barrier.now
        lists.now.batches mark.now }
    requires position { body.now.position ≡ mark.now.position }
    ensures { IfOk result (λ yes. (key : List ℕ) → IsDecided yes
        (NamesPosition (instance_by variant (meaning_of «module».now) key barrier.now) lists.now
        (content_of body.now))) }
{
    let batches = lists.batches();
    let named = &batches[..mark.count];
    let known = KnownPlace {
        named,
        start: mark.start,
        digest: &mark.digest,
    };
    if !is_place(
        lists,
        ways.stages.as_slice(),
        variant,
        module.id(),
        barrier,
        &known,
        &body.place,
    ) {
        return Ok(false);
    }
    is_state(alloc, module, named, mark, body.state)
}

/// Whether what a right offer says names a position of the history, whatever the key: by what was
/// kept of the position, and else by a walk over the history.
pub fn is_named(
    alloc: Global,
    lists: &HistoryLists,
    ways: &Waymarks,
    variant: Variant,
    module: &AnyModule,
    barrier: &[u8; 32],
    body: &Body<'_>,
) -> Result<bool, Memory>
    requires short { list_any is_long lists.now.batches ≡ false }
    requires ways { AreWaymarks variant (meaning_of «module».now) barrier.now lists.now ways.now }
    ensures { IfOk result (λ yes. (key : List ℕ) → IsDecided yes
        (NamesPosition (instance_by variant (meaning_of «module».now) key barrier.now) lists.now
        (content_of body.now))) }
{
    let marks = ways.marks.as_slice();
    let at = first_from(marks, body.position);
    if let Some(mark) = marks.get(at)
        && mark.position == body.position
    {
        return is_named_at(alloc, lists, ways, variant, module, barrier, body, mark);
    }
    if is_between(marks, at, lists.batches().len(), body.position) {
        return Ok(false);
    }
    is_named_anew(alloc, lists, ways, variant, module, barrier, body)
}
