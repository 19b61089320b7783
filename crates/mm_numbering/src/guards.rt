//! The guards of the batches that are asked, and the values of others among them.

ghost use Rattle.std.specs.Prelude.{◌≡◌, true, ◌||◌, ◌++◌, ℕ, List, [], ◌∷◌, map, length, ◌≤◌, Option, Some, IfOk, OnOk};
ghost use Rattle.std.specs.BTreeSet.{contains};
ghost use Rattle.std.specs.Cmp.Lexicographic.{slice_cmp};
ghost use Rattle.std.specs.List.{list_any};
ghost use Rattle.std.specs.Ordering.{nat_cmp};
ghost use Rattle.std.specs.Str.{bytes_eq};
ghost use Rattle.mm_bytes.specs.Limits.{most_events};
ghost use Rattle.mm_module.specs.Batch.{normal_batch};
ghost use Rattle.mm_module.specs.Batches.{batch_of};
ghost use Rattle.mm_model.specs.Chains.{guard, own_values};
ghost use Rattle.mm_model.specs.Moves.{is_long};
ghost use Rattle.mm_schedule.specs.Events.{event_of, meddles_of};
ghost use Rattle.mm_outcome.specs.OneRun.{world_barrier};
ghost use Rattle.mm_outcome.specs.Premises.{batches_of, event_foreign_values, asked_batches};
ghost use Rattle.mm_numbering.specs.Listing.{number_of_first, has_foreign_value, is_secured, events_of, batches_unless_long, digest_items};
ghost use Rattle.mm_numbering.specs.Listing.{HasAll, secured_event_by};

use mm_bytes::Memory;
use mm_digest::{Digest, Variant};
use mm_model::{guard, is_long, normal};
use mm_module::Batch;
use mm_platform::Meddle;
use mm_schedule::{Event, Meddles};
use std::alloc::Global;
use std::collections::BTreeSet;

/// The barrier of each world: the bytes 20 to 3f.
#[tactic(auto, unfolding(mm_outcome::specs::OneRun::rising_bytes_from))]
fn barrier() -> [u8; 32]
    ensures { result ≡ world_barrier }
{
    [
        32, 33, 34, 35, 36, 37, 38, 39, 40, 41, 42, 43, 44, 45, 46, 47, 48, 49, 50, 51, 52, 53, 54,
        55, 56, 57, 58, 59, 60, 61, 62, 63,
    ]
}

/// The guard of a batch.
fn guard_of(batch: Batch<'_>) -> Digest
    ensures { result.bytes ≡ guard world_barrier (normal_batch (batch_of batch.entry)) }
{
    guard(&barrier(), normal(batch))
}

/// The guard of a batch that isn't too long.
fn guard_unless_long(batch: Batch<'_>) -> Option<Digest>
    ensures { digest_items result ≡ own_values world_barrier
        (batches_unless_long (batch_of batch.entry)) }
{
    if is_long(&batch) {
        return None;
    }
    Some(guard_of(batch))
}

/// The guard of the batch that an event asks, if it isn't too long.
fn guard_in(event: &Event) -> Option<Digest>
    ensures { digest_items result ≡ own_values world_barrier (batches_of (event_of event.now)) }
{
    match event {
        Event::Ask { request, .. } => guard_unless_long(Batch::One(request.as_slice())),
        Event::Batch { text, .. } => guard_unless_long(Batch::Many(text.as_slice())),
        _ => None,
    }
}

/// Puts a digest into a set.
fn put(set: &mut BTreeSet<[u8; 32]>, digest: [u8; 32]) -> Result<(), Memory>
    ensures { OnOk result ((d : List ℕ) → contains (slice_cmp nat_cmp) set.new d
        ≡ (bytes_eq d digest || contains (slice_cmp nat_cmp) set.old d)) }
{
    let Ok(_) = set.insert(digest) else {
        return Err(Memory);
    };
    Ok(())
}

/// Adds the guard of an event's batch.
fn add_guard(set: &mut BTreeSet<[u8; 32]>, event: &Event) -> Result<(), Memory>
    ensures { (guards : List (List ℕ)) → HasAll guards set.old
        → OnOk result
        (HasAll (guards ++ own_values world_barrier (batches_of (event_of event.now))) set.new) }
{
    match guard_in(event) {
        Some(guard) => put(set, guard.bytes),
        None => Ok(()),
    }
}

/// The guards of the batches that these events ask.
fn guards_of(alloc: Global, events: &[Event]) -> Result<BTreeSet<[u8; 32]>, Memory>
    ensures { IfOk result
        (HasAll (own_values world_barrier (asked_batches (events_of events.now)))) }
{
    let mut guards = BTreeSet::new(alloc);
    'events: for event in events {
        add_guard(&mut guards, event)?;
    }
    Ok(guards)
}

fn brings(guards: &BTreeSet<[u8; 32]>, meddle: &Meddle) -> bool
    ensures { result ≡ contains (slice_cmp nat_cmp) guards.now meddle.now.value.bytes }
{
    guards.contains(&meddle.value.bytes)
}

/// Whether others bring a value of the set before some step.
fn some_meddle(guards: &BTreeSet<[u8; 32]>, meddles: &Meddles) -> bool
    ensures { result ≡ list_any (λ m. contains (slice_cmp nat_cmp) guards.now m.value.bytes)
        (meddles_of meddles.now) }
{
    meddles.listed().iter().any(|meddle| brings(guards, meddle))
}

/// Whether others extend the register by a value of the set.
#[tactic(auto, using(crate::proofs::GuardLaws::any_value))]
fn brings_some(guards: &BTreeSet<[u8; 32]>, event: &Event) -> bool
    ensures { result ≡ list_any (contains (slice_cmp nat_cmp) guards.now)
        (event_foreign_values (event_of event.now)) }
{
    match event {
        Event::Ask { meddles, .. } => some_meddle(guards, meddles),
        Event::Batch { meddles, .. } => some_meddle(guards, meddles),
        Event::Checkpoint { meddles, .. } => some_meddle(guards, meddles),
        Event::Power => false,
        Event::Extend { value } => guards.contains(&value.bytes),
    }
}

/// The first event, from 1, at which others extend the register by a value of the set.
fn first_among(guards: &BTreeSet<[u8; 32]>, events: &[Event]) -> Option<u32>
    requires { length events.now ≤ most_events }
    ensures { (known : List (List ℕ)) → HasAll known guards.now
        → result ≡ number_of_first (is_secured known) (events_of events.now) }
{
    'events: for index in 0..events.len() {
        if brings_some(guards, &events[index]) {
            return Some(index as u32 + 1);
        }
    }
    None
}

/// Whether others bring any value before some step.
fn some_value(meddles: &Meddles) -> bool
    ensures { result ≡ list_any (λ m. true) (meddles_of meddles.now) }
{
    !meddles.listed().is_empty()
}

/// Whether others extend the register at an event.
#[tactic(auto, using(crate::proofs::GuardLaws::any_value))]
fn brings_value(event: &Event) -> bool
    ensures { result ≡ has_foreign_value (event_of event.now) }
{
    match event {
        Event::Ask { meddles, .. } => some_value(meddles),
        Event::Batch { meddles, .. } => some_value(meddles),
        Event::Checkpoint { meddles, .. } => some_value(meddles),
        Event::Power => false,
        Event::Extend { .. } => true,
    }
}

/// Whether others extend the register at some event.
fn some_bring(events: &[Event]) -> bool
    ensures { result ≡ list_any (λ event. has_foreign_value (event_of event)) events.now }
{
    events.iter().any(brings_value)
}

/// The first event at which others extend the register by the guard of a batch that the run asks.
/// In Basic nothing is asked of them. Where others bring nothing, no guard is made.
#[tactic(auto, using(crate::proofs::GuardLaws::none_bring))]
pub fn first_secured(
    alloc: Global,
    variant: Variant,
    events: &[Event],
) -> Result<Option<u32>, Memory>
    requires { length events.now ≤ most_events }
    ensures { IfOk result
        (λ found. found ≡ secured_event_by variant world_barrier (events_of events.now)) }
{
    match variant {
        Variant::Basic => Ok(None),
        Variant::Opt if !some_bring(events) => Ok(None),
        Variant::Opt => {
            let guards = guards_of(alloc, events)?;
            Ok(first_among(&guards, events))
        }
    }
}
