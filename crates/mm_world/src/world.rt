//! A world: a seat that goes on event by event, from its first snapshot on.

use crate::keys::world_secrets;
use crate::seat::Seat;
use crate::views::{EventView, line_view, owned_view};
use mm_bytes::Memory;
use mm_platform::MemPlatform;
use mm_schedule::{Event, EventText, Header, Meddles, Reply};
use std::alloc::Global;
use std::marker::Model;

/// A world, which contracts see by digests: the header, where it stands, the issued snapshots by
/// their numbers, and the counts of steps.
#[derive(Drop)]
pub struct World {
    seat: Seat,
}

impl Model for World {
    ghost use Rattle.mm_outcome.specs.OneRun.{WorldState};
    ghost use Rattle.mm_world.specs.WorldStanding.{world_in, KeepsWorld};

    ghost Value = { WorldState };

    ghost view = { λ w. world_in w.seat };

    ghost invariant = { λ w. KeepsWorld w.seat };
}

impl World {
    ghost use Rattle.std.specs.Prelude.{◌≡◌, ◌<◌, ◌≤◌, ◌+◌, ◌-◌, ◌^◌, IfOk, OnErr, length, slice_get, option_copied};
    ghost use Rattle.std.specs.List.{sum_by};
    ghost use Rattle.mm_bytes.specs.Limits.{most_members};
    ghost use Rattle.mm_schedule.specs.Events.{event_of, meddles_of};
    ghost use Rattle.mm_schedule.specs.Events as texts;
    ghost use Rattle.mm_schedule.specs.Replies.{IsPrintable};
    ghost use Rattle.mm_outcome.specs.OneRun.{first_world_state, outcome_in, WorldFollows, WorldLacksMemory};
    ghost use Rattle.mm_world.specs.WorldStanding.{HoldsWorld};
    ghost use Rattle.mm_world.specs.Lengths.{within_64, event_of_view};

    /// A new world: the platform is provisioned for the header's module, and its first snapshot has
    /// number 0.
    pub fn new(alloc: Global, header: &Header) -> Result<World, Memory>
        ensures { IfOk result (λ world. world ≡ first_world_state header.now) }
    {
        match Seat::first(alloc, *header, &world_secrets()) {
            Err(memory) => Err(memory),
            Ok(seat) => Ok(World { seat }),
        }
    }

    /// Follows one event, and answers it. After want of memory nothing has changed, but that a call
    /// may have made its reading steps.
    pub fn event(&mut self, event: &Event) -> Result<Reply, Memory>
        requires { length self.old.issued < 2 ^ 32 - 1 }
        ensures ok { IfOk result
            (WorldFollows (outcome_in self.old (event_of event.now)) self.old self.new) }
        ensures wants { OnErr result (WorldLacksMemory (event_of event.now) self.old self.new) }

        // The reply can be printed; at most one snapshot is issued, and at most 64 requests are
        // committed.
        ensures printable { IfOk result IsPrintable }
        ensures grows { length self.new.issued ≤ length self.old.issued + 1 }
        ensures few { (outcome_in self.old (event_of event.now)).state.count
            ≤ self.old.digests.count + most_members }
    {
        self.follow(owned_view(event))
    }

    /// Follows one event as it lies in its line, with its meddles, and answers it, as `event` does.
    pub fn event_in_line(&mut self, meddles: &Meddles, text: EventText<'_>) -> Result<Reply, Memory>
        requires { length self.old.issued < 2 ^ 32 - 1 }
        ensures ok { IfOk result (WorldFollows
            (outcome_in self.old (texts.event_in (meddles_of meddles.now) text.entry))
            self.old self.new) }
        ensures wants { OnErr result
            (WorldLacksMemory (texts.event_in (meddles_of meddles.now) text.entry)
            self.old self.new) }
        ensures printable { IfOk result IsPrintable }
        ensures grows { length self.new.issued ≤ length self.old.issued + 1 }
        ensures few { (outcome_in self.old
            (texts.event_in (meddles_of meddles.now) text.entry)).state.count
            ≤ self.old.digests.count + most_members }
    {
        self.follow(line_view(meddles, text))
    }

    /// Follows one event where it lies, and answers it, as `event` does.
    #[inline(always)]
    pub fn follow(&mut self, event: EventView<'_>) -> Result<Reply, Memory>
        requires { length self.old.issued < 2 ^ 32 - 1 }
        ensures ok { IfOk result
            (WorldFollows (outcome_in self.old (event_of_view event.entry)) self.old self.new) }
        ensures wants { OnErr result
            (WorldLacksMemory (event_of_view event.entry) self.old self.new) }
        ensures printable { IfOk result IsPrintable }
        ensures grows { length self.new.issued ≤ length self.old.issued + 1 }
        ensures few { (outcome_in self.old (event_of_view event.entry)).state.count
            ≤ self.old.digests.count + most_members }
    {
        self.seat.follow(event)
    }

    /// How many requests are committed.
    pub fn committed(&self) -> u64
        ensures { result ≡ self.now.digests.count }
    {
        self.seat.committed
    }

    /// How many snapshots were issued, the first of them included.
    pub fn issued(&self) -> u32
        ensures { result ≡ length self.now.issued }
    {
        self.seat.issued.len() as u32
    }

    /// The bytes of the snapshots issued, or the most that 64 bits tell.
    pub fn kept(&self) -> u64
        ensures { result ≡ within_64 (sum_by length self.now.issued) }
    {
        self.seat.kept
    }

    /// The issued snapshot with this number. None exactly where it isn't issued.
    pub fn snapshot(&self, number: u32) -> Option<&[u8]>
        ensures { option_copied result ≡ slice_get self.now.issued number }
    {
        match self.seat.issued.get(number as usize) {
            None => None,
            Some(snapshot) => Some(snapshot.as_slice()),
        }
    }

    /// The platform.
    pub fn platform(&self) -> &MemPlatform
        ensures { HoldsWorld self.now result.now }
    {
        &self.seat.platform
    }
}
