//! Slots among their events.

ghost use Rattle.std.specs.Prelude.{◌≡◌, ◌≤◌, ◌<◌, ◌+◌, ◌++◌, ◌^◌, Some, Err, length, IfOk, OnErr, OnOk};
ghost use Rattle.mm_bytes.specs.Limits.{longest_line, most_events};

use crate::event::SlotEvent;
use crate::first::first_slots;
use crate::read::read_slot_event;
use crate::report::SlotReport;
use crate::rows::follow;
use crate::tenant::Tenant;
use crate::totals::{bytes_in, put_ends, requests_in, snapshots_in};
use mm_bytes::{Bytes, Memory};
use mm_play::{LineRefusal, PlayStage, ReplyFault};
use mm_schedule::{EventFault, Header};
use std::alloc::Global;
use std::marker::Model;

/// Slots among their events. Contracts see what stands in each slot, by digests.
#[derive(Drop)]
pub struct SlotsStage {
    slots: Vec<Tenant>,
    /// The events followed.
    events: u32,
}

impl Model for SlotsStage {
    ghost use Rattle.mm_slots.specs.Table.{KeepsAll};
    ghost use Rattle.mm_slots.specs.Stage.{SlotsState};

    ghost Value = { SlotsState };

    ghost view = { λ p. record { rows = p.slots.items; events = p.events } };

    ghost invariant = { λ p. KeepsAll p.slots.items p.events };
}

impl SlotsStage {
    ghost use Rattle.mm_play.specs.Stage.{StageAnswersEvent, answer_by};
    ghost use Rattle.mm_slots.specs.Table.{answers_text, end_lines, IsInside, answers_to};
    ghost use Rattle.mm_slots.specs.Stage.{committed_count_in, issued_count_in, SlotsLackMemory, slots_state_after, first_slots_state};
    ghost use Rattle.mm_slots.specs.Stage.{slots_steps};

    /// Slots at their first event, one for each header.
    pub fn new(alloc: Global, headers: &[Header]) -> Result<SlotsStage, Memory>
        requires some { 1 ≤ length headers.now }
        requires few { length headers.now ≤ 16 }
        ensures { IfOk result (λ it. it ≡ first_slots_state headers.now) }
    {
        let slots = first_slots(alloc, headers)?;
        Ok(SlotsStage { slots, events: 0 })
    }

    // Follows an event, and answers it as text. It counts also where memory is wanting, for it or
    // for the answer.
    fn follow(&mut self, alloc: Global, event: SlotEvent) -> Result<Bytes, Memory>
        requires inside { IsInside (length self.old.rows) event }
        requires few { self.old.events < most_events }
        ensures after { OnOk result (self.new ≡ slots_state_after self.old event) }
        ensures answers { IfOk result (λ text. text
            ≡ answers_text (answers_to self.old.rows event)) }
        ensures wants { OnErr result (SlotsLackMemory self.old event self.new) }
    {
        self.events += 1;
        follow(alloc, self.slots.as_mut_slice(), event)
    }

    // How many slots there are.
    fn count(&self) -> u8
        ensures { result ≡ length self.now.rows }
    {
        self.slots.len() as u8
    }

    /// Puts the last lines at the end, one for each slot.
    pub fn put_last_lines(&self, into: &mut Bytes) -> Result<(), Memory>
        ensures { OnOk result (into.new ≡ into.old ++ end_lines 0 self.now.rows) }
    {
        put_ends(self.slots.as_slice(), into)
    }

    /// How many requests were committed and snapshots issued, in all slots together.
    pub fn report(&self) -> SlotReport
        ensures committed { result.committed ≡ committed_count_in self.now.rows }
        ensures issued { result.issued ≡ issued_count_in self.now.rows }
    {
        SlotReport {
            committed: requests_in(self.slots.as_slice()),
            issued: snapshots_in(self.slots.as_slice()) as u32,
        }
    }
}

impl PlayStage for SlotsStage {
    ghost use Rattle.mm_play.specs.Stage.{EventLacksMemory};
    ghost use Rattle.mm_slots.specs.Stage.{SlotsLackMemory, slots_steps, slots_stage};
    ghost use Rattle.mm_slots.specs.StageLaws.{counts_on};

    ghost plays = { slots_stage };

    ghost wants = { EventLacksMemory slots_steps SlotsLackMemory };

    fn events(&self) -> u32 {
        self.events
    }

    fn kept(&self) -> u64 {
        bytes_in(self.slots.as_slice())
    }

    fn is_event(&self, alloc: Global, line: &[u8]) -> Result<bool, Memory> {
        match read_slot_event(alloc, self.count(), line) {
            Ok(_) => Ok(true),
            Err(EventFault::Bad) => Ok(false),
            Err(EventFault::Memory) => Err(Memory),
        }
    }

    fn play(&mut self, alloc: Global, line: &[u8]) -> Result<Bytes, ReplyFault> {
        match read_slot_event(alloc, self.count(), line) {
            Ok(event) => match self.follow(alloc, event) {
                Ok(text) => Ok(text),
                Err(_) => Err(ReplyFault::Memory),
            },
            Err(EventFault::Memory) => Err(ReplyFault::Memory),
            Err(EventFault::Bad) => Err(ReplyFault::Refused(LineRefusal::Bad)),
        }
    }

    fn last_lines(&self, alloc: Global) -> Result<Bytes, Memory> {
        let mut last = Bytes::new(alloc);
        self.put_last_lines(&mut last)?;
        Ok(last)
    }

    ghost counts = { counts_on };
}
