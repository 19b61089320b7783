//! Both sides among their events.

ghost use Rattle.std.specs.Prelude.{◌≡◌, ◌≤◌, ◌<◌, ◌+◌, ◌++◌, ◌∷◌, [], length, IfOk, OnErr, OnOk};
ghost use Rattle.mm_bytes.specs.Limits.{longest_line, most_events};

use crate::event::{SideChoice, SideEvent};
use crate::put::{put_answer, put_end};
use crate::read::read_side_event;
use crate::reply::MoveReply;
use crate::report::TransferReport;
use crate::sides::Sides;
use mm_bytes::{Bytes, Memory};
use mm_play::{LineRefusal, PlayStage, ReplyFault};
use mm_schedule::{EventFault, Header};
use std::alloc::Global;
use std::marker::Model;

/// Both sides among their events.
#[derive(Drop)]
pub struct TransferStage {
    sides: Sides,
    /// The events followed.
    events: u32,
}

impl Model for TransferStage {
    ghost use Rattle.mm_transfer.specs.Stage.{KeepsSides, TransferState};

    ghost Value = { TransferState };

    ghost view = { λ p. record { header = p.sides.header; both = p.sides.both; events = p.events } };

    ghost invariant = { λ p. KeepsSides p.sides.both p.events };
}

impl TransferStage {
    ghost use Rattle.std.specs.Prelude.{ℕ, List, Some};
    ghost use Rattle.mm_play.specs.Stage.{EventLacksMemory, StageAnswersEvent, answer_to};
    ghost use Rattle.mm_transfer.specs.Events.{side_event_of};
    ghost use Rattle.mm_transfer.specs.Stage.{event_at, TransferLacksMemory, transfer_after, transfer_steps, first_transfer, both_end_line};
    ghost use Rattle.mm_transfer.specs.Stage.{transfer_outcome};
    ghost use Rattle.mm_transfer.specs.MovePlan.{move_reply_of, IsSayable};

    /// Both sides at their first event.
    pub fn new(alloc: Global, header: &Header) -> Result<TransferStage, Memory>
        ensures { IfOk result (λ it. it ≡ first_transfer header.now) }
    {
        let sides = Sides::new(alloc, header)?;
        Ok(TransferStage { sides, events: 0 })
    }

    // Follows an event on its side. After want of memory it isn't counted.
    fn event(&mut self, alloc: Global, event: &SideEvent) -> Result<MoveReply, Memory>
        requires { self.old.events < most_events }
        ensures reply { IfOk result (λ reply. reply
            ≡ move_reply_of (transfer_outcome self.old (side_event_of event.now)).reply) }
        ensures sayable { IfOk result IsSayable }
        ensures after { OnOk result (self.new ≡ transfer_after self.old (side_event_of event.now)) }
        ensures wants { OnErr result
            (TransferLacksMemory self.old (side_event_of event.now) self.new) }
    {
        let reply = self.sides.event(alloc, event)?;
        self.events += 1;
        Ok(reply)
    }

    // Follows the event of a line on its side, and answers it as text.
    fn follow(&mut self, alloc: Global, event: &SideEvent) -> Result<Bytes, ReplyFault>
        requires { self.old.events < most_events }
        ensures { (line : List ℕ) → event_at line ≡ Some (side_event_of event.now)
            → StageAnswersEvent
            (EventLacksMemory transfer_steps TransferLacksMemory self.old line self.new)
            (answer_to transfer_steps self.old line) self.old self.new result }
    {
        match self.event(alloc, event) {
            Err(_) => Err(ReplyFault::Memory),
            Ok(reply) => {
                let mut text = Bytes::new(alloc);
                match put_answer(event.which, &reply, &mut text) {
                    Ok(()) => Ok(text),
                    Err(_) => Err(ReplyFault::Memory),
                }
            }
        }
    }

    /// Puts the last line at the end.
    pub fn put_last_line(&self, into: &mut Bytes) -> Result<(), Memory>
        ensures { OnOk result (into.new ≡ into.old ++ both_end_line self.now.both) }
    {
        put_end(
            self.sides.committed(),
            self.sides.issued(SideChoice::First),
            self.sides.issued(SideChoice::Second),
            self.sides.tickets(),
            into,
        )
    }

    /// How many requests were committed, snapshots issued on each side, and tickets handed out.
    pub fn report(&self) -> TransferReport
        ensures committed { result.committed ≡ self.now.both.committed }
        ensures issued { result.issued ≡ length self.now.both.first.issued
            ∷ length self.now.both.second.issued ∷ [] }
        ensures tickets { result.tickets ≡ length self.now.both.tickets }
    {
        TransferReport {
            committed: self.sides.committed(),
            issued: [
                self.sides.issued(SideChoice::First),
                self.sides.issued(SideChoice::Second),
            ],
            tickets: self.sides.tickets(),
        }
    }
}

impl PlayStage for TransferStage {
    ghost use Rattle.mm_play.specs.Stage.{EventLacksMemory};
    ghost use Rattle.mm_transfer.specs.Stage.{TransferLacksMemory, transfer_steps, transfer_stage};
    ghost use Rattle.mm_transfer.specs.StageLaws.{counts_on};

    ghost plays = { transfer_stage };

    ghost wants = { EventLacksMemory transfer_steps TransferLacksMemory };

    fn events(&self) -> u32 {
        self.events
    }

    fn kept(&self) -> u64 {
        self.sides.kept()
    }

    fn is_event(&self, alloc: Global, line: &[u8]) -> Result<bool, Memory> {
        match read_side_event(alloc, line) {
            Ok(_) => Ok(true),
            Err(EventFault::Bad) => Ok(false),
            Err(EventFault::Memory) => Err(Memory),
        }
    }

    fn play(&mut self, alloc: Global, line: &[u8]) -> Result<Bytes, ReplyFault> {
        match read_side_event(alloc, line) {
            Ok(event) => self.follow(alloc, &event),
            Err(EventFault::Memory) => Err(ReplyFault::Memory),
            Err(EventFault::Bad) => Err(ReplyFault::Refused(LineRefusal::Bad)),
        }
    }

    fn last_lines(&self, alloc: Global) -> Result<Bytes, Memory> {
        let mut last = Bytes::new(alloc);
        self.put_last_line(&mut last)?;
        Ok(last)
    }

    ghost counts = { counts_on };
}
