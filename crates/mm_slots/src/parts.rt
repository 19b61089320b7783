//! The parts of a slot: what they are, and what becomes of them.

ghost use Rattle.std.specs.Prelude.{◌≡◌};
ghost use Rattle.mm_slots.specs.Tenant.{stop_at};

use crate::event::{CallBreak, SlotAction};
use crate::flight::Flight;
use crate::said::SlotReply;
use crate::slot_number::SlotNumber;
use mm_bytes::Memory;
use mm_digest::Digest;
use mm_platform::Stop;
use mm_world::{CallReport, Seat};
use std::alloc::Global;

/// The number of a slot, the seat in it, and the call in flight.
#[derive(Drop)]
pub struct Parts {
    pub number: SlotNumber,
    pub seat: Seat,
    /// The register's value before the call in flight, or now where there is none.
    pub register: Digest,
    pub flight: Option<Flight>,
}

/// How a call is stopped at this step.
pub fn stop_at(how: CallBreak, step: u8) -> Stop
    ensures { result ≡ stop_at how step }
{
    match how {
        CallBreak::Cut => Stop::Cut(step),
        CallBreak::Drop => Stop::Drop(step),
        CallBreak::Fail { done } => Stop::Fail { step, done },
    }
}

impl Parts {
    ghost use Rattle.std.specs.Prelude.{◌≡◌, ◌<◌, ◌^◌, IsSome, vec_len, vec_capacity};
    ghost use Rattle.mm_slots.specs.HeldParts.{instance_in, slot_in, parts_with_flight, PartsFit, SlotComesTo, SlotTakes, CallEndsIn};
    ghost use Rattle.mm_slots.specs.Tenant.{turn_by_action};

    /// Lets something happen in the slot. After want of memory nothing has changed, but that a call
    /// in flight is over whose step it was, with nothing done but its reading steps.
    pub fn act(&mut self, alloc: Global, action: SlotAction) -> Result<SlotReply, Memory>
        requires fits { PartsFit self.old }
        requires few { self.old.seat.committed < 2 ^ 63 }
        ensures { SlotTakes action self.old self.new result }
    {
        match action {
            SlotAction::Begin { offer, request } => self.begin(alloc, offer, request),
            SlotAction::Close => Ok(self.begin_closing()),
            SlotAction::Step => self.step(alloc),
            SlotAction::Break(how) => Ok(self.break_off(alloc, how)),
            SlotAction::Extend { value } => self.extend(&value),
        }
    }

    // The call in flight makes its next step. After want of memory the call is over, with nothing
    // done but its reading steps.
    fn step(&mut self, alloc: Global) -> Result<SlotReply, Memory>
        requires fits { PartsFit self.old }
        requires few { self.old.seat.committed < 2 ^ 63 }
        ensures { SlotTakes SlotAction.Step self.old self.new result }
    {
        match self.flight.take() {
            None => Ok(SlotReply::Idle),
            Some(Flight::Asks(asking)) => self.step_asking(alloc, asking),
            Some(Flight::Closes(closing)) => Ok(self.step_closing(closing)),
        }
    }

    // The call in flight makes its next step, which breaks it off.
    fn break_off(&mut self, alloc: Global, how: CallBreak) -> SlotReply
        requires fits { PartsFit self.old }
        requires few { self.old.seat.committed < 2 ^ 63 }
        ensures { SlotComesTo self.old self.new
            (turn_by_action (instance_in self.old) (slot_in self.old) (SlotAction.Break how))
            result }
    {
        match self.flight.take() {
            None => SlotReply::Idle,
            Some(Flight::Asks(asking)) => self.break_asking(alloc, asking, how),
            Some(Flight::Closes(closing)) => self.break_closing(closing, how),
        }
    }

    /// This call is in flight from now on.
    pub fn fly(&mut self, flight: Flight)
        ensures { self.new ≡ parts_with_flight self.old flight }
    {
        self.flight = Some(flight);
    }

    /// A call is over: counts what it committed, and keeps the snapshot that it hands out.
    pub fn end(&mut self, called: CallReport) -> SlotReply
        requires { IsSome called.snapshot
            → vec_len self.old.seat.issued < vec_capacity self.old.seat.issued }
        ensures { CallEndsIn called self.old self.new result }
    {
        let reply = self.seat.end(called);
        self.register = *self.seat.platform.register();
        SlotReply::Replied(reply)
    }
}
