//! A checkpoint of a slot: it begins, makes its steps, and is over.

use crate::event::CallBreak;
use crate::flight::{CheckpointInFlight, Flight};
use crate::parts::{Parts, stop_at};
use crate::said::SlotReply;
use mm_machine::{OpCall, Operation};
use mm_opt::OptCheckpoint;
use mm_steps::{FlightOutcome, break_off, step};

impl Parts {
    ghost use Rattle.std.specs.Prelude.{◌≡◌, ◌<◌, ◌^◌, None};
    ghost use Rattle.mm_slots.specs.HeldParts.{instance_in, slot_in, parts_with_flight, PartsFit, SlotComesTo};
    ghost use Rattle.mm_slots.specs.declared.event.SlotAction.{SlotAction};
    ghost use Rattle.mm_slots.specs.Tenant.{turn_by_action};

    /// Begins a checkpoint, where no call is in flight.
    pub fn begin_closing(&mut self) -> SlotReply
        requires fits { PartsFit self.old }
        ensures { SlotComesTo self.old self.new
            (turn_by_action (instance_in self.old) (slot_in self.old) SlotAction.Close) result }
    {
        if self.flight.is_some() {
            return SlotReply::Busy;
        }
        self.fly(Flight::Closes(CheckpointInFlight {
            call: OpCall::begin(),
        }));
        SlotReply::Begun
    }

    /// A checkpoint makes its next step.
    pub fn step_closing(&mut self, closing: CheckpointInFlight) -> SlotReply
        requires idle { self.old.flight ≡ None }
        requires fits { PartsFit (parts_with_flight self.old (Flight.Closes closing)) }
        requires few { self.old.seat.committed < 2 ^ 63 }
        ensures { SlotComesTo (parts_with_flight self.old (Flight.Closes closing)) self.new
            (turn_by_action (instance_in self.old)
            (slot_in (parts_with_flight self.old (Flight.Closes closing)))
            SlotAction.Step) result }
    {
        let seat = &mut self.seat;
        match step(
            &OptCheckpoint,
            &mut seat.platform,
            closing.call,
            &mut seat.keys,
        ) {
            Err(_) => unreachable!(),
            Ok(FlightOutcome::Over(called)) => self.end(called),
            Ok(FlightOutcome::Going(call)) => {
                let next = u64::from(call.next_step(OptCheckpoint.write_step()));
                self.fly(Flight::Closes(CheckpointInFlight { call }));
                SlotReply::Going(next)
            }
        }
    }

    /// A checkpoint makes its next step, which breaks it off.
    pub fn break_closing(&mut self, closing: CheckpointInFlight, how: CallBreak) -> SlotReply
        requires idle { self.old.flight ≡ None }
        requires fits { PartsFit (parts_with_flight self.old (Flight.Closes closing)) }
        requires few { self.old.seat.committed < 2 ^ 63 }
        ensures { SlotComesTo (parts_with_flight self.old (Flight.Closes closing)) self.new
            (turn_by_action (instance_in self.old)
            (slot_in (parts_with_flight self.old (Flight.Closes closing)))
            (SlotAction.Break how)) result }
    {
        let stop = stop_at(how, closing.call.next_step(OptCheckpoint.write_step()));
        let seat = &mut self.seat;
        let called = break_off(
            &OptCheckpoint,
            &mut seat.platform,
            closing.call,
            stop,
            &mut seat.keys,
        );
        self.end(called)
    }
}
