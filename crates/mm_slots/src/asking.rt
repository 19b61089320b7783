//! A call of a slot that asks a request: it begins, makes its steps, and is over.

ghost use Rattle.std.specs.Prelude.{◌≡◌, IfOk};
ghost use Rattle.mm_outcome.specs.EventOffers.{offered_bytes};

use crate::event::CallBreak;
use crate::flight::{AskInFlight, AskedRequest, Flight};
use crate::parts::{Parts, stop_at};
use crate::said::SlotReply;
use mm_ask::Ask;
use mm_bytes::{Bytes, Memory};
use mm_machine::{OpCall, Operation};
use mm_model::is_long;
use mm_module::Batch;
use mm_modules::AnyModule;
use mm_outcome::{OfferedBytes, offered};
use mm_schedule::{Cause, Header, Offer, Reply};
use mm_steps::{FlightOutcome, break_off, step};
use std::alloc::Global;

// The bytes that are offered. None exactly where the number isn't issued.
fn bytes_offered(alloc: Global, issued: &[Bytes], offer: &Offer) -> Result<Option<Bytes>, Memory>
    ensures { IfOk result (λ found. found ≡ offered_bytes issued.now offer.now) }
{
    match offered(alloc, issued, offer)? {
        None => Ok(None),
        Some(OfferedBytes::Made(bytes)) => Ok(Some(bytes)),
        Some(OfferedBytes::Lent(bytes)) => {
            let copy = Bytes::copy_of(alloc, bytes)?;
            Ok(Some(copy))
        }
    }
}

impl AskedRequest {
    ghost use Rattle.std.specs.Prelude.{◌≡◌, false};
    ghost use Rattle.mm_model.specs.Moves.{is_long};
    ghost use Rattle.mm_module.specs.Batch.{One};
    ghost use Rattle.mm_module.specs.Batches.{batch_of};

    // The call that asks this of the header's module.
    fn ask<'a>(&'a self, alloc: Global, header: &'a Header) -> Ask<'a, AnyModule>
        requires { is_long (One self.now.request) ≡ false }
        ensures variant { result.variant ≡ header.now.variant }
        ensures module_ { result.«module».now ≡ header.now.«module» }
        ensures offer { result.offer.now ≡ self.now.bytes }
        ensures batch { batch_of result.batch ≡ One self.now.request }
    {
        Ask {
            variant: header.variant,
            alloc,
            module: &header.module,
            offer: self.bytes.as_slice(),
            batch: Batch::One(self.request.as_slice()),
        }
    }
}

impl Parts {
    ghost use Rattle.std.specs.Prelude.{◌≡◌, ◌<◌, ◌^◌, None, Some, vec_len, vec_capacity};
    ghost use Rattle.mm_outcome.specs.EventOffers.{offered_bytes};
    ghost use Rattle.mm_slots.specs.HeldParts.{instance_in, slot_in, parts_with_flight, PartsFit, SlotComesTo, SlotTakes};
    ghost use Rattle.mm_slots.specs.declared.event.SlotAction.{SlotAction};
    ghost use Rattle.mm_slots.specs.Tenant.{turn_by_action};

    /// Begins a call that asks a request, where none is in flight.
    pub fn begin(
        &mut self,
        alloc: Global,
        offer: Offer,
        request: Bytes,
    ) -> Result<SlotReply, Memory>
        requires fits { PartsFit self.old }
        ensures { SlotTakes (SlotAction.Begin offer request) self.old self.new result }
    {
        if self.flight.is_some() {
            return Ok(SlotReply::Busy);
        }
        self.seat.issued.reserve(1)?;
        match bytes_offered(alloc, self.seat.issued.as_slice(), &offer) {
            Err(memory) => Err(memory),
            Ok(None) => Ok(SlotReply::Replied(Reply::No(Cause::Snapshot))),
            Ok(Some(bytes)) => Ok(self.begin_asking(offer, bytes, request)),
        }
    }

    // Begins a call that asks a request of these bytes, where there is room for one more snapshot.
    fn begin_asking(&mut self, offer: Offer, bytes: Bytes, request: Bytes) -> SlotReply
        requires fits { PartsFit self.old }
        requires idle { self.old.flight ≡ None }
        requires offered { offered_bytes self.old.seat.issued.items offer ≡ Some bytes }
        requires room { vec_len self.old.seat.issued < vec_capacity self.old.seat.issued }
        ensures { SlotComesTo self.old self.new
            (turn_by_action (instance_in self.old) (slot_in self.old)
            (SlotAction.Begin offer request)) result }
    {
        if is_long(&Batch::One(request.as_slice())) {
            return SlotReply::Replied(Reply::No(Cause::Long));
        }
        self.fly(Flight::Asks(AskInFlight {
            call: OpCall::begin(),
            asked: AskedRequest {
                offer,
                bytes,
                request,
            },
        }));
        SlotReply::Begun
    }

    /// A call that asks makes its next step. After want of memory the call is over, and has
    /// committed nothing.
    pub fn step_asking(&mut self, alloc: Global, asking: AskInFlight) -> Result<SlotReply, Memory>
        requires idle { self.old.flight ≡ None }
        requires fits { PartsFit (parts_with_flight self.old (Flight.Asks asking)) }
        requires few { self.old.seat.committed < 2 ^ 63 }
        ensures { SlotTakes SlotAction.Step (parts_with_flight self.old (Flight.Asks asking))
            self.new result }
    {
        let AskInFlight { call, asked } = asking;
        let header = self.seat.header;
        let ask = asked.ask(alloc, &header);
        let writes = ask.write_step();
        let seat = &mut self.seat;
        match step(&ask, &mut seat.platform, call, &mut seat.keys) {
            // A call drops what was asked whole: else each way out takes it apart here.
            Err(memory) => {
                drop(asked);
                self.register = *self.seat.platform.register();
                Err(memory)
            }
            Ok(FlightOutcome::Over(called)) => {
                drop(asked);
                Ok(self.end(called))
            }
            Ok(FlightOutcome::Going(call)) => {
                let next = u64::from(call.next_step(writes));
                self.fly(Flight::Asks(AskInFlight { call, asked }));
                Ok(SlotReply::Going(next))
            }
        }
    }

    /// A call that asks makes its next step, which breaks it off.
    pub fn break_asking(&mut self, alloc: Global, asking: AskInFlight, how: CallBreak) -> SlotReply
        requires idle { self.old.flight ≡ None }
        requires fits { PartsFit (parts_with_flight self.old (Flight.Asks asking)) }
        requires few { self.old.seat.committed < 2 ^ 63 }
        ensures { SlotComesTo (parts_with_flight self.old (Flight.Asks asking)) self.new
            (turn_by_action (instance_in self.old)
            (slot_in (parts_with_flight self.old (Flight.Asks asking)))
            (SlotAction.Break how)) result }
    {
        let AskInFlight { call, asked } = asking;
        let header = self.seat.header;
        let ask = asked.ask(alloc, &header);
        let stop = stop_at(how, call.next_step(ask.write_step()));
        let seat = &mut self.seat;
        let called = break_off(&ask, &mut seat.platform, call, stop, &mut seat.keys);
        self.end(called)
    }
}
