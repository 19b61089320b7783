//! A seat: a module on a platform in memory, with the snapshots that were issued there.

ghost use Rattle.std.specs.Prelude.{◌≡◌, ◌≤◌, ◌-◌, ◌^◌, length};
ghost use Rattle.std.specs.List.{sum_by};
ghost use Rattle.mm_world.specs.Lengths.{within_64};

use crate::call::{CallReport, call_by_offer, planned_checkpoint};
use crate::parts::length_if;
use crate::views::{EventView, OfferView};
use mm_ask::{Caller, Secrets, provision};
use mm_bytes::{Bytes, CELL_LENGTH, Memory};
use mm_call::{KeptKey, Provisioned};
use mm_digest::Digest;
use mm_module::Batch;
use mm_outcome::CallPlan;
use mm_platform::MemPlatform;
use mm_schedule::{Header, Offer, Reply, owned_offer};
use std::alloc::Global;

/// A module on a platform in memory, the snapshots that were issued there, and how many requests
/// are committed.
#[derive(Drop)]
pub struct Seat {
    pub header: Header,
    pub platform: MemPlatform,
    pub issued: Vec<Bytes>,
    /// The bytes of the snapshots issued, all together.
    pub kept: u64,
    pub committed: u64,
    pub keys: KeptKey,
    pub ghost counted: { kept ≡ within_64 (sum_by length issued.items) },
    pub ghost fits: { committed ≤ 2 ^ 64 - 1 },
}

impl Seat {
    ghost use Rattle.std.specs.Prelude.{◌≡◌, ◌<◌, IfOk, OnOk, OnErr, IsSome, vec_len, vec_capacity};
    ghost use Rattle.mm_module.specs.Batches.{batch_of};
    ghost use Rattle.mm_platform.specs.Memory.{standing_after_cycle};
    ghost use Rattle.mm_schedule.specs.Events.{Ask, Checkpoint};
    ghost use Rattle.mm_world.specs.Seat.{IsBare, IsOver, IsFirst, SeatKeeps, EndsCall, SeatStaysOn, SeatTakesEvent, extended_standing};
    ghost use Rattle.mm_world.specs.Lengths.{event_of_view, offer_of_view};

    /// A seat over a new platform with this cell, on which nothing was issued.
    pub fn bare(alloc: Global, header: Header, cell: &[u8; CELL_LENGTH]) -> Seat
        ensures { IsBare header cell.now result }
    {
        Seat {
            header,
            platform: MemPlatform::new(alloc, cell),
            issued: Vec::new(alloc),
            kept: 0,
            committed: 0,
            keys: KeptKey::new(),
        }
    }

    /// A seat that is provisioned for the header's module with these secrets, and has issued its
    /// first snapshot.
    pub fn first(alloc: Global, header: Header, secrets: &Secrets) -> Result<Seat, Memory>
        ensures { IfOk result (IsFirst header secrets.now.key secrets.now.barrier) }
    {
        match provision(alloc, header.variant, &header.module, secrets) {
            Err(memory) => Err(memory),
            Ok(made) => Seat::over(alloc, header, made),
        }
    }

    // A seat with this first cell and snapshot.
    fn over(alloc: Global, header: Header, made: Provisioned) -> Result<Seat, Memory>
        ensures { IfOk result (IsOver header made.cell made.snapshot) }
    {
        let Provisioned { cell, snapshot } = made;
        let mut seat = Seat::bare(alloc, header, &cell);
        seat.make_room()?;
        seat.keep(Some(snapshot));
        Ok(seat)
    }

    /// Makes room for one more snapshot.
    pub fn make_room(&mut self) -> Result<(), Memory>
        ensures stays { SeatStaysOn self.old.platform self.old self.new }
        ensures room { OnOk result (vec_len self.new.issued < vec_capacity self.new.issued) }
    {
        self.issued.reserve(1)?;
        Ok(())
    }

    /// Keeps the snapshot that was handed out, if one was.
    pub fn keep(&mut self, snapshot: Option<Bytes>)
        requires { IsSome snapshot → vec_len self.old.issued < vec_capacity self.old.issued }
        ensures { SeatKeeps snapshot self.old self.new }
    {
        self.kept = self.kept.saturating_add(length_if(&snapshot));
        if let Some(snapshot) = snapshot {
            self.issued.push_reserved(snapshot);
        }
    }

    /// A call is over: counts what it committed, and keeps the snapshot that it hands out.
    pub fn end(&mut self, called: CallReport) -> Reply
        requires { IsSome called.snapshot → vec_len self.old.issued < vec_capacity self.old.issued }
        ensures { EndsCall called self.old self.new result }
    {
        let CallReport {
            reply,
            snapshot,
            committed,
        } = called;
        self.committed = self.committed.saturating_add(committed);
        self.keep(snapshot);
        reply
    }

    /// Follows an event, and answers it. After want of memory nothing has changed, but that a call
    /// that asks may have made its reading steps.
    #[inline(always)]
    pub fn follow(&mut self, event: EventView<'_>) -> Result<Reply, Memory>
        ensures { SeatTakesEvent (event_of_view event.entry) self.old self.new result }
    {
        match event {
            EventView::Ask {
                course,
                from,
                batch,
            } => self.ask_where(from, batch, &course),
            EventView::Checkpoint { course } => self.checkpoint(&course),
            EventView::Power => Ok(self.lose_power()),
            EventView::Extend { value } => self.extend(&value),
        }
    }

    // Asks for a batch, with the offer where it lies.
    #[inline(always)]
    fn ask_where(
        &mut self,
        from: OfferView<'_>,
        batch: Batch<'_>,
        course: &CallPlan<'_>,
    ) -> Result<Reply, Memory>
        ensures { SeatTakesEvent
            (Ask course.now.meddles.now course.now.stop (offer_of_view from.entry)
            (batch_of batch.entry)) self.old self.new result }
    {
        match from {
            OfferView::Owned(offer) => self.ask(offer, batch, course),
            OfferView::Text(from) => match owned_offer(*self.issued.allocator(), from) {
                Err(memory) => Err(memory),
                Ok(offer) => self.ask(&offer, batch, course),
            },
        }
    }

    /// Asks for a batch, whether the module is there or not: where it isn't, the call finds that.
    #[inline(always)]
    pub fn ask(
        &mut self,
        offer: &Offer,
        batch: Batch<'_>,
        course: &CallPlan<'_>,
    ) -> Result<Reply, Memory>
        ensures { SeatTakesEvent (Ask course.now.meddles.now course.now.stop offer.now
            (batch_of batch.entry)) self.old self.new result }
    {
        self.make_room()?;
        let caller = Caller {
            alloc: *self.issued.allocator(),
            variant: self.header.variant,
            module: &self.header.module,
        };
        match call_by_offer(
            &caller,
            &mut self.platform,
            self.issued.as_slice(),
            offer,
            batch,
            course,
            &mut self.keys,
        ) {
            Err(memory) => Err(memory),
            Ok(called) => Ok(self.end(called)),
        }
    }

    /// Closes the open segment.
    pub fn checkpoint(&mut self, course: &CallPlan<'_>) -> Result<Reply, Memory>
        ensures { SeatTakesEvent (Checkpoint course.now.meddles.now course.now.stop)
            self.old self.new
            result }
    {
        planned_checkpoint(&mut self.platform, course.meddles, course.stop)
    }

    /// Power is lost and comes back.
    pub fn lose_power(&mut self) -> Reply
        ensures stays { SeatStaysOn (standing_after_cycle self.old.platform) self.old self.new }
        ensures says { result ≡ Reply.Power }
    {
        self.platform.lose_power();
        Reply::Power
    }

    /// Others extend the register.
    pub fn extend(&mut self, value: &Digest) -> Result<Reply, Memory>
        ensures ok { IfOk result (λ said. said ≡ Reply.Extended) }
        ensures stays { OnOk result
            (SeatStaysOn (extended_standing self.old.platform value.now.bytes) self.old self.new) }
        ensures err { OnErr result (SeatStaysOn self.old.platform self.old self.new) }
    {
        self.platform.foreign(value)?;
        Ok(Reply::Extended)
    }
}
