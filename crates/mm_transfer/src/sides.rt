//! Both sides.

ghost use Rattle.std.specs.Prelude.{◌≡◌, ◌+◌, ◌-◌, ◌<◌, ◌≤◌, ◌^◌, min, length, vec_len};
ghost use Rattle.mm_schedule.specs.Events.{event_of};
ghost use Rattle.mm_sides.specs.BothSides.{First, Second};
ghost use Rattle.mm_sides.specs.BothSides as both;
ghost use Rattle.mm_sides.specs.Folds as folds;
ghost use Rattle.mm_transfer.specs.declared.between.IssuedTickets.{IssuedTickets};
ghost use Rattle.mm_transfer.specs.Events.{act_reach, ActGoes, act_of, which_of};
ghost use Rattle.mm_transfer.specs.SideCommands.{FitsIssuedTickets, FitsSide, fits_prop, pair_of};

use crate::between::IssuedTickets;
use crate::commands;
use crate::event::{SideAct, SideChoice, SideEvent};
use crate::reply::MoveReply;
use crate::side::Side;
use mm_bytes::Memory;
use mm_outcome::CallPlan;
use mm_schedule::{Event, Header};
use std::alloc::Global;
use std::marker::Model;

/// Both platforms, the snapshots issued on each, and the tickets.
#[derive(Drop)]
pub struct Sides {
    header: Header,
    first: Side,
    second: Side,
    between: IssuedTickets,
    /// How many requests were committed, on either side.
    committed: u64,
    ghost first_headed: { first.seat.header ≡ header },
    ghost second_headed: { second.seat.header ≡ header },
    ghost first_fits: { FitsSide (pair_of header) First first } by { fits_prop (pair_of header) First first },
    ghost second_fits: { FitsSide (pair_of header) Second second } by { fits_prop (pair_of header) Second second },
    ghost between_fits: { FitsIssuedTickets between },
    ghost first_within: { first.seat.committed ≤ committed },
    ghost second_within: { second.seat.committed ≤ committed },
    ghost away_within: { between.away ≤ committed },
    ghost first_few: { length first.seat.issued.items < 2 ^ 32 },
    ghost second_few: { length second.seat.issued.items < 2 ^ 32 },
    ghost tickets_few: { length between.tickets.items < 2 ^ 32 },
}

impl Model for Sides {
    ghost use Rattle.mm_transfer.specs.Events.{TransferSides, transfer_sides_in};

    ghost Value = { TransferSides };

    ghost view = { λ s. transfer_sides_in s.header s.first s.second s.between s.committed };
}

// Follows an event of a schedule on a side, and counts what it committed.
fn play(here: &mut Side, committed: &mut u64, event: &Event) -> Result<MoveReply, Memory>
    requires { here.old.seat.committed < 2 ^ 63 }
    ensures acts { (which : both.SideName) (between : IssuedTickets)
        → ActGoes (pair_of here.old.seat.header) which (folds.Plain (event_of event.now))
        (act_reach here.old between committed.old) (act_reach here.new between committed.new)
        result }
    ensures headed { here.new.seat.header ≡ here.old.seat.header }
{
    let before = here.seat.committed;
    match here.event(event) {
        Err(memory) => Err(memory),
        Ok(said) => {
            *committed = committed.saturating_add(here.seat.committed.saturating_sub(before));
            Ok(MoveReply::Said(said))
        }
    }
}

// Follows what happens on a side, and answers it.
fn act(
    alloc: Global,
    which: SideChoice,
    here: &mut Side,
    between: &mut IssuedTickets,
    committed: &mut u64,
    act: &SideAct,
) -> Result<MoveReply, Memory>
    requires position { here.old.seat.committed < 2 ^ 63 }
    requires tickets { vec_len between.old.tickets < 2 ^ 32 }
    ensures acts { ActGoes (pair_of here.old.seat.header) (which_of which) (act_of act.now)
        (act_reach here.old between.old committed.old)
        (act_reach here.new between.new committed.new) result }
    ensures headed { here.new.seat.header ≡ here.old.seat.header }
{
    match act {
        SideAct::Plain(event) => play(here, committed, event),
        SideAct::Moves {
            meddles,
            stop,
            command,
        } => {
            let meddles = meddles.listed();
            let course = CallPlan {
                stop: *stop,
                meddles,
            };
            commands::command(alloc, which, here, between, &course, command)
        }
    }
}

impl Sides {
    ghost use Rattle.std.specs.Prelude.{IfOk, OnErr, OnOk};
    ghost use Rattle.mm_transfer.specs.Events.{side_event_of, first_transfer_sides, outcome_in, HasRoom, GrowsByOne};
    ghost use Rattle.mm_transfer.specs.Events.{TransferSidesLackMemory};
    ghost use Rattle.mm_transfer.specs.MovePlan.{move_reply_of, IsSayable};
    ghost use Rattle.mm_transfer.specs.Stage.{kept_size_of};
    ghost use Rattle.mm_sides.specs.BothSides.{sides_seen_from};

    /// New sides: the first is provisioned for the header's module, and its first snapshot has
    /// number 0; the second is blank.
    pub fn new(alloc: Global, header: &Header) -> Result<Sides, Memory>
        ensures { IfOk result (λ sides. sides ≡ first_transfer_sides header.now) }
    {
        match Side::live(alloc, header) {
            Err(memory) => Err(memory),
            Ok(first) => Ok(Sides {
                header: *header,
                first,
                second: Side::blank(alloc, header),
                between: IssuedTickets::new(alloc),
                committed: 0,
            }),
        }
    }

    /// Follows one event, and answers it. After want of memory nothing has changed, but that a call
    /// or a move on the event's side may have made its reading steps.
    pub fn event(&mut self, alloc: Global, event: &SideEvent) -> Result<MoveReply, Memory>
        requires { HasRoom self.old }
        ensures reply { IfOk result
            (λ reply. reply ≡ move_reply_of (outcome_in self.old (side_event_of event.now)).reply) }
        ensures sayable { IfOk result IsSayable }
        ensures after { OnOk result
            (self.new.both ≡ (outcome_in self.old (side_event_of event.now)).both) }
        ensures grows { OnOk result (GrowsByOne self.old self.new) }
        ensures wants { OnErr result
            (TransferSidesLackMemory (side_event_of event.now) self.old self.new) }
    {
        let Sides {
            header: _,
            first,
            second,
            between,
            committed,
        } = self;
        match event.which {
            SideChoice::First => act(
                alloc,
                SideChoice::First,
                first,
                between,
                committed,
                &event.act,
            ),
            SideChoice::Second => act(
                alloc,
                SideChoice::Second,
                second,
                between,
                committed,
                &event.act,
            ),
        }
    }

    /// The bytes of the snapshots issued on both sides, and of the tickets.
    pub fn kept(&self) -> u64
        ensures { result ≡ min (kept_size_of self.now.both) (2 ^ 64 - 1) }
    {
        self.first
            .seat
            .kept
            .saturating_add(self.second.seat.kept)
            .saturating_add(self.between.kept)
    }

    /// How many requests were committed.
    pub fn committed(&self) -> u64
        ensures { result ≡ self.now.both.committed }
    {
        self.committed
    }

    /// How many snapshots were issued on a side.
    pub fn issued(&self, which: SideChoice) -> u32
        ensures { result ≡ length (sides_seen_from (which_of which) self.now.both).first.issued }
    {
        match which {
            SideChoice::First => self.first.seat.issued.len() as u32,
            SideChoice::Second => self.second.seat.issued.len() as u32,
        }
    }

    /// How many tickets were handed out.
    pub fn tickets(&self) -> u32
        ensures { result ≡ length self.now.both.tickets }
    {
        self.between.tickets.len() as u32
    }
}
