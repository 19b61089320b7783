//! The lines before the events of slots: the first one, and a header line for each slot.

ghost use Rattle.std.specs.Prelude.{◌≡◌};
ghost use Rattle.mm_slots.specs.Stage.{slots_heads};
ghost use Rattle.mm_slots.specs.StageLaws.{openings_fall, openings_few};

use crate::heading::{take_first, take_head};
use crate::heads::Heads;
use crate::stage::SlotsStage;
use mm_play::{Heading, ReplyFault};
use std::alloc::Global;
use std::marker::Model;

/// Before the first line there are no heads.
#[derive(Drop)]
pub struct SlotsHeading {
    heads: Option<Heads>,
}

impl Model for SlotsHeading {
    ghost use Rattle.mm_slots.specs.Stage.{opening_in, OpeningStage as Stands};

    ghost Value = { Stands };

    ghost view = { λ it. opening_in it.heads };
}

impl SlotsHeading {
    ghost use Rattle.mm_slots.specs.Stage.{AtFirst};

    /// Slots before their first line.
    pub fn new() -> SlotsHeading
        ensures { result ≡ AtFirst }
    {
        SlotsHeading { heads: None }
    }
}

impl Heading<SlotsStage> for SlotsHeading {
    ghost heads = { slots_heads };

    fn take_line(&mut self, alloc: Global, line: &[u8]) -> Result<Option<SlotsStage>, ReplyFault> {
        match &mut self.heads {
            None => take_first(alloc, line, &mut self.heads),
            Some(heads) => take_head(alloc, line, heads),
        }
    }

    ghost fewer = { openings_fall };

    ghost few = { openings_few };
}
