//! What comes to a slot from outside: values that others extend its register by, and a loss of
//! power.

use crate::parts::Parts;
use crate::said::SlotReply;
use mm_bytes::Memory;
use mm_digest::Digest;
use mm_schedule::Reply;

impl Parts {
    ghost use Rattle.std.specs.Prelude.{◌≡◌, None, IsSome};
    ghost use Rattle.mm_slots.specs.HeldParts.{PartsFit, SlotTakes, SlotLosesPower};
    ghost use Rattle.mm_slots.specs.declared.event.SlotAction.{SlotAction};

    /// Others extend the register: now, or just before the next step of the call in flight.
    pub fn extend(&mut self, value: &Digest) -> Result<SlotReply, Memory>
        requires fits { PartsFit self.old }
        ensures { SlotTakes (SlotAction.Extend value.now) self.old self.new result }
    {
        match &self.flight {
            None => self.extend_now(value),
            Some(_) => self.extend_next(value),
        }
    }

    // Others extend the register now, where no call is in flight.
    fn extend_now(&mut self, value: &Digest) -> Result<SlotReply, Memory>
        requires fits { PartsFit self.old }
        requires idle { self.old.flight ≡ None }
        ensures { SlotTakes (SlotAction.Extend value.now) self.old self.new result }
    {
        let reply = self.seat.extend(value)?;
        self.register = *self.seat.platform.register();
        Ok(SlotReply::Replied(reply))
    }

    // Others extend the register just before the next step of the call in flight.
    fn extend_next(&mut self, value: &Digest) -> Result<SlotReply, Memory>
        requires fits { PartsFit self.old }
        requires flies { IsSome self.old.flight }
        ensures { SlotTakes (SlotAction.Extend value.now) self.old self.new result }
    {
        self.seat.platform.meddle_next(value)?;
        Ok(SlotReply::Replied(Reply::Extended))
    }

    /// Power is lost and comes back. The call in flight is over, and has changed nothing.
    pub fn lose_power(&mut self)
        requires { PartsFit self.old }
        ensures { SlotLosesPower self.old self.new }
    {
        let platform = &mut self.seat.platform;
        platform.lose_power();
        platform.end_plan();
        self.register = *platform.register();
        // A call drops it whole: else all that may be in flight is taken apart here.
        drop(self.flight.take());
    }
}
