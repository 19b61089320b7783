//! A replay among its events.

ghost use Rattle.std.specs.Prelude.{◌≡◌, ◌<◌, ◌++◌, length, IfOk, OnErr, OnOk, Some};
ghost use Rattle.mm_bytes.specs.Limits.{most_events};

use crate::put::put_reply;
use crate::report::Report;
use mm_bytes::{Bytes, Memory};
use mm_play::{LineRefusal, PlayStage, ReplyFault};
use mm_schedule::{Event, Header, Meddles, Reply, event_in, put_end};
use mm_world::{EventView, World, line_view, owned_view};
use std::alloc::Global;
use std::marker::Model;

/// A world, and how many events it followed.
#[derive(Drop)]
struct FollowedWorld {
    world: World,
    events: u32,
}

impl Model for FollowedWorld {
    ghost use Rattle.mm_replay.specs.Schedule.{KeepsWorld, replay_state_in, ReplayState};

    ghost Value = { ReplayState };

    ghost view = { λ p. replay_state_in p.world p.events };

    ghost invariant = { λ p. KeepsWorld p.world p.events };
}

impl FollowedWorld {
    ghost use Rattle.mm_replay.specs.Schedule.{replay_state_after, first_replay_state, outcome_of, replay_steps, ReplayLacksMemory};
    ghost use Rattle.mm_schedule.specs.Replies.{IsPrintable, end_line};
    ghost use Rattle.mm_play.specs.Headline.{PutsReply};
    ghost use Rattle.mm_play.specs.Stage.{StageAnswersEvent, answer_by};
    ghost use Rattle.mm_world.specs.Lengths.{event_of_view};

    // A new world, which followed none.
    fn new(alloc: Global, header: &Header) -> Result<FollowedWorld, Memory>
        ensures { IfOk result (λ it. it ≡ first_replay_state header.now) }
    {
        let world = World::new(alloc, header)?;
        Ok(FollowedWorld { world, events: 0 })
    }

    // Plays an event where it lies.
    #[inline(always)]
    fn follow(&mut self, event: EventView<'_>) -> Result<Reply, Memory>
        requires { self.old.events < most_events }
        ensures reply { IfOk result
            (λ reply. reply ≡ (outcome_of self.old (event_of_view event.entry)).reply) }
        ensures printable { IfOk result IsPrintable }
        ensures after { OnOk result
            (self.new ≡ replay_state_after self.old (event_of_view event.entry)) }
        ensures wants { OnErr result
            (ReplayLacksMemory self.old (event_of_view event.entry) self.new) }
    {
        let reply = self.world.follow(event)?;
        self.events += 1;
        Ok(reply)
    }

    // Plays an event where it lies, and puts the reply at the end, as text.
    #[inline(always)]
    fn put_reply_to(&mut self, event: EventView<'_>, into: &mut Bytes) -> Result<(), ReplyFault>
        requires { self.old.events < most_events }
        ensures { PutsReply into.old into.new
            (StageAnswersEvent
            (ReplayLacksMemory self.old (event_of_view event.entry) self.new)
            (answer_by replay_steps self.old (Some (event_of_view event.entry))) self.old
            self.new) result }
    {
        let reply = match self.follow(event) {
            Ok(reply) => reply,
            Err(_) => return Err(ReplyFault::Memory),
        };
        match put_reply(&reply, into) {
            Ok(()) => Ok(()),
            Err(_) => Err(ReplyFault::Memory),
        }
    }

    // Puts the last line at the end.
    fn put_last_line(&self, into: &mut Bytes) -> Result<(), Memory>
        ensures { OnOk result (into.new
            ≡ into.old ++ end_line self.now.digests.count (length self.now.issued)) }
    {
        put_end(self.world.committed(), self.world.issued(), into)
    }
}

/// A replay among its events: a world that follows them, and room for the meddles of a line.
/// Contracts see the first alone.
#[derive(Drop)]
pub struct ScheduleReplay {
    followed: FollowedWorld,
    meddles: Meddles,
}

impl Model for ScheduleReplay {
    ghost use Rattle.mm_replay.specs.Schedule.{ReplayState};

    ghost Value = { ReplayState };

    ghost view = { λ it. it.followed };
}

impl ScheduleReplay {
    ghost use Rattle.mm_replay.specs.Schedule.{replay_state_after, first_replay_state, outcome_of, ReplayLacksMemory};
    ghost use Rattle.mm_schedule.specs.Events.{event_of};
    ghost use Rattle.mm_schedule.specs.Replies.{IsPrintable, end_line};

    /// A replay at its first event.
    pub fn new(alloc: Global, header: &Header) -> Result<ScheduleReplay, Memory>
        ensures { IfOk result (λ it. it ≡ first_replay_state header.now) }
    {
        let followed = FollowedWorld::new(alloc, header)?;
        Ok(ScheduleReplay {
            followed,
            meddles: Meddles::none(),
        })
    }

    /// Plays an event in the world. After want of memory it isn't counted, and all is as the world
    /// leaves it then.
    #[inline(always)]
    pub fn event(&mut self, event: &Event) -> Result<Reply, Memory>
        requires { self.old.events < most_events }
        ensures reply { IfOk result
            (λ reply. reply ≡ (outcome_of self.old (event_of event.now)).reply) }
        ensures printable { IfOk result IsPrintable }
        ensures after { OnOk result (self.new ≡ replay_state_after self.old (event_of event.now)) }
        ensures wants { OnErr result (ReplayLacksMemory self.old (event_of event.now) self.new) }
    {
        self.followed.follow(owned_view(event))
    }

    /// Puts the last line at the end.
    pub fn put_last_line(&self, into: &mut Bytes) -> Result<(), Memory>
        ensures { OnOk result (into.new
            ≡ into.old ++ end_line self.now.digests.count (length self.now.issued)) }
    {
        self.followed.put_last_line(into)
    }

    /// How many requests were committed and snapshots issued.
    pub fn report(&self) -> Report
        ensures committed { result.committed ≡ self.now.digests.count }
        ensures issued { result.issued ≡ length self.now.issued }
    {
        Report {
            committed: self.followed.world.committed(),
            issued: self.followed.world.issued(),
        }
    }
}

impl PlayStage for ScheduleReplay {
    ghost use Rattle.mm_play.specs.Stage.{EventLacksMemory};
    ghost use Rattle.mm_replay.specs.Schedule.{ReplayLacksMemory, replay_stage, replay_steps};
    ghost use Rattle.mm_replay.specs.ScheduleLaws.{counts_on};

    ghost plays = { replay_stage };

    ghost wants = { EventLacksMemory replay_steps ReplayLacksMemory };

    fn events(&self) -> u32 {
        self.followed.events
    }

    fn kept(&self) -> u64 {
        self.followed.world.kept()
    }

    fn is_event(&self, _alloc: Global, line: &[u8]) -> Result<bool, Memory> {
        let mut meddles = Meddles::none();
        Ok(event_in(line, &mut meddles).is_some())
    }

    fn play(&mut self, alloc: Global, line: &[u8]) -> Result<Bytes, ReplyFault> {
        let mut reply = Bytes::new(alloc);
        self.play_into(alloc, line, &mut reply)?;
        Ok(reply)
    }

    fn play_into(
        &mut self,
        _alloc: Global,
        line: &[u8],
        into: &mut Bytes,
    ) -> Result<(), ReplyFault> {
        match event_in(line, &mut self.meddles) {
            Some(text) => self
                .followed
                .put_reply_to(line_view(&self.meddles, text), into),
            None => Err(ReplyFault::Refused(LineRefusal::Bad)),
        }
    }

    fn last_lines(&self, alloc: Global) -> Result<Bytes, Memory> {
        let mut last = Bytes::new(alloc);
        self.put_last_line(&mut last)?;
        Ok(last)
    }

    ghost counts = { counts_on };
}
