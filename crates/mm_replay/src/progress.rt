//! A replay whose events are values, within the limits of one whose events are lines.

ghost use Rattle.std.specs.Prelude.{◌≡◌, ◌≤◌, ◌++◌, length, IfOk, OnOk};
ghost use Rattle.mm_bytes.specs.Limits.{longest_line};

use crate::replaying::ScheduleReplay;
use crate::report::Report;
use mm_bytes::{Bytes, Memory};
use mm_play::{LineRefusal, Progress as Events, ReplyFault};
use mm_schedule::{Event, Header, Reply};
use std::alloc::Global;

/// A replay among its events, each of which has a line.
#[derive(Drop)]
pub struct ReplayProgress {
    replay: Events<ScheduleReplay>,
}

impl ReplayProgress {
    ghost use Rattle.mm_replay.specs.Progress.{running_replay, AnswersEvent};
    ghost use Rattle.mm_replay.specs.Schedule.{first_running_replay};
    ghost use Rattle.mm_schedule.specs.Events.{event_of};
    ghost use Rattle.mm_schedule.specs.Replies.{IsPrintable, end_line};

    /// A replay at its first event.
    pub fn new(alloc: Global, header: &Header) -> Result<ReplayProgress, Memory>
        ensures { IfOk result (λ progress. running_replay progress
            ≡ first_running_replay header.now) }
    {
        let replaying = ScheduleReplay::new(alloc, header)?;
        Ok(ReplayProgress {
            replay: Events::new(replaying),
        })
    }

    /// The reply to an event, which this line of at most 8,400 bytes spells. `LineRefusal::Much`
    /// comes exactly where it is event 20,001, or where the event lines and the snapshots issued
    /// have more than 268,435,456 bytes; it isn't run then. After want of memory the event isn't
    /// counted, nor its line, and all is as the world leaves it then.
    #[inline(always)]
    pub fn reply_to_event(&mut self, line: &[u8], event: &Event) -> Result<Reply, ReplyFault>
        requires { length line.now ≤ longest_line }
        ensures answers { AnswersEvent (running_replay self.old) (running_replay self.new) line.now
            (event_of event.now) result }
        ensures printable { IfOk result IsPrintable }
    {
        if self.replay.is_full(line) {
            return Err(ReplyFault::Refused(LineRefusal::Much));
        }
        match self.replay.stage.event(event) {
            Ok(reply) => {
                self.replay.count_line(line);
                Ok(reply)
            }
            Err(_) => Err(ReplyFault::Memory),
        }
    }

    /// Puts the last line at the end.
    pub fn put_last_line(&self, into: &mut Bytes) -> Result<(), Memory>
        ensures { OnOk result
            (into.new ≡ into.old ++ end_line (running_replay self.now).digests.count
            (length (running_replay self.now).issued)) }
    {
        self.replay.stage.put_last_line(into)
    }

    /// How many requests were committed and snapshots issued.
    pub fn report(&self) -> Report
        ensures committed { result.committed ≡ (running_replay self.now).digests.count }
        ensures issued { result.issued ≡ length (running_replay self.now).issued }
    {
        self.replay.stage.report()
    }
}
