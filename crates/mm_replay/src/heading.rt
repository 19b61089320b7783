//! The header line of a schedule.

ghost use Rattle.mm_replay.specs.Schedule.{replay_heads};
ghost use Rattle.mm_replay.specs.ScheduleLaws.{leads_nowhere, leaves_none};

use crate::replaying::ScheduleReplay;
use mm_play::{Heading, LineRefusal, ReplyFault};
use mm_schedule::read_header;
use std::alloc::Global;

/// A schedule before its header line.
#[derive(Drop)]
pub struct HeaderLine {}

impl Heading<ScheduleReplay> for HeaderLine {
    ghost heads = { replay_heads };

    fn take_line(
        &mut self,
        alloc: Global,
        line: &[u8],
    ) -> Result<Option<ScheduleReplay>, ReplyFault> {
        let header = match read_header(line) {
            Some(header) => header,
            None => return Err(ReplyFault::Refused(LineRefusal::Bad)),
        };
        match ScheduleReplay::new(alloc, &header) {
            Ok(replaying) => Ok(Some(replaying)),
            Err(_) => Err(ReplyFault::Memory),
        }
    }

    ghost fewer = { leads_nowhere };

    ghost few = { leaves_none };
}
