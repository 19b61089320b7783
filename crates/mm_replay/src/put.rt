//! Replies as text.

ghost use Rattle.std.specs.Prelude.{◌≡◌, ◌++◌, OnOk};
ghost use Rattle.mm_schedule.specs.Replies.{IsPrintable};
ghost use Rattle.mm_replay.specs.Schedule.{text_of_replies};

use mm_bytes::{Bytes, Memory};
use mm_schedule::{Reply, put_line, reply_lines};

/// Puts the lines of a reply at the end.
#[inline(always)]
pub fn put_reply(reply: &Reply, into: &mut Bytes) -> Result<(), Memory>
    requires { IsPrintable reply.now }
    ensures { OnOk result (into.new ≡ into.old ++ text_of_replies reply.now) }
{
    'lines: for index in 0..reply_lines(reply) {
        put_line(reply, index, into)?;
    }
    Ok(())
}
