//! The lines of replies.

ghost use Rattle.std.specs.Prelude.{◌≡◌, ◌++◌, ◌∷◌, [], OnOk};
ghost use Rattle.mm_schedule.specs.Replies.{IsPrintable, end_line, lines_of_reply};

use mm_bytes::{Bytes, Memory};
use mm_numbering::TextList;
use mm_schedule::{Reply, put_end, put_line, reply_lines};
use std::alloc::Global;

/// The bytes that are reserved for a line: most have no more.
const USUAL_LINE: usize = 32;

/// Puts the lines of a reply at the end, each with its LF.
pub(crate) fn put_reply(alloc: Global, lines: &mut TextList, reply: &Reply) -> Result<(), Memory>
    requires { IsPrintable reply.now }
    ensures { OnOk result (lines.new ≡ lines.old ++ lines_of_reply reply.now) }
{
    let mut line = Bytes::with_capacity(alloc, USUAL_LINE)?;
    'lines: for index in 0..reply_lines(reply) {
        line.clear();
        put_line(reply, index, &mut line)?;
        lines.push(line.as_slice())?;
    }
    Ok(())
}

/// Puts the line `end N K` at the end.
pub(crate) fn put_last(
    alloc: Global,
    lines: &mut TextList,
    committed: u64,
    issued: u32,
) -> Result<(), Memory>
    ensures { OnOk result (lines.new ≡ lines.old ++ end_line committed issued ∷ []) }
{
    let mut line = Bytes::with_capacity(alloc, USUAL_LINE)?;
    put_end(committed, issued, &mut line)?;
    lines.push(line.as_slice())
}
