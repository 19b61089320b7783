//! The option `--help`: the forms of words.

ghost use Rattle.std.specs.Prelude.{◌⊎◌};
ghost use Rattle.mm_words.specs.Commands.{help_text};
ghost use Rattle.mm_status.specs.Status.{StopsAs, WritesText};

use mm_base::Sink;
use mm_status::{Status, stopped, written};
use mm_words::help_text;
use std::alloc::Global;

/// Writes the help.
pub fn write_help<K: Sink>(alloc: Global, out: &mut K) -> Status
    ensures { WritesText help_text (K.received out.old) (K.received out.new) (K.faults out.old)
        (K.faults out.new) result
        ⊎ StopsAs Status.Memory (K.received out.old) (K.received out.new) (K.faults out.old)
        (K.faults out.new) result }
{
    match help_text(alloc) {
        Ok(text) => written(text.as_slice(), out),
        Err(_) => stopped(Status::Memory, out),
    }
}
