//! The command `receipts`: an input's receipts are checked under a key.

ghost use Rattle.mm_receipt.specs.Reports.{ChecksHonestly};
ghost use Rattle.mm_words.specs.declared.command.CommandLine.TheVariants.{Receipts};
ghost use Rattle.mm_app.specs.Commands.{PlaysAndStops};
ghost use Rattle.mm_host_commands.specs.Outside.{Outside, with_streams};
ghost use Rattle.mm_app.specs.Completeness.{CanBeAnswered};
ghost use Rattle.mm_status.specs.Status.{EndsUnrefused};

use mm_base::{Sink, Source};
use mm_receipt::receipts;
use mm_status::{Status, answered};
use std::alloc::Global;

/// Checks the receipts that the input gives, and writes the stop line.
pub fn check_receipts<S: Source, K: Sink>(
    alloc: Global,
    key: &[u8; 32],
    input: &mut S,
    out: &mut K,
) -> Status
    // Whatever the other objects tell (`it`).
    ensures checks { (it : Outside) → PlaysAndStops (ChecksHonestly key.now)
        (with_streams it (S.left input.old) (S.faults input.old) (K.received out.old)
        (K.faults out.old))
        (with_streams it (S.left input.new) (S.faults input.new) (K.received out.new)
        (K.faults out.new)) result }
    ensures complete { CanBeAnswered (Receipts key.now) (S.left input.old) → EndsUnrefused result }
{
    let answer = receipts(alloc, key, input, out);
    answered(&answer, out)
}
