//! The command `receipts KEY`.

ghost use Rattle.std.specs.Prelude.{◌≡◌, ℕ, List, Some, Ok};
ghost use Rattle.mm_play.specs.PlaysInput.{outcome_of_input, IsBlamed, IsUnrefused, is_read_fault, is_write_fault};
ghost use Rattle.mm_receipt.specs.ReceiptCheck.{CheckState, first_check, receipts_answer, receipts_closing, remaining_lines_at};
ghost use Rattle.mm_receipt.specs.ReceiptCheck.{receipts_count_down, receipts_are_few};
ghost use Rattle.mm_receipt.specs.Reports.{tally_of, IsShortAsked, ChecksReceipts, ChecksHonestly, CountsLast};

use crate::pair::AskedRequest;
use crate::report::ReceiptReport;
use crate::tally::Tally;
use crate::text::last_text;
use mm_base::{ReplayFault, Sink, Source};
use mm_bytes::{Bytes, Memory};
use mm_play::{Player, ReplyFault, play};
use std::alloc::Global;
use std::marker::Model;

/// Checks pairs of lines. A first line waits for its second.
#[derive(Drop)]
struct ReceiptPlayer {
    tally: Tally,
    asked: Option<AskedRequest>,
}

impl Model for ReceiptPlayer {
    ghost Value = { CheckState };

    ghost view = { λ it. record { tally = tally_of it.tally; asked = it.asked } };

    ghost invariant = { λ it. IsShortAsked it.asked };
}

impl Player for ReceiptPlayer {
    ghost answer = { receipts_answer };

    ghost closing = { receipts_closing };

    ghost lines_left = { remaining_lines_at };

    fn reply(&mut self, alloc: Global, line: &[u8]) -> Result<Bytes, ReplyFault> {
        match self.asked.take() {
            None => {
                let asked = self.tally.first(alloc, line)?;
                self.asked = Some(asked);
                Ok(Bytes::new(alloc))
            }
            Some(asked) => self.tally.second(alloc, asked, line),
        }
    }

    fn last_lines(&self, alloc: Global) -> Result<Option<Bytes>, Memory> {
        match &self.asked {
            None => {
                let (good, pairs) = self.tally.counts();
                let last = last_text(alloc, good, pairs)?;
                Ok(Some(last))
            }
            Some(_) => Ok(None),
        }
    }

    ghost counts_down = { receipts_count_down };

    ghost few = { receipts_are_few };
}

impl ReceiptPlayer {
    // What stands behind the last line.
    fn report(&self) -> ReceiptReport
        ensures { CountsLast self.now result }
    {
        let (good, pairs) = self.tally.counts();
        ReceiptReport { good, pairs }
    }
}

/// Checks the pairs of an input.
fn receipts_inner<S: Source, K: Sink>(
    alloc: Global,
    key: &[u8; 32],
    input: &mut S,
    out: &mut K,
) -> Result<ReceiptReport, ReplayFault>
    ensures checks { ChecksReceipts key.now (S.left input.old) (S.left input.new)
        (K.received out.old) (K.received out.new) result }
    ensures read { IsBlamed (is_read_fault result) (S.faults input.old) (S.faults input.new) }
    ensures wrote { IsBlamed (is_write_fault result) (K.faults out.old) (K.faults out.new) }
{
    let mut player = ReceiptPlayer {
        tally: Tally::new(alloc, key),
        asked: None,
    };
    match play(alloc, &mut player, input, out) {
        Ok(()) => Ok(player.report()),
        Err(fault) => Err(fault),
    }
}

/// Checks receipts under a key of 32 bytes: pairs of lines, `P REQUEST` with P a decimal from 1 to
/// 281474976710656 and a request of at most 4,096 bytes, and then the output. Each pair is answered
/// `no form`, `no tag`, `clash P` or `good P` before the input is asked for more, and at its end
/// stands the line `end G N`: G of N pairs were good.
///
/// `clash P` comes exactly where the output is a receipt, and an earlier good pair of P had another
/// request or output. `LineLong` comes exactly where a line has more than 8,400 bytes, `BadLine`
/// where a first line has another form, a line has no LF, or a second line is missing, and
/// `TooMuch` at pair 20,001, or where the lines have more than 268,435,456 bytes: tried in this
/// order.
pub fn receipts<S: Source, K: Sink>(
    alloc: Global,
    key: &[u8; 32],
    input: &mut S,
    out: &mut K,
) -> Result<ReceiptReport, ReplayFault>
    ensures checks { ChecksReceipts key.now (S.left input.old) (S.left input.new)
        (K.received out.old) (K.received out.new) result }
    ensures read { IsBlamed (is_read_fault result) (S.faults input.old) (S.faults input.new) }
    ensures wrote { IsBlamed (is_write_fault result) (K.faults out.old) (K.faults out.new) }

    // Lines of that form within the limits are not refused.
    ensures complete { (bytes : List ℕ) → (next : CheckState) → S.left input.old ≡ Some bytes
        → (outcome_of_input receipts_answer receipts_closing (first_check key.now) bytes).outcome
        ≡ Ok next
        → IsUnrefused result }

    // Where a run of short requests tagged the message of each output that is accepted: no line is
    // `clash P`, and each good pair is the request at its position with what was said to it.
    ensures honest { ChecksHonestly key.now (S.left input.old) (S.left input.new)
        (K.received out.old) (K.received out.new) result }
{
    receipts_inner(alloc, key, input, out)
}
