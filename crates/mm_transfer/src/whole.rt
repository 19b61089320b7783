//! A transfer, from the first line to the last.

ghost use Rattle.std.specs.Prelude.{◌≡◌, ℕ, List, Some, Ok};
ghost use Rattle.mm_play.specs.PlaysInput.{outcome_of_input, IsBlamed, IsUnrefused, is_read_fault, is_write_fault};
ghost use Rattle.mm_transfer.specs.Stage.{PlaysTransfer, ReportsTransfer, TransferLineStage as Stands, first_transfer_stage};
ghost use Rattle.mm_transfer.specs.Stage.{transfer_answer, transfer_closing};

use crate::opening::FirstLine;
use crate::report::TransferReport;
use crate::stage::TransferStage;
use mm_base::{ReplayFault, Sink, Source};
use mm_play::{LinePlayer, play};
use mm_sides::{both_sides_agree, one_side_is_live, pairs_are_decided, sides_run_as_one};
use std::alloc::Global;

/// What stands behind the last line.
fn report_of(player: &LinePlayer<FirstLine, TransferStage>) -> TransferReport
    ensures { ReportsTransfer player.now result }
{
    match player.stage() {
        Some(stage) => stage.report(),
        None => TransferReport {
            committed: 0,
            issued: [0, 0],
            tickets: 0,
        },
    }
}

/// Replays the events of two sides: the first line, and then the event lines. Each reply is written
/// before the input is asked for more, and at the end of the input the line `end N K0 K1 T`: N
/// requests committed, K0 and K1 snapshots issued on the two sides, T tickets handed out.
///
/// `LineLong` comes exactly where a line has more than 8,400 bytes, `BadLine` where it is outside
/// the grammar, has no LF, or is missing, and `TooMuch` where it is event 20,001, or where the
/// event lines, the snapshots issued on both sides and the tickets have more than 268,435,456
/// bytes: tried in this order. The line's event isn't run then, and all replies before it are out.
pub fn transfer<S: Source, K: Sink>(
    alloc: Global,
    input: &mut S,
    out: &mut K,
) -> Result<TransferReport, ReplayFault>
    ensures plays { PlaysTransfer (S.left input.old) (S.left input.new) (K.received out.old)
        (K.received out.new) result }
    ensures read { IsBlamed (is_read_fault result) (S.faults input.old) (S.faults input.new) }
    ensures wrote { IsBlamed (is_write_fault result) (K.faults out.old) (K.faults out.new) }

    // A schedule of both sides within the grammar and the limits is not refused.
    ensures complete { (bytes : List ℕ) → (next : Stands) → S.left input.old ≡ Some bytes
        → (outcome_of_input transfer_answer transfer_closing first_transfer_stage bytes).outcome
        ≡ Ok next
        → IsUnrefused result }
{
    // Laws, which do nothing: the clauses rest on their contracts.
    both_sides_agree();
    one_side_is_live();
    sides_run_as_one();
    pairs_are_decided();
    let mut player: LinePlayer<FirstLine, TransferStage> = LinePlayer::new(FirstLine {});
    let played = play(alloc, &mut player, input, out);
    let report = report_of(&player);
    // A call drops it whole: else each way out takes it apart here.
    drop(player);
    match played {
        Ok(()) => Ok(report),
        Err(fault) => Err(fault),
    }
}
