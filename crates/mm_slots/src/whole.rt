//! Slots, from the first line to the last lines.

ghost use Rattle.std.specs.Prelude.{◌≡◌, ℕ, List, Some, Ok};
ghost use Rattle.mm_play.specs.PlaysInput.{outcome_of_input, IsBlamed, IsUnrefused, is_read_fault, is_write_fault};
ghost use Rattle.mm_slots.specs.Stage.{SlotsStage as Stands, first_slots_stage, slots_answer, slots_closing, PlaysSlots, ReportsSlots};

use crate::laws::slots_run;
use crate::opening::SlotsHeading;
use crate::report::SlotReport;
use crate::stage::SlotsStage;
use mm_base::{ReplayFault, Sink, Source};
use mm_evidence::premises_or_evidence;
use mm_play::{LinePlayer, play};
use std::alloc::Global;

/// What stands behind the last line.
fn report_of(player: &LinePlayer<SlotsHeading, SlotsStage>) -> SlotReport
    ensures { ReportsSlots player.now result }
{
    match player.stage() {
        Some(stage) => stage.report(),
        None => SlotReport {
            committed: 0,
            issued: 0,
        },
    }
}

/// Answers the events of slots line by line: the first line names the number of slots, a header
/// line for each follows, and then the events. Each answer is written before the input is asked for
/// more, and at the end of the input a line `end I N K` for each slot: in slot I N requests
/// committed, K snapshots issued. The report has their sums.
///
/// `LineLong` comes exactly where a line has more than 8,400 bytes, `BadLine` where it is outside
/// the grammar, has no LF, or is missing, and `TooMuch` where it is event 20,001, or where the
/// event lines and the snapshots issued in all slots have more than 268,435,456 bytes: tried in
/// this order. The line's event doesn't happen then, and all answers before it are out.
pub fn slots<S: Source, K: Sink>(
    alloc: Global,
    input: &mut S,
    out: &mut K,
) -> Result<SlotReport, ReplayFault>
    ensures plays { PlaysSlots (S.left input.old) (S.left input.new) (K.received out.old)
        (K.received out.new) result }
    ensures read { IsBlamed (is_read_fault result) (S.faults input.old) (S.faults input.new) }
    ensures wrote { IsBlamed (is_write_fault result) (K.faults out.old) (K.faults out.new) }

    // Lines of slots within the grammar and the limits are not refused.
    ensures complete { (bytes : List ℕ) → (next : Stands) → S.left input.old ≡ Some bytes
        → (outcome_of_input slots_answer slots_closing first_slots_stage bytes).outcome ≡ Ok next
        → IsUnrefused result }
{
    // Laws, which do nothing: the clauses rest on their contracts.
    slots_run();
    premises_or_evidence();
    let mut player: LinePlayer<SlotsHeading, SlotsStage> = LinePlayer::new(SlotsHeading::new());
    match play(alloc, &mut player, input, out) {
        Ok(()) => Ok(report_of(&player)),
        Err(fault) => Err(fault),
    }
}
