//! Schedules, from the header to the last line.

ghost use Rattle.std.specs.Prelude.{◌≡◌, ℕ, List, Some, Ok};
ghost use Rattle.mm_play.specs.PlaysInput.{outcome_of_input, IsBlamed, IsUnrefused, is_read_fault, is_write_fault};
ghost use Rattle.mm_replay.specs.Schedule.{ReplayStage, header_stage, schedule_answer, schedule_closing, ReplaysSchedule, ReportsReplay};

use crate::heading::HeaderLine;
use crate::replaying::ScheduleReplay;
use crate::report::Report;
use mm_base::{ReplayFault, Sink, Source};
use mm_evidence::premises_or_evidence;
use mm_outcome::fronts_are_one_run;
use mm_play::{LinePlayer, play};
use std::alloc::Global;

/// What stands behind the last line.
fn report_of(player: &LinePlayer<HeaderLine, ScheduleReplay>) -> Report
    ensures { ReportsReplay player.now result }
{
    match player.stage() {
        Some(replaying) => replaying.report(),
        None => Report {
            committed: 0,
            issued: 0,
        },
    }
}

/// Replays a schedule: its header line, and then its event lines. Each reply is written before the
/// input is asked for more, and at the end of the input the line `end N K`: N requests committed, K
/// snapshots issued.
///
/// `LineLong` comes exactly where a line has more than 8,400 bytes, `BadLine` where it is outside
/// the grammar, has no LF, or is missing, and `TooMuch` where it is event 20,001, or where the
/// event lines and the snapshots issued have more than 268,435,456 bytes: tried in this order. The
/// line's event isn't run then, and all replies before it are out.
pub fn replay<S: Source, K: Sink>(
    alloc: Global,
    input: &mut S,
    out: &mut K,
) -> Result<Report, ReplayFault>
    ensures replays { ReplaysSchedule (S.left input.old) (S.left input.new) (K.received out.old)
        (K.received out.new) result }
    ensures read { IsBlamed (is_read_fault result) (S.faults input.old) (S.faults input.new) }
    ensures wrote { IsBlamed (is_write_fault result) (K.faults out.old) (K.faults out.new) }

    // A schedule within the grammar and the limits is not refused.
    ensures complete { (bytes : List ℕ) → (next : ReplayStage) → S.left input.old ≡ Some bytes
        → (outcome_of_input schedule_answer schedule_closing header_stage bytes).outcome ≡ Ok next
        → IsUnrefused result }
{
    // Laws, which do nothing: the clauses rest on their contracts.
    fronts_are_one_run();
    premises_or_evidence();
    let mut player: LinePlayer<HeaderLine, ScheduleReplay> = LinePlayer::new(HeaderLine {});
    let played = play(alloc, &mut player, input, out);
    let report = report_of(&player);
    // A call drops it whole: else each way out takes it apart here.
    drop(player);
    match played {
        Ok(()) => Ok(report),
        Err(fault) => Err(fault),
    }
}
