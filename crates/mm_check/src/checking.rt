//! A recorded run, from its header to its last line.

ghost use Rattle.std.specs.Prelude.{◌≡◌, ℕ, List, Some, Ok};
ghost use Rattle.mm_play.specs.PlaysInput.{outcome_of_input, IsBlamed, IsUnrefused, is_read_fault, is_write_fault};
ghost use Rattle.mm_schedule.specs.Headers.{header_at};
ghost use Rattle.mm_check.specs.CheckStage.{CheckStage, AtHeader, check_answer, check_closing};
ghost use Rattle.mm_check.specs.Checks.{ChecksRun, JudgePromise};

use crate::nowhere::NullSink;
use crate::player::CheckPlayer;
use crate::texts::verdicts_text;
use crate::verdicts::Verdicts;
use mm_base::{ReplayFault, Sink, Source, write_all};
use mm_play::play;
use std::alloc::Global;

/// Reads a recorded run to its end, and tells the verdicts on it.
fn judge<S: Source>(alloc: Global, input: &mut S) -> Result<Verdicts, ReplayFault>
    ensures judges { JudgePromise (S.left input.old) (S.left input.new) result }
    ensures read { IsBlamed (is_read_fault result) (S.faults input.old) (S.faults input.new) }

    // A recorded run within the grammar and the limits is not refused.
    ensures complete { (bytes : List ℕ) → (next : CheckStage) → S.left input.old ≡ Some bytes
        → (outcome_of_input (check_answer header_at) check_closing AtHeader bytes).outcome ≡ Ok next
        → IsUnrefused result }
{
    let mut player = CheckPlayer::new();
    let judged = verdicts_by(alloc, &mut player, input);
    // A call drops it whole: else each way out takes it apart here.
    drop(player);
    judged
}

// The same, by a player that stands before the header.
fn verdicts_by<S: Source>(
    alloc: Global,
    player: &mut CheckPlayer,
    input: &mut S,
) -> Result<Verdicts, ReplayFault>
    requires { player.old ≡ AtHeader }
    ensures judges { JudgePromise (S.left input.old) (S.left input.new) result }
    ensures read { IsBlamed (is_read_fault result) (S.faults input.old) (S.faults input.new) }
    ensures complete { (bytes : List ℕ) → (next : CheckStage) → S.left input.old ≡ Some bytes
        → (outcome_of_input (check_answer header_at) check_closing AtHeader bytes).outcome ≡ Ok next
        → IsUnrefused result }
{
    let mut nowhere = NullSink {};
    match play(alloc, player, input, &mut nowhere) {
        Ok(()) => match player.take_verdicts(alloc) {
            Ok(verdicts) => Ok(verdicts),
            Err(_) => Err(ReplayFault::Memory),
        },
        Err(fault) => Err(fault),
    }
}

/// Checks a recorded run: a schedule and, at will, the line `replies` and the reply lines that were
/// recorded.
///
/// The first line written tells the premises of the headline: `held`, or the first of `shared I J`,
/// `zero I`, `secured I` and `forged I` that applies, by the numbers of messages and of events,
/// from 1. The second line is `agree` where the recorded lines are those that are expected, or
/// `differ I` by the first that isn't, is missing or is too many. Without the section the lines
/// that the run itself gives are tested. Both lines are written once the input was read to its end.
///
/// `LineLong` comes exactly where a line has more than 8,400 bytes, `BadLine` where a line before
/// the section is outside the grammar, has no LF, or is missing, and `TooMuch` where it is event
/// 20,001, where the event lines and the snapshots issued have more than 268,435,456 bytes, or at
/// recorded line 1,280,002: tried in this order. Nothing is written then.
pub fn check<S: Source, K: Sink>(
    alloc: Global,
    input: &mut S,
    out: &mut K,
) -> Result<Verdicts, ReplayFault>
    ensures checks { ChecksRun (S.left input.old) (S.left input.new) (K.received out.old)
        (K.received out.new) result }
    ensures read { IsBlamed (is_read_fault result) (S.faults input.old) (S.faults input.new) }
    ensures wrote { IsBlamed (is_write_fault result) (K.faults out.old) (K.faults out.new) }

    // A recorded run within the grammar and the limits is not refused.
    ensures complete { (bytes : List ℕ) → (next : CheckStage) → S.left input.old ≡ Some bytes
        → (outcome_of_input (check_answer header_at) check_closing AtHeader bytes).outcome ≡ Ok next
        → IsUnrefused result }
{
    let verdicts = match judge(alloc, input) {
        Ok(verdicts) => verdicts,
        Err(fault) => return Err(fault),
    };
    let text = match verdicts_text(alloc, &verdicts) {
        Ok(text) => text,
        Err(_) => return Err(ReplayFault::Memory),
    };
    match write_all(out, text.as_slice()) {
        Ok(()) => Ok(verdicts),
        Err(_) => Err(ReplayFault::WriteFault),
    }
}
