//! Laws of programs that are killed, each the contract of a function that calls what it needs.

ghost use Rattle.mm_life.specs.Stages.{CyclingLives, KilledCheckpointsLive, KilledLossesLive, KilledSessionsLive, KilledStartsLeave};

use mm_host::{InitFault, SessionFault};
use mm_killed::any_program_stops;
use mm_opt::{CheckpointRefusal, Checkpointed};
use mm_platform::StepFault;

/// A program that is killed at any call of its devices is a part of a life: what a session left, a
/// session left that ended by itself, and so of a checkpoint and a loss of power; and a first start
/// that is killed may be made again, or has set up all.
pub fn killed_programs_live()
    ensures sessions { KilledSessionsLive }
    ensures checkpoints { KilledCheckpointsLive }
    ensures losses { KilledLossesLive }
    ensures starts { KilledStartsLeave }
    ensures cycling { CyclingLives }
{
    any_program_stops::<Result<(), SessionFault>>();
    any_program_stops::<Result<Checkpointed, CheckpointRefusal>>();
    any_program_stops::<Result<(), StepFault>>();
    any_program_stops::<Result<(), InitFault>>();
}
