//! A checkpoint whose device steps a host makes.

ghost use Rattle.mm_machine.specs.declared.call.OpStage.TheVariants.{Begun};
ghost use Rattle.mm_opt.specs.Checkpoints.{closing_operation};
ghost use Rattle.mm_told.specs.ToldCheckpointPromise.{ToldCheckpointPromise};
ghost use Rattle.mm_told.specs.CallPath.{StepsComeTo, Host, IsHostOf};
ghost use Rattle.mm_told.specs.ToldAskPromise.{closing_outcome};
ghost use Rattle.std.specs.Prelude.{◌≡◌};

use crate::outcome::StepsOutcome;
use crate::step::MadeStep;
use crate::told::{CallProgress, tell};
use mm_machine::OpStage;
use mm_opt::{CheckpointRefusal, Checkpointed, OptCheckpoint, closing_result};
use mm_seal::KeptKey;

/// What a checkpoint comes to with these steps made, as `ask` says of a call. It is over after at
/// most three steps. Takes no memory.
pub fn checkpoint(made: &[MadeStep]) -> StepsOutcome<Result<Checkpointed, CheckpointRefusal>>
    ghost host: { Host }
    requires { IsHostOf made.now host }
    ensures { ToldCheckpointPromise host made.now result }
{
    told(follow(made, &mut KeptKey::new()))
}

fn follow(made: &[MadeStep], keys: &mut KeptKey) -> CallProgress<Checkpointed, CheckpointRefusal>
    ensures { StepsComeTo closing_operation Begun made.now result }
{
    tell(&OptCheckpoint, OpStage::Begun, made, keys)
}

// As it is told.
fn told(
    came: CallProgress<Checkpointed, CheckpointRefusal>,
) -> StepsOutcome<Result<Checkpointed, CheckpointRefusal>>
    ensures { result ≡ closing_outcome came }
{
    match came {
        CallProgress::Next(step) => StepsOutcome::Next(step),
        CallProgress::Over(end) => StepsOutcome::Ended(closing_result(end)),
        CallProgress::Before(_) => StepsOutcome::Differs,
        CallProgress::Elsewhere => StepsOutcome::Differs,
    }
}
