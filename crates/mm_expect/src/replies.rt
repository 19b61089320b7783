//! The reply that a call gets in a schedule.

ghost use Rattle.std.specs.Prelude.{◌≡◌, ◌∷◌, [], None, option_to_list};
ghost use Rattle.mm_call.specs.CallOutcome.{Answers};
ghost use Rattle.mm_schedule.specs.declared.reply.Way.TheVariants.{Fault};
ghost use Rattle.mm_outcome.specs.Premises.{reply_of, snapshots_of, closing_reply};
ghost use Rattle.mm_expect.specs.Calls.{ending_of};
ghost use Rattle.mm_expect.specs.ChronicleView.{ending_of_closing};

use crate::calls::ClosingResult;
use mm_bytes::Bytes;
use mm_call::AskResult;
use mm_model::{BatchAnswer, Refusal};
use mm_outcome::cause;
use mm_schedule::{Cause, Reply, Way};

/// A reply, and the snapshot that is handed out with it.
#[derive(Drop)]
pub(crate) struct EventReply {
    pub(crate) reply: Reply,
    pub(crate) snapshot: Option<Bytes>,
}

// The reply that tells an answer.
fn told(answer: BatchAnswer) -> EventReply
    ensures reply { result.reply ≡ reply_of Fault (Answers answer) }
    ensures snapshot { option_to_list result.snapshot ≡ answer.snapshot ∷ [] }
{
    let BatchAnswer {
        again,
        position,
        outputs,
        snapshot,
    } = answer;
    let size = outputs.len() as u64;
    EventReply {
        reply: Reply::Told {
            again,
            before: position.saturating_sub(size),
            outputs,
        },
        snapshot: Some(snapshot),
    }
}

/// What is said of a call that ended so, and that was to be broken off in this way.
pub(crate) fn said_of(way: Way, ended: AskResult) -> EventReply
    ensures reply { result.reply ≡ reply_of way (ending_of ended) }
    ensures snapshot { option_to_list result.snapshot ≡ snapshots_of (ending_of ended) }
{
    match ended {
        AskResult::Answered(answer) => told(answer),
        AskResult::Refused(refusal) => quiet(Reply::No(cause(refusal))),
        AskResult::Broken {
            commits: Some(position),
            ..
        } => quiet(Reply::Kept { way, position }),
        AskResult::Broken { commits: None, .. } => quiet(Reply::Nothing { way }),
    }
}

/// A reply alone.
pub(crate) fn quiet(reply: Reply) -> EventReply
    ensures { result ≡ record { reply = reply; snapshot = None } }
{
    EventReply {
        reply,
        snapshot: None,
    }
}

/// What is said of a checkpoint that ended so, and that was to be broken off in this way.
pub(crate) fn closing_said(way: Way, closing: ClosingResult) -> Reply
    ensures { result ≡ closing_reply way (ending_of_closing closing) }
{
    match closing {
        ClosingResult::Closes => Reply::Checkpointed,
        ClosingResult::HasNone => Reply::No(Cause::Kind),
        ClosingResult::NoSegment => Reply::No(Cause::Segment),
        ClosingResult::LostPower => Reply::No(Cause::Lost),
        ClosingResult::Stops { closed: true, .. } => Reply::Closed { way },
        ClosingResult::Stops { closed: false, .. } => Reply::Nothing { way },
    }
}
