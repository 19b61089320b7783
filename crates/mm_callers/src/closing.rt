//! A caller of Opt that closes the segment between a request and the same request once more.

ghost use Rattle.mm_module.specs.Batch.{One};
ghost use Rattle.mm_callers.specs.Opt.{NeverTwice, RepeatsBehind};
ghost use Rattle.mm_callers.specs.Counts.{CountsRepeat};

use mm_model::{Answer, Refusal};
use mm_module::Module;
use mm_opt::{CheckpointRefusal, ask, checkpoint};
use mm_platform::Platform;
use std::alloc::Global;

/// What a request was answered, and what it was answered once more.
#[derive(Drop)]
pub struct Replies {
    pub first: Answer,
    pub second: Answer,
}

/// Why there aren't two replies.
#[derive(Clone, Copy, PartialEq, Eq)]
pub enum RepeatRefusal {
    /// One of the two calls was refused.
    Asking(Refusal),
    /// The checkpoint was refused.
    Closing(CheckpointRefusal),
}

/// Asks for a request, offering a snapshot; closes the segment; and asks for the same request once
/// more, offering the same snapshot. The second reply is the first one again, and the request
/// stands once in the run.
pub fn ask_close_repeat<M: Module, P: Platform>(
    alloc: Global,
    module: &M,
    platform: &mut P,
    offer: &[u8],
    request: &[u8],
) -> Result<Replies, RepeatRefusal>
    ensures repeats { RepeatsBehind (M.meaning «module».now) (P.standing platform.old)
        (P.standing platform.new) offer.now request.now result }
    ensures never_twice { NeverTwice (M.meaning «module».now) (P.standing platform.old)
        (P.standing platform.new) offer.now request.now result }
    ensures counts { CountsRepeat (One request.now) (P.standing platform.old)
        (P.standing platform.new) result }
{
    match ask(alloc, module, platform, offer, request) {
        Err(refusal) => Err(RepeatRefusal::Asking(refusal)),
        Ok(first) => match checkpoint(platform) {
            Err(refusal) => Err(RepeatRefusal::Closing(refusal)),
            Ok(_) => match ask(alloc, module, platform, offer, request) {
                Err(refusal) => Err(RepeatRefusal::Asking(refusal)),
                Ok(second) => Ok(Replies { first, second }),
            },
        },
    }
}
