//! The hashes of a batch.

ghost use Rattle.std.specs.Prelude.{◌≡◌};
ghost use Rattle.mm_module.specs.Batches.{batch_of};
ghost use Rattle.mm_model.specs.Chains.{guard, link};

use mm_digest::{Digest, secured, secured_batch, successor, successor_batch};
use mm_module::Batch;

/// The summary behind this one, after one more batch.
#[tactic(auto, unfolding(crate::specs::Chains::link, mm_digest::specs::Messages::successor_digest_of, mm_digest::specs::Messages::successor_batch_digest_of))]
pub fn link(summary: &Digest, batch: Batch<'_>) -> Digest
    ensures { result.bytes ≡ link summary.now.bytes (batch_of batch.entry) }
{
    match batch {
        Batch::One(request) => successor(summary, request),
        Batch::Many(text) => successor_batch(summary, text),
    }
}

/// The value by which a batch extends the register.
#[tactic(auto, unfolding(crate::specs::Chains::guard, mm_digest::specs::Messages::secured_digest_of, mm_digest::specs::Messages::secured_batch_digest_of))]
pub fn guard(barrier: &[u8; 32], batch: Batch<'_>) -> Digest
    ensures { result.bytes ≡ guard barrier.now (batch_of batch.entry) }
{
    match batch {
        Batch::One(request) => secured(barrier, request),
        Batch::Many(text) => secured_batch(barrier, text),
    }
}
