//! Whether an offer is accepted.

ghost use Rattle.std.specs.Prelude.{◌≡◌, ◌+◌, ◌≤◌, false, IsTrue, OnOk, nat_le};
ghost use Rattle.mm_bytes.specs.Limits.{last_position};
ghost use Rattle.mm_module.specs.Batch.{size_of};
ghost use Rattle.mm_module.specs.Batches.{batch_of};
ghost use Rattle.mm_model.specs.Moves.{is_long};
ghost use Rattle.mm_call.specs.CallFinding.{check_of_verdict, SettlesOffer};

use mm_bytes::LAST_POSITION;
use mm_model::{Refusal, Verdict};
use mm_module::{Batch, Module};
use mm_seal::{Offered, SealingKey};

/// What comes before the verdict on an offer, which is wanted only behind it: State where its state
/// is none of the module's, and else Tag where its tag is wrong. Takes no memory.
pub fn vet<M: Module>(module: &M, key: &SealingKey, offered: &Offered<'_>) -> Result<(), Refusal>
    ensures order { SettlesOffer (M.meaning «module».now) key.now offered.now result }
    ensures spelled { OnOk result
        (IsTrue ((M.meaning «module».now).is_spelled offered.now.content.state)) }
{
    if !module.state_is_spelled(offered.body().state) {
        return Err(Refusal::State);
    }
    if !key.tag_right(offered) {
        return Err(Refusal::Tag);
    }
    Ok(())
}

/// Whether the batch is a repeat, by the verdict on an offer that was vetted. Stale and Lost come
/// before Full. Takes no memory.
pub fn admit_batch(
    offered: &Offered<'_>,
    batch: Batch<'_>,
    verdict: Verdict,
) -> Result<bool, Refusal>
    requires position { offered.now.content.position ≤ last_position }
    requires short { is_long (batch_of batch) ≡ false }
    ensures answer { result ≡ check_of_verdict verdict
        (nat_le (offered.now.content.position + size_of (batch_of batch.entry)) last_position) }
    ensures fits { OnOk result (offered.now.content.position + size_of (batch_of batch.entry)
        ≤ last_position) }
{
    admit(
        verdict,
        offered.body().position + batch.len() as u64 <= LAST_POSITION,
    )
}

/// Whether the batch is a repeat, by the verdict on an offer that is right, and by whether there
/// are positions left for it. Takes no memory.
pub fn admit(verdict: Verdict, fits: bool) -> Result<bool, Refusal>
    ensures answer { result ≡ check_of_verdict verdict fits }
    ensures fits { OnOk result (IsTrue fits) }
{
    match verdict {
        Verdict::Lost => Err(Refusal::Lost),
        Verdict::Stale => Err(Refusal::Stale),
        Verdict::Fresh | Verdict::Again if !fits => Err(Refusal::Full),
        Verdict::Fresh => Ok(false),
        Verdict::Again => Ok(true),
    }
}
