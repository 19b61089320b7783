//! Whether what is offered is genuine.

ghost use Rattle.std.specs.Prelude.{◌≡◌, ◌≤◌, ℕ, List, Some, IfOk};
ghost use Rattle.mm_bytes.specs.Limits.{last_position};
ghost use Rattle.mm_model.specs.Standing.{IsGenuine};
ghost use Rattle.mm_outcome.specs.OneRun.{world_key};
ghost use Rattle.mm_history.specs.Naming.{IsDecided};
ghost use Rattle.mm_expect.specs.ExpectedState.{EachOfferIsDecided, BasicIssuedAreGenuine, OptIssuedAreGenuine, DecidesOffer, told_offer};
ghost use Rattle.mm_expect.specs.ExpectedState.{right_offer};
ghost use Rattle.mm_outcome.specs.EventOffers.{offered_bytes};
ghost use Rattle.mm_expect.specs.ChronicleView.{chronicle_instance};

use crate::chronicle::Chronicle;
use mm_bytes::Memory;
use mm_history::is_named;
use mm_model::Refusal;
use mm_module::Module;
use mm_schedule::Offer;
use mm_seal::{Body, PartsFault, SealingKey, parts};

/// An offer that isn't right is genuine, and a right one exactly where what it says names a
/// position. An issued snapshot is genuine where each issued one names a position.
pub fn offers_are_decided()
    ensures offers { EachOfferIsDecided }
    ensures basic { BasicIssuedAreGenuine }
    ensures opt { OptIssuedAreGenuine }
{}

/// What a right offer says; else why it is refused: Form, Kind, State and Tag come in this order.
/// Takes no memory.
pub(crate) fn right_body<'a>(
    chronicle: &Chronicle,
    key: &SealingKey,
    bytes: &'a [u8],
) -> Result<Body<'a>, Refusal>
    requires { key.now ≡ world_key }
    ensures offer { told_offer result ≡ right_offer (chronicle_instance chronicle.now) bytes.now }
    ensures few { IfOk result (λ body. body.position ≤ last_position) }
{
    match parts(bytes, chronicle.variant, chronicle.module.id()) {
        Err(PartsFault::Form) => Err(Refusal::Form),
        Err(PartsFault::Kind) => Err(Refusal::Kind),
        Ok(offered) => {
            let body = offered.body();
            if !chronicle.state_is_spelled(body.state) {
                return Err(Refusal::State);
            }
            if !key.tag_right(&offered) {
                return Err(Refusal::Tag);
            }
            Ok(body)
        }
    }
}

// Whether bytes that are read so are genuine.
fn are_genuine(chronicle: &Chronicle, read: &Result<Body<'_>, Refusal>) -> Result<bool, Memory>
    ensures { (bytes : List ℕ)
        → told_offer read.now ≡ right_offer (chronicle_instance chronicle.now) bytes
        → IfOk result
        (λ yes. IsDecided yes
        (IsGenuine (chronicle_instance chronicle.now) chronicle.now.history bytes)) }
{
    match read {
        Err(_) => Ok(true),
        Ok(body) => is_named(
            chronicle.alloc,
            &chronicle.lists,
            &chronicle.waymarks,
            chronicle.variant,
            &chronicle.module,
            &chronicle.barrier,
            body,
        ),
    }
}

/// Whether what is offered, which is read so, is genuine. An issued snapshot always is.
pub(crate) fn is_genuine_offer(
    chronicle: &Chronicle,
    offer: &Offer,
    read: &Result<Body<'_>, Refusal>,
) -> Result<bool, Memory>
    ensures { (issued : List (List ℕ)) (bytes : List ℕ)
        → told_offer read.now ≡ right_offer (chronicle_instance chronicle.now) bytes
        → offered_bytes issued offer.now ≡ Some bytes
        → IfOk result
        (DecidesOffer (chronicle_instance chronicle.now) chronicle.now.history issued
        offer.now) }
{
    match offer {
        Offer::Number(_) => Ok(true),
        Offer::Last => Ok(true),
        Offer::Flip { .. } | Offer::Raw(_) => are_genuine(chronicle, read),
    }
}
