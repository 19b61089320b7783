//! What is found of an offer.

ghost use Rattle.std.specs.Prelude.{◌≡◌};

use crate::chronicle::Chronicle;
use mm_bytes::LAST_POSITION;
use mm_call::admit;
use mm_digest::Variant;
use mm_model::{Refusal, Verdict};
use mm_module::Batch;
use mm_seal::Body;

impl Chronicle {
    ghost use Rattle.std.specs.Prelude.{◌≡◌, ◌≤◌, ℕ, List, false, IfOk};
    ghost use Rattle.mm_bytes.specs.Limits.{last_position};
    ghost use Rattle.mm_digest.specs.declared.variant.Variant.TheVariants.{Basic, Opt};
    ghost use Rattle.mm_module.specs.Batches.{batch_of};
    ghost use Rattle.mm_model.specs.History.{items_of_all, total_of};
    ghost use Rattle.mm_model.specs.Verdicts.{verdict_on};
    ghost use Rattle.mm_model.specs.Standing.{has_value, are_own, life_of, is_lost};
    ghost use Rattle.mm_model.specs.Moves.{is_long};
    ghost use Rattle.mm_call.specs.CallFinding.{finding_at, list_level};
    ghost use Rattle.mm_expect.specs.ChronicleView.{chronicle_instance};
    ghost use Rattle.mm_expect.specs.ExpectedState.{told_offer, right_offer};
    ghost use Rattle.mm_expect.specs.Calls.{repeat_in, AdmitsBatch};

    /// How many requests are committed.
    pub(crate) fn total(&self) -> u64
        ensures { result ≡ total_of self.now.history.batches }
    {
        self.marks.total
    }

    // Whether the register's items are those of the open segment.
    fn is_own(&self) -> bool
        ensures { result ≡ are_own self.now.history.items self.now.history.current }
    {
        self.marks.is_own
    }

    // Whether a closed segment holds a value that stands for no batch.
    fn is_marred(&self) -> bool
        ensures { result ≡ has_value (items_of_all self.now.history.closed) }
    {
        self.marks.is_marred
    }

    /// Whether power was lost inside an open segment.
    #[tactic(auto, using(crate::proofs::EventLaws::lost_when))]
    pub(crate) fn is_lost(&self) -> bool
        ensures { result ≡ is_lost (life_of self.now.variant self.now.history) }
    {
        match self.variant {
            Variant::Basic => false,
            Variant::Opt => self.lists.is_open() && self.lists.is_bare(),
        }
    }

    // The verdict on a position and a batch.
    fn judge(&self, position: u64, batch: Batch<'_>) -> Verdict
        ensures { result ≡ verdict_on self.now.variant self.now.history position
            (batch_of batch.entry) }
    {
        match self.variant {
            Variant::Basic => self.judge_live(position, batch),
            Variant::Opt => self.judge_opt(position, batch),
        }
    }

    // Opt: the verdict by the life of the history.
    fn judge_opt(&self, position: u64, batch: Batch<'_>) -> Verdict
        ensures { result ≡ verdict_on Opt self.now.history position (batch_of batch.entry) }
    {
        if self.lists.is_open() {
            if self.lists.is_bare() {
                return Verdict::Lost;
            }
            if !self.is_own() {
                return Verdict::Stale;
            }
        }
        if self.is_marred() {
            return Verdict::Stale;
        }
        self.judge_live(position, batch)
    }

    // The verdict where the history goes on.
    fn judge_live(&self, position: u64, batch: Batch<'_>) -> Verdict
        ensures { result ≡ verdict_on Basic self.now.history position (batch_of batch.entry) }
    {
        let total = self.total();
        if position == total {
            return Verdict::Fresh;
        }
        let Some(before) = total.checked_sub(batch.len() as u64) else {
            return Verdict::Stale;
        };
        if before != position {
            return Verdict::Stale;
        }
        if self.lists.ends_with(batch) {
            Verdict::Again
        } else {
            Verdict::Stale
        }
    }

    /// What a call finds that offers this: a refusal, or whether the batch is a repeat. Takes no
    /// memory.
    pub(crate) fn find(
        &self,
        offer: &Result<Body<'_>, Refusal>,
        batch: Batch<'_>,
    ) -> Result<bool, Refusal>
        requires few { IfOk offer.now (λ body. body.position ≤ last_position) }
        requires short { is_long (batch_of batch) ≡ false }
        ensures found { (bytes : List ℕ)
            → told_offer offer.now ≡ right_offer (chronicle_instance self.now) bytes
            → result ≡ repeat_in
            (finding_at (chronicle_instance self.now) (list_level (chronicle_instance self.now))
            self.now.history
            (batch_of batch.entry) bytes) }
        ensures admits { IfOk result (AdmitsBatch self.now.history (batch_of batch.entry)) }
    {
        if self.is_lost() {
            return Err(Refusal::Lost);
        }
        match offer {
            Err(refusal) => Err(*refusal),
            Ok(body) => {
                let fits = body.position + batch.len() as u64 <= LAST_POSITION;
                admit(self.judge(body.position, batch), fits)
            }
        }
    }
}
