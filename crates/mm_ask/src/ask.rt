//! What a call of either core asks of the machine: the one place that chooses a core for it.

ghost use Rattle.std.specs.Prelude.{◌≡◌, false};
ghost use Rattle.mm_module.specs.Batches.{batch_of};
ghost use Rattle.mm_model.specs.Moves.{is_long};

use mm_basic::BasicAsk;
use mm_bytes::CELL_LENGTH;
use mm_call::{AskResult, KeptKey};
use mm_digest::{Digest, Variant};
use mm_machine::{OpFinding, Operation, Sight, run};
use mm_model::{BatchAnswer, Refusal};
use mm_module::{Batch, Module};
use mm_opt::OptAsk;
use mm_platform::Platform;
use mm_seal::Cell;
use std::alloc::Global;

/// A batch that isn't too long, asked of a module by the offer of a snapshot, in a variant.
#[derive(Drop)]
pub struct Ask<'a, M> {
    pub variant: Variant,
    pub alloc: Global,
    pub module: &'a M,
    pub offer: &'a [u8],
    pub batch: Batch<'a>,
    ghost short: { is_long (batch_of batch) ≡ false },
}

impl<M: Module> Operation for Ask<'_, M> {
    ghost use Rattle.std.specs.Prelude.{ℕ};
    ghost use Rattle.mm_module.specs.Batches.{batch_of};
    ghost use Rattle.mm_ask.specs.WholeAsk.{ask_operation, write_step_of};

    type Answer = BatchAnswer;

    type Refusal = Refusal;

    ghost asked = { λ ask.
        ask_operation ask.variant (M.meaning ask.«module».now) ask.offer.now (batch_of ask.batch) };

    ghost writes = { λ ask. write_step_of ask.variant };

    #[inline(always)]
    fn see(
        &self,
        bytes: &[u8; CELL_LENGTH],
        keys: &mut KeptKey,
    ) -> Result<Sight<BatchAnswer>, Refusal> {
        match self.variant {
            Variant::Basic => self.in_basic().see(bytes, keys),
            Variant::Opt => self.in_opt().see(bytes, keys),
        }
    }

    #[inline(always)]
    fn find(
        &self,
        cell: &Cell,
        register: &Digest,
        keys: &mut KeptKey,
    ) -> Result<OpFinding<BatchAnswer>, Refusal> {
        match self.variant {
            Variant::Basic => self.in_basic().find(cell, register, keys),
            Variant::Opt => self.in_opt().find(cell, register, keys),
        }
    }

    #[inline(always)]
    fn position(&self, answer: &BatchAnswer) -> u64 {
        match self.variant {
            Variant::Basic => answer.position,
            Variant::Opt => answer.position,
        }
    }

    #[inline(always)]
    fn write_step(&self) -> u8 {
        match self.variant {
            Variant::Basic => 2,
            Variant::Opt => 5,
        }
    }
}

impl<M: Module> Ask<'_, M> {
    ghost use Rattle.std.specs.Prelude.{◌≡◌};
    ghost use Rattle.mm_module.specs.Batches.{batch_of};
    ghost use Rattle.mm_ask.specs.WholeAsk.{IsWholeAsk};

    // The same of Basic.
    #[inline(always)]
    fn in_basic(&self) -> BasicAsk<'_, M>
        ensures is_module { result.«module».now ≡ self.now.«module».now }
        ensures is_offer { result.offer.now ≡ self.now.offer.now }
        ensures is_batch { result.batch ≡ self.now.batch }
    {
        BasicAsk {
            alloc: self.alloc,
            module: self.module,
            offer: self.offer,
            batch: self.batch,
        }
    }

    // The same of Opt.
    #[inline(always)]
    fn in_opt(&self) -> OptAsk<'_, M>
        ensures is_module { result.«module».now ≡ self.now.«module».now }
        ensures is_offer { result.offer.now ≡ self.now.offer.now }
        ensures is_batch { result.batch ≡ self.now.batch }
    {
        OptAsk {
            alloc: self.alloc,
            module: self.module,
            offer: self.offer,
            batch: self.batch,
        }
    }

    /// Makes the whole call. After the reading steps it has no allocator.
    #[inline(always)]
    pub fn call<P: Platform>(&self, platform: &mut P, keys: &mut KeptKey) -> AskResult
        ensures { IsWholeAsk self.now.variant (M.meaning self.now.«module».now)
            (P.standing platform.old) (P.standing platform.new) self.now.offer.now
            (batch_of self.now.batch) result }
    {
        AskResult::of(run(self, platform, keys))
    }
}
