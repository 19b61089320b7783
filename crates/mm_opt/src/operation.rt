//! What a call asks of the machine.

ghost use Rattle.std.specs.Prelude.{◌≡◌, false};
ghost use Rattle.mm_module.specs.Batches.{batch_of};
ghost use Rattle.mm_model.specs.Moves.{is_long};
ghost use Rattle.mm_opt.specs.AskPromise.{opt_operation};

use crate::find::{find_cell, find_in};
use mm_bytes::CELL_LENGTH;
use mm_call::KeptKey;
use mm_digest::Digest;
use mm_machine::{OpFinding, Operation, Sight};
use mm_model::{BatchAnswer, Refusal};
use mm_module::{Batch, Module};
use mm_seal::Cell;
use std::alloc::Global;

/// What a call asks: a batch of requests of this module, with these offered bytes. The batch isn't
/// too long.
#[derive(Drop)]
pub struct OptAsk<'a, M> {
    pub alloc: Global,
    pub module: &'a M,
    pub offer: &'a [u8],
    pub batch: Batch<'a>,
    ghost short: { is_long (batch_of batch) ≡ false },
}

impl<M: Module> Operation for OptAsk<'_, M> {
    type Answer = BatchAnswer;

    type Refusal = Refusal;

    ghost asked = { λ ask. opt_operation (M.meaning ask.«module».now) ask.offer.now (batch_of ask.batch) };

    ghost writes = { λ ask. 5 };

    #[inline(always)]
    fn see(
        &self,
        bytes: &[u8; CELL_LENGTH],
        _keys: &mut KeptKey,
    ) -> Result<Sight<BatchAnswer>, Refusal> {
        match find_cell(bytes, self.module.id()) {
            Ok(cell) => Ok(Sight::Cell(cell)),
            Err(refusal) => Err(refusal),
        }
    }

    #[inline(always)]
    fn find(
        &self,
        cell: &Cell,
        register: &Digest,
        keys: &mut KeptKey,
    ) -> Result<OpFinding<BatchAnswer>, Refusal> {
        find_in(self, cell, register, keys)
    }

    #[inline(always)]
    fn position(&self, answer: &BatchAnswer) -> u64 {
        answer.position
    }

    fn write_step(&self) -> u8 {
        5
    }
}
