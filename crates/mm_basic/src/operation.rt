//! What a call of Basic asks of the machine.

ghost use Rattle.std.specs.Prelude.{◌≡◌, false};
ghost use Rattle.mm_module.specs.Batches.{batch_of};
ghost use Rattle.mm_model.specs.Moves.{is_long};

use crate::find::find;
use mm_bytes::CELL_LENGTH;
use mm_call::KeptKey;
use mm_digest::Digest;
use mm_machine::{OpFinding, Operation, Sight};
use mm_model::{BatchAnswer, Refusal};
use mm_module::{Batch, Module};
use mm_seal::Cell;
use std::alloc::Global;

/// A batch that isn't too long, asked of a module by the offer of a snapshot.
#[derive(Drop)]
pub struct BasicAsk<'a, M> {
    pub alloc: Global,
    pub module: &'a M,
    pub offer: &'a [u8],
    pub batch: Batch<'a>,
    ghost short: { is_long (batch_of batch) ≡ false },
}

impl<M: Module> Operation for BasicAsk<'_, M> {
    ghost use Rattle.std.specs.Prelude.{ℕ};
    ghost use Rattle.mm_module.specs.Batches.{batch_of};
    ghost use Rattle.mm_basic.specs.Operation.{basic_operation};

    type Answer = BatchAnswer;

    type Refusal = Refusal;

    ghost asked = { λ op. basic_operation (M.meaning op.«module».now) op.offer.now (batch_of op.batch) };

    ghost writes = { λ op. 2 };

    /// What is found in the cell's bytes: the batch runs in memory.
    #[inline(always)]
    fn see(
        &self,
        bytes: &[u8; CELL_LENGTH],
        keys: &mut KeptKey,
    ) -> Result<Sight<BatchAnswer>, Refusal> {
        match find(self, bytes, keys) {
            Ok(found) => Ok(Sight::Found(found)),
            Err(refusal) => Err(refusal),
        }
    }

    /// A cell with which the register is wanted is none of Basic.
    fn find(
        &self,
        _cell: &Cell,
        _register: &Digest,
        _keys: &mut KeptKey,
    ) -> Result<OpFinding<BatchAnswer>, Refusal> {
        Err(Refusal::Cell)
    }

    #[inline(always)]
    fn position(&self, answer: &BatchAnswer) -> u64 {
        answer.position
    }

    #[inline(always)]
    fn write_step(&self) -> u8 {
        2
    }
}
