//! What a call answers.

ghost use Rattle.std.specs.Prelude.{◌≡◌, [], IfOk, OnOk};
ghost use Rattle.mm_bytes.specs.Limits.{last_position};

use crate::chronicle::Chronicle;
use mm_bytes::{Bytes, Memory};
use mm_call::AskResult;
use mm_digest::{Variant, zero};
use mm_model::BatchAnswer;
use mm_module::{Batch, Module, Outputs};
use mm_seal::{Body, Place, SealingKey};
use std::alloc::Global;

// Puts the same outputs where there are none.
fn copy_into(alloc: Global, copy: &mut Outputs, outputs: &Outputs) -> Result<(), Memory>
    requires { copy.old ≡ [] }
    ensures { OnOk result (copy.new ≡ outputs.now) }
{
    'outputs: for i in 0..outputs.len() {
        if let Some(output) = outputs.get(i) {
            let one = Bytes::copy_of(alloc, output)?;
            copy.push(one)?;
        }
    }
    Ok(())
}

// The same outputs.
fn copy_of(alloc: Global, outputs: &Outputs) -> Result<Outputs, Memory>
    ensures { IfOk result (λ copy. copy ≡ outputs.now) }
{
    let mut copy = Outputs::new(alloc);
    copy_into(alloc, &mut copy, outputs)?;
    Ok(copy)
}

impl Chronicle {
    ghost use Rattle.std.specs.Prelude.{◌≡◌, ◌≤◌, true, false, IfOk};
    ghost use Rattle.mm_module.specs.Batches.{batch_of};
    ghost use Rattle.mm_model.specs.History.{total_of};
    ghost use Rattle.mm_model.specs.Verdicts.{is_last};
    ghost use Rattle.mm_model.specs.Moves.{is_long};
    ghost use Rattle.mm_model.specs.Standing.{issued_place, issued_bytes};
    ghost use Rattle.mm_call.specs.CallFinding.{answer_on};
    ghost use Rattle.mm_call.specs.declared.ended.AskResult.TheVariants.{Answered};
    ghost use Rattle.mm_outcome.specs.OneRun.{world_key};
    ghost use Rattle.mm_expect.specs.ChronicleView.{chronicle_instance};

    // Where the snapshot of an answer stands.
    fn place_now(&self) -> Place
        ensures { result ≡ issued_place self.now.variant self.now.history.is_open
            (chronicle_instance self.now) self.now.history }
    {
        match self.variant {
            Variant::Basic => Place::Basic(self.marks.cell),
            Variant::Opt => {
                let anchor = self.marks.cell;
                let extension = if self.lists.is_open() {
                    self.marks.own
                } else {
                    zero()
                };
                Place::Opt { anchor, extension }
            }
        }
    }

    /// The snapshot of an answer. The key remembers what it sealed last, so an offer of that is not
    /// hashed again.
    pub(crate) fn snapshot(&self, key: &mut SealingKey) -> Result<Bytes, Memory>
        requires key { key.old ≡ world_key }
        requires few { total_of self.now.history.batches ≤ last_position }
        ensures bytes { IfOk result
            (λ bytes. bytes ≡ issued_bytes (chronicle_instance self.now) self.now.history) }
        ensures key { key.new ≡ key.old }
    {
        let body = Body {
            module: self.module.id(),
            place: self.place_now(),
            position: self.marks.total,
            state: self.state.as_slice(),
        };
        key.seal(self.alloc, &body)
    }

    /// The answer to the last batch, by whether it is a repeat.
    pub(crate) fn answer(
        &self,
        key: &mut SealingKey,
        batch: Batch<'_>,
        again: bool,
    ) -> Result<AskResult, Memory>
        requires key { key.old ≡ world_key }
        requires few { total_of self.now.history.batches ≤ last_position }
        requires last { is_last self.now.history.batches (batch_of batch) ≡ true }
        ensures key { key.new ≡ key.old }
        ensures answer { IfOk result
            (λ ended. ended ≡ Answered
            (answer_on (chronicle_instance self.now) self.now.history (batch_of batch.entry)
            again)) }
    {
        let outputs = copy_of(self.alloc, &self.said)?;
        let snapshot = self.snapshot(key)?;
        Ok(AskResult::Answered(BatchAnswer {
            again,
            position: self.marks.total,
            outputs,
            snapshot,
        }))
    }
}
