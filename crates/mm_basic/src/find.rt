//! What a call finds in the cell and the offer.

ghost use Rattle.std.specs.Prelude.{◌≡◌, ◌≤◌, ◌↔◌, false, None, IsTrue};
ghost use Rattle.std.specs.Str.{bytes_eq};
ghost use Rattle.mm_bytes.specs.Limits.{last_position};
ghost use Rattle.mm_digest.specs.declared.variant.Variant.TheVariants.{Basic};
ghost use Rattle.mm_module.specs.Batches.{batch_of};
ghost use Rattle.mm_seal.specs.Cell.{SpellsCell};
ghost use Rattle.mm_seal.specs.Snapshot.{variant_of};
ghost use Rattle.mm_model.specs.Verdicts.{verdict_by};
ghost use Rattle.mm_basic.specs.BasicSight.{IsCellOf, Both};
ghost use Rattle.mm_basic.specs.Operation.{summary_in, finding_in, FindsIn};
ghost use Rattle.mm_call.specs.CallFinding.{IsOrMemory, fault_in};

use crate::operation::BasicAsk;
use mm_bytes::CELL_LENGTH;
use mm_call::{KeptKey, admit_batch, answer, vet};
use mm_digest::{Digest, Variant};
use mm_machine::{Change, OpFinding, ReadyChange};
use mm_model::{BatchAnswer, Refusal, Verdict, link, normal};
use mm_module::Module;
use mm_seal::{Cell, CellFault, Offered, PartsFault, Place, parts, read_cell, with_summary};

/// What is found in the cell's bytes and the offered ones, in the order of the refusals.
#[inline(always)]
pub fn find<M: Module>(
    ask: &BasicAsk<'_, M>,
    bytes: &[u8; CELL_LENGTH],
    keys: &mut KeptKey,
) -> Result<OpFinding<BatchAnswer>, Refusal>
    ensures finds { FindsIn (M.meaning ask.now.«module».now) bytes.now ask.now.offer.now
        (batch_of ask.now.batch) result }
    ensures no_fault { fault_in result ≡ None }
{
    let cell = match read_cell(bytes) {
        Err(CellFault::Blank) => return Err(Refusal::Blank),
        Err(CellFault::Cell) => return Err(Refusal::Cell),
        Ok(cell) => cell,
    };
    let id = ask.module.id();
    if !is_of(&cell, id) {
        return Err(Refusal::Cell);
    }
    match parts(ask.offer, Variant::Basic, id) {
        Err(PartsFault::Form) => Err(Refusal::Form),
        Err(PartsFault::Kind) => Err(Refusal::Kind),
        Ok(offered) => weigh(ask, bytes, &cell, &offered, keys),
    }
}

// Whether the cell is one of Basic and of the module with this id.
fn is_of(cell: &Cell, id: u8) -> bool
    ensures { IsTrue result ↔ IsCellOf id cell.now }
{
    cell.variant == Variant::Basic && cell.module == id
}

// What is found in a cell and an offer, each of Basic and of the module.
fn weigh<M: Module>(
    ask: &BasicAsk<'_, M>,
    bytes: &[u8; CELL_LENGTH],
    cell: &Cell,
    offered: &Offered<'_>,
    keys: &mut KeptKey,
) -> Result<OpFinding<BatchAnswer>, Refusal>
    requires cell { SpellsCell bytes.now cell.now }
    requires variant { variant_of offered.now.content.place ≡ Basic }
    requires position { offered.now.content.position ≤ last_position }
    ensures { IsOrMemory
        (finding_in (M.meaning ask.now.«module».now) (Both cell.now offered.now)
        (batch_of ask.now.batch)) result }
{
    let body = offered.body();
    let key = keys.under(&cell.key);
    vet(ask.module, key, offered)?;
    let here = summary_in(&body.place);
    let next = link(here, normal(ask.batch));
    let verdict = verdict(&cell.summary, here, &next);
    let again = admit_batch(offered, ask.batch, verdict)?;
    let answer = match answer(
        ask.alloc,
        ask.module,
        key,
        &body,
        Place::Basic(next),
        ask.batch,
        again,
    ) {
        Err(_) => return Err(Refusal::Memory),
        Ok(answer) => answer,
    };
    if again {
        return Ok(OpFinding::Repeat(answer));
    }
    let change = Change::Writing(with_summary(bytes, &next));
    Ok(OpFinding::Change(ReadyChange { change, answer }))
}

// The summary of a place of Basic.
fn summary_in(place: &Place) -> &Digest
    requires { variant_of place.now ≡ Basic }
    ensures { result.now.bytes ≡ summary_in place.now }
{
    match place {
        Place::Basic(summary) => summary,
        Place::Opt { .. } => unreachable!(),
    }
}

// The verdict on an offered summary, with the summary that the batch leads to.
fn verdict(summary: &Digest, offered: &Digest, next: &Digest) -> Verdict
    ensures { result ≡ verdict_by false (bytes_eq offered.now.bytes summary.now.bytes)
        (bytes_eq next.now.bytes summary.now.bytes) }
{
    if offered == summary {
        return Verdict::Fresh;
    }
    if next == summary {
        return Verdict::Again;
    }
    Verdict::Stale
}
