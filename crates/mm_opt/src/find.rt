//! What a call finds in the cell, the register and the offer.

ghost use Rattle.std.specs.Prelude.{◌≡◌, ◌+◌, ◌≤◌, IfOk, IsTrue, None, Ok};
ghost use Rattle.mm_bytes.specs.Limits.{last_position};
ghost use Rattle.mm_digest.specs.declared.variant.Variant.TheVariants.{Opt};
ghost use Rattle.mm_module.specs.Batches.{batch_of};
ghost use Rattle.mm_seal.specs.Snapshot.{variant_of};
ghost use Rattle.mm_model.specs.Verdicts.{forms_of, opt_verdict};
ghost use Rattle.mm_opt.specs.AskPromise.{SeesCell, FindsIn};
ghost use Rattle.mm_opt.specs.Answers.{anchor_in, extension_in, place_after, change_of, finding_in_offer};
ghost use Rattle.mm_call.specs.CallFinding.{IsOrMemory, fault_in};

use crate::operation::OptAsk;
use crate::verdicts::{has_lost_power, verdict};
use mm_bytes::CELL_LENGTH;
use mm_call::{KeptKey, admit_batch, answer, vet};
use mm_digest::{Digest, Variant, extended, zero};
use mm_machine::{Change, OpFinding, ReadyChange, SegmentOpening};
use mm_model::{BatchAnswer, Refusal, Verdict, guard, normal};
use mm_module::Module;
use mm_seal::{Cell, CellFault, Offered, PartsFault, Place, cell_bytes, parts, read_cell};

/// The cell of the module with this id that these bytes are.
pub fn find_cell(bytes: &[u8; CELL_LENGTH], id: u8) -> Result<Cell, Refusal>
    ensures sees { SeesCell id bytes.now result }
    ensures no_fault { fault_in result ≡ None }
{
    match read_cell(bytes) {
        Err(CellFault::Blank) => Err(Refusal::Blank),
        Err(CellFault::Cell) => Err(Refusal::Cell),
        Ok(cell) => match cell.variant {
            Variant::Opt if cell.module == id => Ok(cell),
            _ => Err(Refusal::Cell),
        },
    }
}

/// What is found in the cell, the register's value and the offered bytes, in the order of the
/// refusals.
#[inline(always)]
pub fn find_in<M: Module>(
    ask: &OptAsk<'_, M>,
    cell: &Cell,
    register: &Digest,
    keys: &mut KeptKey,
) -> Result<OpFinding<BatchAnswer>, Refusal>
    ensures finds { FindsIn (M.meaning ask.now.«module».now) cell.now register.now.bytes
        ask.now.offer.now (batch_of ask.now.batch) result }
    ensures no_fault { fault_in result ≡ None }
{
    let taken = parts(ask.offer, Variant::Opt, ask.module.id());
    if has_lost_power(cell, register) {
        return Err(Refusal::Lost);
    }
    match taken {
        Err(PartsFault::Form) => Err(Refusal::Form),
        Err(PartsFault::Kind) => Err(Refusal::Kind),
        Ok(offered) => weigh(ask, cell, register, &offered, keys),
    }
}

// What is found in an offer of Opt and of the module.
fn weigh<M: Module>(
    ask: &OptAsk<'_, M>,
    cell: &Cell,
    register: &Digest,
    offered: &Offered<'_>,
    keys: &mut KeptKey,
) -> Result<OpFinding<BatchAnswer>, Refusal>
    requires variant { variant_of offered.now.content.place ≡ Opt }
    requires position { offered.now.content.position ≤ last_position }
    ensures { IsOrMemory
        (finding_in_offer (M.meaning ask.now.«module».now) cell.now register.now.bytes
        (Ok offered.now) (batch_of ask.now.batch)) result }
{
    let body = offered.body();
    let key = keys.under(&cell.key);
    vet(ask.module, key, offered)?;
    let value = guard(&cell.barrier, normal(ask.batch));
    let verdict = verdict_on(cell, register, &body.place, &value);
    let again = admit_batch(offered, ask.batch, verdict)?;
    let place = place_after(cell, register, &value, again);
    match answer(ask.alloc, ask.module, key, &body, place, ask.batch, again) {
        Err(_) => Err(Refusal::Memory),
        Ok(answer) if again => Ok(OpFinding::Repeat(answer)),
        Ok(answer) => Ok(change(cell, value, answer)),
    }
}

// The verdict on a place of Opt.
fn verdict_on(cell: &Cell, register: &Digest, place: &Place, value: &Digest) -> Verdict
    requires { variant_of place.now ≡ Opt }
    ensures { result ≡ opt_verdict cell.now.flag cell.now.summary.bytes register.now.bytes
        (forms_of (anchor_in place.now) (extension_in place.now)) value.now.bytes }
{
    match place {
        Place::Opt { anchor, extension } => verdict(cell, register, anchor, extension, value),
        Place::Basic(_) => unreachable!(),
    }
}

// Where the platform stands once the batch is committed.
fn place_after(cell: &Cell, register: &Digest, value: &Digest, again: bool) -> Place
    ensures { result ≡ place_after cell.now register.now.bytes value.now.bytes again }
{
    let anchor = cell.summary;
    let extension = if cell.flag { *register } else { zero() };
    if again {
        return Place::Opt { anchor, extension };
    }
    Place::Opt {
        anchor,
        extension: extended(&extension, value),
    }
}

// A new batch, ready to be committed.
fn change(cell: &Cell, value: Digest, answer: BatchAnswer) -> OpFinding<BatchAnswer>
    ensures { result ≡ change_of cell.now value.bytes answer }
{
    let change = if cell.flag {
        Change::Extending(value)
    } else {
        let next = cell_bytes(&Cell {
            variant: Variant::Opt,
            flag: true,
            ..*cell
        });
        Change::Emptying(SegmentOpening { value, next })
    };
    OpFinding::Change(ReadyChange { change, answer })
}
