//! What a checkpoint asks of a platform: that it close the open segment.

ghost use Rattle.std.specs.Prelude.{◌≡◌, ℕ, None};
ghost use Rattle.mm_opt.specs.Checkpoints.{SeesSegment, closing_fault_in, closing_in, closing_operation};

use crate::segment::{CheckpointRefusal, Checkpointed, Segment};
use crate::verdicts::is_zero;
use mm_bytes::CELL_LENGTH;
use mm_digest::{Digest, Variant, anchored};
use mm_machine::{Change, OpFinding, Operation, ReadyChange, Sight};
use mm_seal::{Cell, CellFault, KeptKey, cell_bytes, read_cell};

/// A checkpoint, as the machine is asked it.
pub struct OptCheckpoint;

impl Operation for OptCheckpoint {
    type Answer = Checkpointed;

    type Refusal = CheckpointRefusal;

    ghost asked = { λ close. closing_operation };

    ghost writes = { λ close. 3 };

    fn see(
        &self,
        bytes: &[u8; CELL_LENGTH],
        _keys: &mut KeptKey,
    ) -> Result<Sight<Checkpointed>, CheckpointRefusal> {
        match find_segment(bytes) {
            Err(refusal) => Err(refusal),
            Ok(Segment::Shut) => Ok(Sight::Found(OpFinding::Repeat(Checkpointed::NoSegment))),
            Ok(Segment::Open(cell)) => Ok(Sight::Cell(cell)),
        }
    }

    fn find(
        &self,
        cell: &Cell,
        register: &Digest,
        _keys: &mut KeptKey,
    ) -> Result<OpFinding<Checkpointed>, CheckpointRefusal> {
        match closed_cell(cell, register) {
            Err(refusal) => Err(refusal),
            Ok(next) => Ok(OpFinding::Change(ReadyChange {
                change: Change::Writing(next),
                answer: Checkpointed::Done,
            })),
        }
    }

    fn position(&self, _answer: &Checkpointed) -> u64 {
        0
    }

    fn write_step(&self) -> u8 {
        3
    }
}

// The segment of the cell that these bytes are.
fn find_segment(bytes: &[u8; CELL_LENGTH]) -> Result<Segment, CheckpointRefusal>
    ensures sees { SeesSegment bytes.now result }
    ensures no_fault { closing_fault_in result ≡ None }
{
    match read_cell(bytes) {
        Err(CellFault::Blank) => Err(CheckpointRefusal::Blank),
        Err(CellFault::Cell) => Err(CheckpointRefusal::Cell),
        Ok(cell) => match cell.variant {
            Variant::Basic => Err(CheckpointRefusal::Kind),
            Variant::Opt if cell.flag => Ok(Segment::Open(cell)),
            Variant::Opt => Ok(Segment::Shut),
        },
    }
}

// The bytes that close the segment.
fn closed_cell(cell: &Cell, register: &Digest) -> Result<[u8; CELL_LENGTH], CheckpointRefusal>
    ensures closing { result ≡ closing_in cell.now register.now.bytes }
    ensures no_fault { closing_fault_in result ≡ None }
{
    if is_zero(register) {
        return Err(CheckpointRefusal::Lost);
    }
    let summary = anchored(&cell.summary, register);
    Ok(cell_bytes(&Cell {
        variant: Variant::Opt,
        flag: false,
        summary,
        ..*cell
    }))
}
