//! The device steps of a move.

ghost use Rattle.mm_move.specs.Cells.{MoveGoesOn, MakesMoveStep, ReadsBytes};

use crate::refusal::MoveRefusal;
use mm_bytes::CELL_LENGTH;
use mm_model::Refusal;
use mm_platform::Platform;

/// A move that isn't refused, before its last step.
#[derive(Drop)]
pub struct ReadyMove<A> {
    /// The cell's bytes that make the move; none where it was made before.
    pub next: Option<[u8; CELL_LENGTH]>,
    /// The answer, which is handed out once the cell is written.
    pub answer: A,
}

/// The first step: reads the cell.
pub fn read<P: Platform>(platform: &mut P) -> Result<[u8; CELL_LENGTH], MoveRefusal>
    ensures { ReadsBytes (P.standing platform.old) (P.standing platform.new) result }
{
    let mut bytes = [0; CELL_LENGTH];
    match platform.nv_read(&mut bytes) {
        Err(fault) => Err(MoveRefusal::Core(Refusal::Device(fault))),
        Ok(()) => Ok(bytes),
    }
}

/// The rest of a move, by what it found. It has no allocator, so it takes no memory.
pub fn go_on<A: Drop, P: Platform>(
    found: Result<ReadyMove<A>, MoveRefusal>,
    platform: &mut P,
) -> Result<A, MoveRefusal>
    ensures { MoveGoesOn found (P.standing platform.old) (P.standing platform.new) result }
{
    match found {
        Err(refusal) => Err(refusal),
        Ok(ready) => make(ready, platform),
    }
}

// The last step, which writes the cell: there is none where the move was made before.
fn make<A: Drop, P: Platform>(ready: ReadyMove<A>, platform: &mut P) -> Result<A, MoveRefusal>
    ensures { MakesMoveStep ready.next ready.answer (P.standing platform.old)
        (P.standing platform.new)
        result }
{
    let ReadyMove { next, answer } = ready;
    match next {
        None => Ok(answer),
        Some(bytes) => match platform.nv_write(&bytes) {
            Err(fault) => Err(MoveRefusal::Core(Refusal::Device(fault))),
            Ok(()) => Ok(answer),
        },
    }
}
