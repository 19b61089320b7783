//! What a move finds in a cell.

ghost use Rattle.std.specs.Prelude.{◌≡◌, List, ℕ, Result};
ghost use Rattle.mm_move.specs.declared.ready.ReadyMove.{ReadyMove};
ghost use Rattle.mm_move.specs.declared.refusal.MoveRefusal.{MoveRefusal};
ghost use Rattle.mm_told_moves.specs.ToldMovePromise.{IsFoundMove, found_on, written_cell};

use mm_bytes::CELL_LENGTH;
use mm_move::MoveRefusal;
use mm_platform::MemPlatform;

/// A move that isn't refused: the cell's bytes that make it, none where it was made before; and its
/// answer.
#[derive(Drop)]
pub struct FoundMove<A> {
    pub next: Option<[u8; CELL_LENGTH]>,
    pub answer: A,
}

/// A move, by what it finds in a cell.
pub trait HostMove {
    /// What is answered.
    type Answer: Drop;

    /// What is found in a cell's bytes, but for want of memory.
    ghost finds: { Self → List ℕ → Result (ReadyMove Self.Answer) MoveRefusal };

    /// What it finds in a cell's 104 bytes.
    fn find(&self, bytes: &[u8; CELL_LENGTH]) -> Result<FoundMove<Self::Answer>, MoveRefusal>
        ensures { IsFoundMove (finds self.now bytes.now) result };
}

/// What a move found that was made over a platform in memory.
pub fn found<A: Drop>(
    came: Result<A, MoveRefusal>,
    platform: &MemPlatform,
) -> Result<FoundMove<A>, MoveRefusal>
    ensures { result ≡ found_on platform.now came }
{
    match came {
        Err(why) => Err(why),
        Ok(answer) => Ok(FoundMove {
            next: written(platform),
            answer,
        }),
    }
}

// The bytes that were written to the cell.
fn written(platform: &MemPlatform) -> Option<[u8; CELL_LENGTH]>
    ensures { result ≡ written_cell platform.now }
{
    if platform.nv_writes() == 0 {
        None
    } else {
        Some(*platform.cell())
    }
}
