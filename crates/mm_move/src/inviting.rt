//! Invitations: a platform comes to wait for a module.

ghost use Rattle.std.specs.Prelude.{◌≡◌, ◌≢◌, Err, false};
ghost use Rattle.mm_seal.specs.Cell.{FitsVariant};
ghost use Rattle.mm_move.specs.Cells.{moved_cell_of, MovePromise, AreMoveSteps};
ghost use Rattle.mm_move.specs.Orders.{waiting_for, is_same_waiting, invitation_in};

use crate::cell::{MovedCell, WaitingCell, read_moved, waiting_bytes};
use crate::link::Link;
use crate::owner::barrier_of;
use crate::ready::{ReadyMove, go_on, read};
use crate::refusal::MoveRefusal;
use mm_digest::Variant;
use mm_model::Refusal;
use mm_platform::Platform;
use mm_seal::CellFault;

/// How an invitation was answered.
#[derive(Clone, Copy)]
pub enum Invited {
    /// The platform waits from now on.
    Done,
    /// It had been invited before, just so.
    Again,
}

/// Invites a platform: its cell will wait for a ticket of this variant and module with this nonce,
/// and will seal under this key. It reads the cell, and writes it in a second step. Refused in this
/// order: Device, by the first step; Already, where the cell is neither blank nor retired nor the
/// cell that would be written; Device, by the second. Takes no memory.
pub fn invite<P: Platform>(
    platform: &mut P,
    link: &Link,
    variant: Variant,
    module: u8,
    nonce: &[u8; 32],
    key: &[u8; 32],
) -> Result<Invited, MoveRefusal>
    ensures moved { MovePromise (λ bytes.
        invitation_in (waiting_for link.now variant «module» nonce.now key.now)
        (moved_cell_of bytes))
        (P.standing platform.old) (P.standing platform.new) result }
    ensures memory { result ≢ Err (MoveRefusal.Core Refusal.Memory) }
{
    let next = WaitingCell {
        variant,
        module,
        nonce: *nonce,
        key: *key,
        barrier: barrier_of(variant, link),
    };
    invite_by(platform, &next)
}

// Invites a platform by this cell.
fn invite_by<P: Platform>(platform: &mut P, next: &WaitingCell) -> Result<Invited, MoveRefusal>
    ensures moves { AreMoveSteps (λ bytes. invitation_in next.now (moved_cell_of bytes))
        (P.standing platform.old) (P.standing platform.new) result }
    ensures memory { result ≢ Err (MoveRefusal.Core Refusal.Memory) }
{
    match read(platform) {
        Err(refusal) => Err(refusal),
        Ok(bytes) => go_on(find(read_moved(&bytes), next), platform),
    }
}

// What is found in a cell that was read.
fn find(
    cell: Result<MovedCell, CellFault>,
    next: &WaitingCell,
) -> Result<ReadyMove<Invited>, MoveRefusal>
    ensures { result ≡ invitation_in next.now cell }
{
    match cell {
        Err(CellFault::Blank) | Ok(MovedCell::Retired(_)) => Ok(ReadyMove {
            next: Some(waiting_bytes(next)),
            answer: Invited::Done,
        }),
        Ok(MovedCell::Waiting(cell)) if is_same(&cell, next) => Ok(ReadyMove {
            next: None,
            answer: Invited::Again,
        }),
        _ => Err(MoveRefusal::Already),
    }
}

// Whether both cells are the same.
fn is_same(one: &WaitingCell, other: &WaitingCell) -> bool
    ensures { result ≡ is_same_waiting one.now other.now }
{
    waiting_bytes(one) == waiting_bytes(other)
}
