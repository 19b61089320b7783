//! Moves under the plan of an event.

ghost use Rattle.std.specs.Prelude.{◌≡◌, ℕ, is_some};
ghost use Rattle.mm_modules.specs.Modules.{meaning_of};
ghost use Rattle.mm_move.specs.Cells.{moved_cell_of, move_fault_in};
ghost use Rattle.mm_move.specs.Orders.{waiting_for, invitation_in, retirement_in, acceptance_in};
ghost use Rattle.mm_transfer.specs.SideCommands.{TellsRefusalAs, has_moved};
ghost use Rattle.mm_transfer.specs.MovePlan.{MovesByPlan, has_effect_at};

use crate::nonce::Nonce;
use crate::reply::{MoveCause, MoveReply};
use mm_bytes::{Bytes, Memory};
use mm_model::Refusal;
use mm_module::Module;
use mm_move::{Accepted, Invited, Link, MoveRefusal};
use mm_outcome::{CallPlan, cause, way};
use mm_platform::{MemPlatform, Stop};
use mm_schedule::Header;
use mm_world::settle;
use std::alloc::Global;

const NO_MEMORY: MoveRefusal = MoveRefusal::Core(Refusal::Memory);

/// Whether a device's fault broke a move off.
pub fn is_broken<A>(came: &Result<A, MoveRefusal>) -> bool
    ensures { result ≡ is_some (move_fault_in came.now) }
{
    matches!(came, Err(MoveRefusal::Core(Refusal::Device(_))))
}

/// Whether a move that was broken off, and stopped so, has its effect: its second step has that, by
/// writing the cell.
pub fn moves_at(stop: Stop) -> bool
    ensures { result ≡ has_effect_at stop }
{
    match stop {
        Stop::Quiet => false,
        Stop::Cut(step) | Stop::Drop(step) => step == 2,
        Stop::Fail { step, done } => step == 2 && done,
    }
}

/// Whether a move that was refused so, and stopped so, has its effect.
pub fn has_moved(stop: Stop, why: MoveRefusal) -> bool
    ensures { result ≡ has_moved stop why }
{
    match why {
        MoveRefusal::Core(Refusal::Device(_)) => moves_at(stop),
        _ => false,
    }
}

/// What is told of a move that was refused, or broken off. Memory exactly where it was refused for
/// that.
pub fn refused(stop: Stop, why: MoveRefusal) -> Result<MoveReply, Memory>
    ensures { TellsRefusalAs stop why result }
{
    match why {
        MoveRefusal::Core(Refusal::Memory) => Err(Memory),
        MoveRefusal::Core(Refusal::Device(_)) => Ok(MoveReply::Broken {
            way: way(stop),
            moved: moves_at(stop),
        }),
        MoveRefusal::Core(refusal) => Ok(MoveReply::Denied(MoveCause::Refused(cause(refusal)))),
        MoveRefusal::Already => Ok(MoveReply::Denied(MoveCause::Already)),
        MoveRefusal::Open => Ok(MoveReply::Denied(MoveCause::Open)),
        MoveRefusal::Gone => Ok(MoveReply::Denied(MoveCause::Gone)),
        MoveRefusal::Nonce => Ok(MoveReply::Denied(MoveCause::Nonce)),
        MoveRefusal::Barrier => Ok(MoveReply::Denied(MoveCause::Barrier)),
    }
}

/// The header whose module moves, and the allocator of its moves.
#[derive(Drop)]
pub struct Mover {
    pub alloc: Global,
    pub header: Header,
}

/// Invites the platform under this plan.
pub fn planned_invite(
    header: &Header,
    platform: &mut MemPlatform,
    link: &Link,
    nonce: &Nonce,
    key: &[u8; 32],
    course: &CallPlan<'_>,
) -> Result<Invited, MoveRefusal>
    ensures { (id : ℕ) → id ≡ (meaning_of header.now.«module»).id → MovesByPlan (λ bytes.
        invitation_in (waiting_for link.now header.now.variant id nonce.now.bytes key.now)
        (moved_cell_of bytes))
        course.now.stop course.now.meddles.now platform.old platform.new result }
{
    match platform.plan(course.stop, course.meddles) {
        Err(_) => Err(NO_MEMORY),
        Ok(()) => {
            let came = mm_move::invite(
                platform,
                link,
                header.variant,
                header.module.id(),
                &nonce.bytes,
                key,
            );
            settle(platform, course.stop, is_broken(&came));
            came
        }
    }
}

/// Retires the platform under such a plan.
pub fn planned_retire(
    mover: &Mover,
    platform: &mut MemPlatform,
    link: &Link,
    nonce: &Nonce,
    offer: &[u8],
    course: &CallPlan<'_>,
) -> Result<Bytes, MoveRefusal>
    ensures { MovesByPlan (λ bytes.
        retirement_in (meaning_of mover.now.header.«module») mover.now.header.variant link.now
        nonce.now.bytes offer.now (moved_cell_of bytes))
        course.now.stop course.now.meddles.now platform.old platform.new result }
{
    match platform.plan(course.stop, course.meddles) {
        Err(_) => Err(NO_MEMORY),
        Ok(()) => {
            let came = mm_move::retire(
                mover.alloc,
                &mover.header.module,
                mover.header.variant,
                platform,
                link,
                &nonce.bytes,
                offer,
            );
            settle(platform, course.stop, is_broken(&came));
            came
        }
    }
}

/// Accepts a ticket on the platform under such a plan.
pub fn planned_accept(
    mover: &Mover,
    platform: &mut MemPlatform,
    link: &Link,
    ticket: &[u8],
    course: &CallPlan<'_>,
) -> Result<Accepted, MoveRefusal>
    ensures { MovesByPlan (λ bytes.
        acceptance_in (meaning_of mover.now.header.«module») mover.now.header.variant link.now
        ticket.now (moved_cell_of bytes))
        course.now.stop course.now.meddles.now platform.old platform.new result }
{
    match platform.plan(course.stop, course.meddles) {
        Err(_) => Err(NO_MEMORY),
        Ok(()) => {
            let came = mm_move::accept(
                mover.alloc,
                &mover.header.module,
                mover.header.variant,
                platform,
                link,
                ticket,
            );
            settle(platform, course.stop, is_broken(&came));
            came
        }
    }
}
