//! Moves: a module leaves one platform for another.

ghost use Rattle.std.specs.Prelude.{◌≡◌, ◌≢◌, ◌<◌, ◌≤◌, length};
ghost use Rattle.mm_told.specs.HostLaws.{worn_host};
ghost use Rattle.mm_told_moves.specs.ToldMovePromise.{IsSnapshotWithin, IsTicketWithin, ToldMovePromise, acceptance_finds, invitation_finds, retirement_finds};
ghost use Rattle.memoir_c.specs.PlainAnswers.{AcceptanceGives, InvitationGives, IsAcceptanceTold, IsInvitationTold, IsRetirementTold};
ghost use Rattle.memoir_c.specs.PlainAnswers.{RetirementGives, TellsInvitation, TellsMove, TellsMoveAnswer, link_of, move_room, move_state};
ghost use Rattle.memoir_c.specs.PlainAnswers.{outcome_with_ticket, room_with};

use crate::asking::{Instance, taken};
use crate::made::{MOST_STEPS, Step, next};
use crate::pending::put;
use crate::provisioning::Keys;
use crate::said::ReturnStatus;
use mm_bytes::Bytes;
use mm_digest::Variant;
use mm_model::Refusal;
use mm_module::Module;
use mm_move::{Accepted, Invited, Link, MoveRefusal};
use mm_told::{MadeStep, StepsOutcome};
use mm_told_moves::{accept, invite, retire};
use std::alloc::Global;

/// A nonce, or a key.
#[repr(C)]
#[derive(Clone, Copy, Drop)]
pub struct KeyBytes {
    pub bytes: [u8; 32],
}

/// What a move gives: with Done all but `next`, with Next that alone.
#[repr(C)]
#[derive(Clone, Copy, Drop)]
pub struct MoveReply {
    /// How many bytes of the room are the ticket, or the snapshot.
    pub length: usize,
    /// How many requests were run; of a retirement 0.
    pub position: u64,
    /// The step that is to be made.
    pub next: Step,
}

/// What an invitation comes to with these steps made. Only Next writes the step that is to be made.
#[unsafe(no_mangle)]
pub extern "C" fn memoir_invite(
    alloc: Global,
    instance: &Instance,
    steps: &[Step],
    link: &Keys,
    nonce: &KeyBytes,
    key: &KeyBytes,
    step: &mut Step,
) -> u32
    ensures told { IsInvitationTold instance.now steps.now link.now nonce.now.bytes key.now.bytes
        step.old step.new result }
    ensures unsaid { result ≢ 16 → step.new ≡ step.old }
    ensures few { result ≡ 16 → length steps.now < 2 }
{
    tell_invited(invited(alloc, instance, steps, link, nonce, key), step).code()
}

/// What a retirement comes to with these steps made. Only Done writes to the room.
#[unsafe(no_mangle)]
pub extern "C" fn memoir_retire(
    alloc: Global,
    instance: &Instance,
    steps: &[Step],
    link: &Keys,
    nonce: &KeyBytes,
    offer: &[u8],
    reply: &mut MoveReply,
    room: &mut [u8],
) -> u32
    ensures told { IsRetirementTold instance.now steps.now link.now nonce.now.bytes offer.now
        (move_room reply.old room.old) (move_room reply.new room.new) result }
    ensures unwritten { result ≢ 0 → room.new ≡ room.old }
    ensures unsaid { result ≢ 0 → result ≢ 16 → reply.new ≡ reply.old }
    ensures few { result ≡ 16 → length steps.now < 2 }
    ensures enough { room_with instance.now.«module» ≤ length room.old → result ≢ 36 }
{
    let came = retired(alloc, instance, steps, link, nonce, offer);
    tell_moved(came, reply, room).code()
}

/// What an acceptance comes to with these steps made. Only Done writes to the room.
#[unsafe(no_mangle)]
pub extern "C" fn memoir_accept(
    alloc: Global,
    instance: &Instance,
    steps: &[Step],
    link: &Keys,
    ticket: &[u8],
    reply: &mut MoveReply,
    room: &mut [u8],
) -> u32
    ensures told { IsAcceptanceTold instance.now steps.now link.now ticket.now
        (move_room reply.old room.old) (move_room reply.new room.new) result }
    ensures unwritten { result ≢ 0 → room.new ≡ room.old }
    ensures unsaid { result ≢ 0 → result ≢ 16 → reply.new ≡ reply.old }
    ensures few { result ≡ 16 → length steps.now < 2 }
    ensures enough { room_with instance.now.«module» ≤ length room.old → result ≢ 36 }
{
    let came = accepted(alloc, instance, steps, link, ticket);
    tell_moved(came, reply, room).code()
}

fn link_of(keys: &Keys) -> Link
    ensures { result ≡ link_of keys.now }
{
    Link {
        key: keys.key,
        barrier: keys.barrier,
    }
}

// What the invitation comes to.
fn invited(
    alloc: Global,
    instance: &Instance,
    steps: &[Step],
    link: &Keys,
    nonce: &KeyBytes,
    key: &KeyBytes,
) -> Result<StepsOutcome<Result<Invited, MoveRefusal>>, ReturnStatus>
    ensures { InvitationGives instance.now steps.now link.now nonce.now.bytes key.now.bytes result }
{
    let mut made = [MadeStep::ResetRegister(Ok(())); MOST_STEPS];
    let (variant, _) = taken(instance, steps, &mut made)?;
    let made = &made[..steps.len()];
    Ok(await_module(
        alloc,
        variant,
        instance.module,
        made,
        link,
        &nonce.bytes,
        &key.bytes,
    ))
}

// The invitation with these steps made.
fn await_module(
    alloc: Global,
    variant: Variant,
    id: u8,
    made: &[MadeStep],
    link: &Keys,
    nonce: &[u8; 32],
    key: &[u8; 32],
) -> StepsOutcome<Result<Invited, MoveRefusal>>
    ensures { ToldMovePromise (invitation_finds (link_of link.now) variant id nonce.now key.now)
        (worn_host made.now) made.now result }
{
    let link = link_of(link);
    invite(alloc, variant, id, made, &link, nonce, key)
}

// What the retirement comes to.
fn retired(
    alloc: Global,
    instance: &Instance,
    steps: &[Step],
    link: &Keys,
    nonce: &KeyBytes,
    offer: &[u8],
) -> Result<StepsOutcome<Result<Accepted, MoveRefusal>>, ReturnStatus>
    ensures { RetirementGives instance.now steps.now link.now nonce.now.bytes offer.now result }
{
    let mut made = [MadeStep::ResetRegister(Ok(())); MOST_STEPS];
    let (variant, module) = taken(instance, steps, &mut made)?;
    let made = &made[..steps.len()];
    let came = leave(alloc, variant, &module, made, link, &nonce.bytes, offer);
    Ok(with_ticket(came))
}

// The retirement with these steps made.
fn leave<M: Module>(
    alloc: Global,
    variant: Variant,
    module: &M,
    made: &[MadeStep],
    link: &Keys,
    nonce: &[u8; 32],
    offer: &[u8],
) -> StepsOutcome<Result<Bytes, MoveRefusal>>
    ensures leaves { ToldMovePromise
        (retirement_finds (M.meaning «module».now) variant (link_of link.now) nonce.now offer.now)
        (worn_host made.now) made.now result }
    ensures room { IsTicketWithin (M.meaning «module».now).id result }
{
    let link = link_of(link);
    retire(alloc, variant, module, made, &link, nonce, offer)
}

// What is told of a ticket: as of a snapshot, with no position.
fn with_ticket(
    came: StepsOutcome<Result<Bytes, MoveRefusal>>,
) -> StepsOutcome<Result<Accepted, MoveRefusal>>
    ensures { result ≡ outcome_with_ticket came }
{
    match came {
        StepsOutcome::Ended(Ok(ticket)) => StepsOutcome::Ended(Ok(Accepted {
            position: 0,
            snapshot: ticket,
        })),
        StepsOutcome::Ended(Err(why)) => StepsOutcome::Ended(Err(why)),
        StepsOutcome::Next(step) => StepsOutcome::Next(step),
        StepsOutcome::Differs => StepsOutcome::Differs,
        StepsOutcome::Memory => StepsOutcome::Memory,
    }
}

// What the acceptance comes to.
fn accepted(
    alloc: Global,
    instance: &Instance,
    steps: &[Step],
    link: &Keys,
    ticket: &[u8],
) -> Result<StepsOutcome<Result<Accepted, MoveRefusal>>, ReturnStatus>
    ensures { AcceptanceGives instance.now steps.now link.now ticket.now result }
{
    let mut made = [MadeStep::ResetRegister(Ok(())); MOST_STEPS];
    let (variant, module) = taken(instance, steps, &mut made)?;
    let made = &made[..steps.len()];
    Ok(arrive(alloc, variant, &module, made, link, ticket))
}

// The acceptance with these steps made.
fn arrive<M: Module>(
    alloc: Global,
    variant: Variant,
    module: &M,
    made: &[MadeStep],
    link: &Keys,
    ticket: &[u8],
) -> StepsOutcome<Result<Accepted, MoveRefusal>>
    ensures arrives { ToldMovePromise
        (acceptance_finds (M.meaning «module».now) variant (link_of link.now) ticket.now)
        (worn_host made.now) made.now result }
    ensures room { IsSnapshotWithin (M.meaning «module».now).id result }
{
    let link = link_of(link);
    accept(alloc, variant, module, made, &link, ticket)
}

// Writes what the invitation came to.
fn tell_invited(
    came: Result<StepsOutcome<Result<Invited, MoveRefusal>>, ReturnStatus>,
    into: &mut Step,
) -> ReturnStatus
    ensures { TellsInvitation came into.old into.new result }
{
    match came {
        Err(said) => said,
        Ok(StepsOutcome::Ended(Ok(Invited::Done))) => ReturnStatus::Done,
        Ok(StepsOutcome::Ended(Ok(Invited::Again))) => ReturnStatus::Again,
        Ok(StepsOutcome::Ended(Err(why))) => ReturnStatus::of_move(why),
        Ok(StepsOutcome::Memory) => ReturnStatus::Refused(Refusal::Memory),
        Ok(StepsOutcome::Differs) => ReturnStatus::Differs,
        Ok(StepsOutcome::Next(step)) => {
            *into = next(step);
            ReturnStatus::Next
        }
    }
}

// Writes what a move came to that gives bytes.
fn tell_moved(
    came: Result<StepsOutcome<Result<Accepted, MoveRefusal>>, ReturnStatus>,
    reply: &mut MoveReply,
    room: &mut [u8],
) -> ReturnStatus
    ensures tells { TellsMove came (move_state (move_room reply.old room.old)
        (move_room reply.new room.new) result) }
    ensures unwritten { result ≢ ReturnStatus.Done → room.new ≡ room.old }
    ensures unsaid { result ≢ ReturnStatus.Done → result ≢ ReturnStatus.Next
        → reply.new ≡ reply.old }
{
    match came {
        Err(said) => said,
        Ok(StepsOutcome::Ended(Ok(answer))) => put_moved(&answer, reply, room),
        Ok(StepsOutcome::Ended(Err(why))) => ReturnStatus::of_move(why),
        Ok(StepsOutcome::Memory) => ReturnStatus::Refused(Refusal::Memory),
        Ok(StepsOutcome::Differs) => ReturnStatus::Differs,
        Ok(StepsOutcome::Next(step)) => {
            reply.next = next(step);
            ReturnStatus::Next
        }
    }
}

// Writes a snapshot, or a ticket.
fn put_moved(answer: &Accepted, reply: &mut MoveReply, room: &mut [u8]) -> ReturnStatus
    ensures tells { TellsMoveAnswer answer.now (move_state (move_room reply.old room.old)
        (move_room reply.new room.new) result) }
    ensures unwritten { result ≢ ReturnStatus.Done → room.new ≡ room.old }
    ensures unsaid { result ≢ ReturnStatus.Done → reply.new ≡ reply.old }
{
    let said = put(answer.snapshot.as_slice(), &mut reply.length, room);
    if let ReturnStatus::Done = said {
        reply.position = answer.position;
    }
    said
}
