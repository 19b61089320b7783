//! A call that asks for a request.

ghost use Rattle.std.specs.Prelude.{◌≡◌, ◌≢◌, ◌<◌, ◌≤◌, ◌++◌, true, false, length, take, drop, IfOk, IfErr, OnOk};
ghost use Rattle.memoir_c.specs.CallReplies.{AreSteps, AreParts, CallGives, IsNoCall, IsTold, reply_room, reply_state, TellsCallOutcome};
ghost use Rattle.memoir_c.specs.CallReplies.{TellsAnswer};
ghost use Rattle.mm_told.specs.ToldAskPromise.{ToldAskPromise};
ghost use Rattle.mm_told.specs.HostLaws.{worn_host};
ghost use Rattle.memoir_c.specs.Numbers.{IsKept};
ghost use Rattle.memoir_c.specs.PlainAnswers.{room_with};

use crate::keeping::{Kept, keep, key_kept};
use crate::made::{MOST_STEPS, Step, next, put_made};
use crate::said::ReturnStatus;
use mm_call::KeptKey;
use mm_digest::Variant;
use mm_model::{Answer, Refusal};
use mm_module::Module;
use mm_modules::{AnyModule, by_id};
use mm_told::{MadeStep, StepsOutcome, ask};
use std::alloc::Global;

/// The variant's number and the module's id.
#[repr(C)]
#[derive(Clone, Copy, Drop)]
pub struct Instance {
    pub variant: u8,
    pub module: u8,
}

/// What a call gives: with Done all but `next`, with Next that alone.
#[repr(C)]
#[derive(Clone, Copy, Drop)]
pub struct Reply {
    pub position: u64,
    /// How many bytes of the room are the output.
    pub output_length: usize,
    /// How many bytes behind these are the snapshot.
    pub snapshot_length: usize,
    /// 1 where the request had been committed before, otherwise 0.
    pub again: u8,
    /// The step that is to be made.
    pub next: Step,
}

/// What a call comes to with these steps made. Only Done writes to the room.
#[unsafe(no_mangle)]
pub extern "C" fn memoir_ask(
    alloc: Global,
    instance: &Instance,
    steps: &[Step],
    offer: &[u8],
    request: &[u8],
    reply: &mut Reply,
    room: &mut [u8],
) -> u32
    ensures told { IsTold instance.now steps.now offer.now request.now
        (reply_room reply.old room.old) (reply_room reply.new room.new) result }
    ensures unwritten { result ≢ 0 → room.new ≡ room.old }
    ensures unsaid { result ≢ 0 → result ≢ 16 → reply.new ≡ reply.old }
    ensures few { result ≡ 16 → length steps.now < 5 }
    ensures enough { room_with instance.now.«module» ≤ length room.old → result ≢ 36 }
{
    let mut keys = KeptKey::new();
    tell(
        asked(alloc, instance, steps, offer, request, &mut keys),
        reply,
        room,
    )
    .code()
}

/// The same, with what was sealed last kept in a memory of the host: the one that the last call of
/// this kind left.
#[unsafe(no_mangle)]
pub extern "C" fn memoir_ask_keeping(
    alloc: Global,
    instance: &Instance,
    steps: &[Step],
    offer: &[u8],
    request: &[u8],
    kept: &mut Kept,
    memory: &mut [u8],
    reply: &mut Reply,
    room: &mut [u8],
) -> u32
    requires { IsKept kept.old memory.old }
    ensures kept { IsKept kept.new memory.new }
    ensures told { IsTold instance.now steps.now offer.now request.now
        (reply_room reply.old room.old) (reply_room reply.new room.new) result }
    ensures unwritten { result ≢ 0 → room.new ≡ room.old }
    ensures unsaid { result ≢ 0 → result ≢ 16 → reply.new ≡ reply.old }
    ensures few { result ≡ 16 → length steps.now < 5 }
    ensures enough { room_with instance.now.«module» ≤ length room.old → result ≢ 36 }
{
    let mut keys = key_kept(alloc, kept, memory);
    let said = tell(
        asked(alloc, instance, steps, offer, request, &mut keys),
        reply,
        room,
    );
    keep(&keys, kept, memory);
    said.code()
}

/// The variant of this number, and the module of this id.
pub fn parts(instance: &Instance) -> Result<(Variant, AnyModule), ReturnStatus>
    ensures { AreParts instance.now result }
{
    let Some(variant) = Variant::of_byte(instance.variant) else {
        return Err(ReturnStatus::NoVariant);
    };
    let Some(module) = by_id(instance.module) else {
        return Err(ReturnStatus::NoModule);
    };
    Ok((variant, module))
}

/// The variant and the module, and the steps that were made.
pub fn taken(
    instance: &Instance,
    steps: &[Step],
    into: &mut [MadeStep; MOST_STEPS],
) -> Result<(Variant, AnyModule), ReturnStatus>
    ensures ok { IfOk result (λ found. AreParts instance.now (Ok found)) }
    ensures few { OnOk result (length steps.now ≤ 5) }
    ensures steps { OnOk result (AreSteps steps.now (take (length steps.now) into.new)) }
    ensures err { IfErr result (λ why. IsNoCall instance.now steps.now why) }
{
    let (variant, module) = parts(instance)?;
    if steps.len() > MOST_STEPS {
        return Err(ReturnStatus::TooMany);
    }
    put_made(steps, into)?;
    Ok((variant, module))
}

// What the call comes to.
fn asked(
    alloc: Global,
    instance: &Instance,
    steps: &[Step],
    offer: &[u8],
    request: &[u8],
    keys: &mut KeptKey,
) -> Result<StepsOutcome<Result<Answer, Refusal>>, ReturnStatus>
    ensures { CallGives instance.now steps.now offer.now request.now result }
{
    let mut made = [MadeStep::ResetRegister(Ok(())); MOST_STEPS];
    let (variant, module) = taken(instance, steps, &mut made)?;
    let made = &made[..steps.len()];
    Ok(come_to(alloc, variant, &module, made, offer, request, keys))
}

// The call with these steps made.
fn come_to<M: Module>(
    alloc: Global,
    variant: Variant,
    module: &M,
    made: &[MadeStep],
    offer: &[u8],
    request: &[u8],
    keys: &mut KeptKey,
) -> StepsOutcome<Result<Answer, Refusal>>
    ensures { ToldAskPromise variant (M.meaning «module».now) (worn_host made.now) made.now
        offer.now request.now result }
{
    ask(alloc, variant, module, made, offer, request, keys)
}

/// Writes what the call came to.
pub fn tell(
    asked: Result<StepsOutcome<Result<Answer, Refusal>>, ReturnStatus>,
    reply: &mut Reply,
    room: &mut [u8],
) -> ReturnStatus
    ensures tells { TellsCallOutcome asked (reply_state (reply_room reply.old room.old)
        (reply_room reply.new room.new) result) }
    ensures unwritten { result ≢ ReturnStatus.Done → room.new ≡ room.old }
    ensures unsaid { result ≢ ReturnStatus.Done → result ≢ ReturnStatus.Next
        → reply.new ≡ reply.old }
{
    match asked {
        Err(said) => said,
        Ok(StepsOutcome::Ended(Ok(answer))) => put_answer(&answer, reply, room),
        Ok(StepsOutcome::Ended(Err(refusal))) => ReturnStatus::Refused(refusal),
        Ok(StepsOutcome::Memory) => ReturnStatus::Refused(Refusal::Memory),
        Ok(StepsOutcome::Differs) => ReturnStatus::Differs,
        Ok(StepsOutcome::Next(step)) => {
            reply.next = next(step);
            ReturnStatus::Next
        }
    }
}

// Writes an answer: its output, and its snapshot behind that.
fn put_answer(answer: &Answer, reply: &mut Reply, room: &mut [u8]) -> ReturnStatus
    ensures tells { TellsAnswer answer.now (reply_state (reply_room reply.old room.old)
        (reply_room reply.new room.new) result) }
    ensures unwritten { result ≢ ReturnStatus.Done → room.new ≡ room.old }
    ensures unsaid { result ≢ ReturnStatus.Done → reply.new ≡ reply.old }
{
    let output = answer.output.as_slice();
    let snapshot = answer.snapshot.as_slice();
    if !put_both(output, snapshot, room) {
        return ReturnStatus::NoRoom;
    }
    reply.position = answer.position;
    reply.output_length = output.len();
    reply.snapshot_length = snapshot.len();
    reply.again = u8::from(answer.again);
    ReturnStatus::Done
}

// Writes these bytes, and those behind them, where there is room for both.
fn put_both(front: &[u8], rest: &[u8], room: &mut [u8]) -> bool
    ensures unwritten { result ≡ false → (room.new ≡ room.old)
        × (length room.old < length (front.now ++ rest.now)) }
    ensures written { result ≡ true
        → (room.new ≡ (front.now ++ rest.now) ++ drop (length (front.now ++ rest.now)) room.old)
        × (length (front.now ++ rest.now) ≤ length room.old) }
{
    if front.len() > room.len() {
        return false;
    }
    let (place, behind) = room.split_at_mut(front.len());
    if rest.len() > behind.len() {
        return false;
    }
    place.copy_from_slice(front);
    behind[..rest.len()].copy_from_slice(rest);
    true
}
