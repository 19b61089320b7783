//! The first cell and snapshot of an instance.

ghost use Rattle.std.specs.Prelude.{◌≡◌, ◌≢◌, ◌≤◌, IfErr, IfOk, length};
ghost use Rattle.memoir_c.specs.PlainAnswers.{room_with, IsMeant, IsUnmade, ProvisionsInstance, PutsFirst, first_cell, first_snapshot, memory_state};
ghost use Rattle.mm_modules.specs.Modules.{meaning_of};
ghost use Rattle.mm_model.specs.Chains as model;
ghost use Rattle.mm_call.specs.Standing.{instance_by};
ghost use Rattle.memoir_c.specs.Numbers.{number_of};

use crate::asking::{Instance, parts};
use crate::said::ReturnStatus;
use mm_ask::Secrets;
use mm_bytes::{CELL_LENGTH, Memory};
use mm_call::Provisioned as Made;
use mm_digest::Variant;
use mm_model::Refusal;
use mm_modules::AnyModule;
use std::alloc::Global;

/// The key and the barrier of an instance. Basic ignores the barrier.
#[repr(C)]
#[derive(Clone, Copy, Drop)]
pub struct Keys {
    pub key: [u8; 32],
    pub barrier: [u8; 32],
}

/// The first cell, and the length of the first snapshot.
#[repr(C)]
#[derive(Clone, Copy, Drop)]
pub struct ProvisionReply {
    pub snapshot_length: usize,
    pub cell: [u8; CELL_LENGTH],
}

/// Writes the first cell and snapshot of an instance.
#[unsafe(no_mangle)]
pub extern "C" fn memoir_provision(
    alloc: Global,
    instance: &Instance,
    keys: &Keys,
    first: &mut ProvisionReply,
    room: &mut [u8],
) -> u32
    ensures provisions { ProvisionsInstance instance.now keys.now
        (memory_state first.old first.new room.old room.new) result }
    ensures unwritten { result ≢ 0 → room.new ≡ room.old }
    ensures unsaid { result ≢ 0 → first.new ≡ first.old }
    ensures enough { room_with instance.now.«module» ≤ length room.old → result ≢ 36 }
{
    put_instance(alloc, instance, keys, first, room).code()
}

fn put_instance(
    alloc: Global,
    instance: &Instance,
    keys: &Keys,
    first: &mut ProvisionReply,
    room: &mut [u8],
) -> ReturnStatus
    ensures provisions { ProvisionsInstance instance.now keys.now
        (memory_state first.old first.new room.old room.new) (number_of result) }
    ensures unwritten { result ≢ ReturnStatus.Done → room.new ≡ room.old }
    ensures unsaid { result ≢ ReturnStatus.Done → first.new ≡ first.old }
{
    match made(alloc, instance, keys) {
        Err(said) => said,
        Ok(made) => put(&made, first, room),
    }
}

fn made(alloc: Global, instance: &Instance, keys: &Keys) -> Result<Made, ReturnStatus>
    ensures ok { IfOk result (λ made. (i : model.Instance) × IsMeant instance.now keys.now i
        × (made.cell ≡ first_cell i) × (made.snapshot ≡ first_snapshot i)) }
    ensures err { IfErr result (λ says. IsUnmade instance.now says) }
{
    let (variant, module) = parts(instance)?;
    match first(alloc, variant, &module, keys) {
        Err(_) => Err(ReturnStatus::Refused(Refusal::Memory)),
        Ok(made) => Ok(made),
    }
}

fn first(alloc: Global, variant: Variant, module: &AnyModule, keys: &Keys) -> Result<Made, Memory>
    ensures { IfOk result (λ made.
        (made.cell ≡ first_cell (instance_by variant (meaning_of «module».now) keys.now.key
        keys.now.barrier))
        × (made.snapshot ≡ first_snapshot
        (instance_by variant (meaning_of «module».now) keys.now.key
        keys.now.barrier))) }
{
    let secrets = Secrets {
        key: keys.key,
        barrier: keys.barrier,
    };
    mm_ask::provision(alloc, variant, module, &secrets)
}

fn put(made: &Made, first: &mut ProvisionReply, room: &mut [u8]) -> ReturnStatus
    ensures puts { PutsFirst made.now.cell made.now.snapshot
        (memory_state first.old first.new room.old room.new) result }
    ensures unwritten { result ≢ ReturnStatus.Done → room.new ≡ room.old }
    ensures unsaid { result ≢ ReturnStatus.Done → first.new ≡ first.old }
{
    let snapshot = made.snapshot.as_slice();
    if snapshot.len() > room.len() {
        return ReturnStatus::NoRoom;
    }
    room[..snapshot.len()].copy_from_slice(snapshot);
    first.snapshot_length = snapshot.len();
    first.cell = made.cell;
    ReturnStatus::Done
}
