//! The ways in which a core of either variant is asked, by the counter.

use mm_digest::Variant;
use mm_model::{Answer, BatchAnswer, Refusal};
use mm_module::{Batch, Counter};
use mm_opt::{CheckpointRefusal, CheckpointTurn, Checkpointed, begin_checkpoint};
use mm_platform::{MemPlatform, Platform};
use std::alloc::Global;

// Asks for a request.
pub fn ask_one(
    alloc: Global,
    variant: Variant,
    platform: &mut MemPlatform,
    offer: &[u8],
    request: &[u8],
) -> Result<Answer, Refusal> {
    match variant {
        Variant::Basic => mm_basic::ask(alloc, &Counter, platform, offer, request),
        Variant::Opt => mm_opt::ask(alloc, &Counter, platform, offer, request),
    }
}

// Asks for a batch.
pub fn ask_many(
    alloc: Global,
    variant: Variant,
    platform: &mut MemPlatform,
    offer: &[u8],
    batch: Batch<'_>,
) -> Result<BatchAnswer, Refusal> {
    match variant {
        Variant::Basic => mm_basic::ask_batch(alloc, &Counter, platform, offer, batch),
        Variant::Opt => mm_opt::ask_batch(alloc, &Counter, platform, offer, batch),
    }
}

// The same of one request of Basic, in the call's parts.
fn ask_basic_in_parts(
    alloc: Global,
    platform: &mut MemPlatform,
    offer: &[u8],
    request: &[u8],
) -> Result<BatchAnswer, Refusal> {
    let prepared = mm_basic::prepare(alloc, &Counter, platform, offer, request)?;
    match prepared.commit(platform) {
        Err(fault) => Err(Refusal::Device(fault)),
        Ok(committed) => Ok(committed.answer()),
    }
}

// The same of Opt.
fn ask_opt_in_parts(
    alloc: Global,
    platform: &mut MemPlatform,
    offer: &[u8],
    request: &[u8],
) -> Result<BatchAnswer, Refusal> {
    let prepared = mm_opt::prepare(alloc, &Counter, platform, offer, request)?;
    match prepared.commit(platform) {
        Err(fault) => Err(Refusal::Device(fault)),
        Ok(committed) => Ok(committed.answer()),
    }
}

pub fn ask_in_parts(
    alloc: Global,
    variant: Variant,
    platform: &mut MemPlatform,
    offer: &[u8],
    request: &[u8],
) -> Result<BatchAnswer, Refusal> {
    match variant {
        Variant::Basic => ask_basic_in_parts(alloc, platform, offer, request),
        Variant::Opt => ask_opt_in_parts(alloc, platform, offer, request),
    }
}

/// The digits of the steps so far and of the next: its number, and how often the cell was to be
/// written before it.
fn noted(steps: u64, step: u8, writes: u64) -> u64 {
    let next = (10 * u64::from(step)).saturating_add(writes);
    steps.saturating_mul(100).saturating_add(next)
}

// Asks a step at a time.
fn ask_basic_in_turns(
    steps: &mut u64,
    alloc: Global,
    platform: &mut MemPlatform,
    offer: &[u8],
    batch: Batch<'_>,
) -> Result<BatchAnswer, Refusal> {
    let mut call = mm_basic::begin(batch)?;
    for _ in 0..2 {
        *steps = noted(*steps, call.next_step(), platform.nv_writes());
        match call.advance(alloc, &Counter, platform, offer, batch) {
            mm_basic::Turn::Going(next) => call = next,
            mm_basic::Turn::Done(answer) => return Ok(answer),
            mm_basic::Turn::Refused(refusal) => return Err(refusal),
        }
    }
    Err(Refusal::Long)
}

// The same of Opt.
fn ask_opt_in_turns(
    steps: &mut u64,
    alloc: Global,
    platform: &mut MemPlatform,
    offer: &[u8],
    batch: Batch<'_>,
) -> Result<BatchAnswer, Refusal> {
    let mut call = mm_opt::begin(batch)?;
    for _ in 0..5 {
        *steps = noted(*steps, call.next_step(), platform.nv_writes());
        match call.advance(alloc, &Counter, platform, offer, batch) {
            mm_opt::Turn::Going(next) => call = next,
            mm_opt::Turn::Done(answer) => return Ok(answer),
            mm_opt::Turn::Refused(refusal) => return Err(refusal),
        }
    }
    Err(Refusal::Long)
}

pub fn ask_in_turns(
    steps: &mut u64,
    alloc: Global,
    variant: Variant,
    platform: &mut MemPlatform,
    offer: &[u8],
    batch: Batch<'_>,
) -> Result<BatchAnswer, Refusal> {
    match variant {
        Variant::Basic => ask_basic_in_turns(steps, alloc, platform, offer, batch),
        Variant::Opt => ask_opt_in_turns(steps, alloc, platform, offer, batch),
    }
}

pub fn close_in_turns(
    steps: &mut u64,
    platform: &mut MemPlatform,
) -> Result<Checkpointed, CheckpointRefusal> {
    let mut call = begin_checkpoint();
    for _ in 0..3 {
        *steps = noted(*steps, call.next_step(), platform.nv_writes());
        match call.advance(platform) {
            CheckpointTurn::Going(next) => call = next,
            CheckpointTurn::Done(checkpointed) => return Ok(checkpointed),
            CheckpointTurn::Refused(refusal) => return Err(refusal),
        }
    }
    Err(CheckpointRefusal::Blank)
}
