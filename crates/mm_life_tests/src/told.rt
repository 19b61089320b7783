//! A host in Rattle that makes the steps it is told: a call over it comes to an end.

use mm_ask::{Secrets, provision};
use mm_digest::{Digest, Variant};
use mm_module::Counter;
use mm_platform::MemPlatform;
use mm_told::{HostStep, MadeStep, ask_by_steps, make};
use std::alloc::Global;
use std::test::Fail;

fn is_answered(alloc: Global, platform: &mut MemPlatform, first: &[u8], again: bool) -> bool {
    match ask_by_steps(alloc, &Counter, platform, first, b"add 5") {
        Some(Ok(answer)) => {
            let is_told = answer.output.as_slice() == b"5".as_slice();
            is_told && answer.again == again && answer.position == 1
        }
        _ => false,
    }
}

// Whether a request is run once, and then repeated.
fn is_run_once(alloc: Global, platform: &mut MemPlatform, first: &[u8]) -> bool {
    let is_new = is_answered(alloc, platform, first, false);
    let is_again = is_answered(alloc, platform, first, true);
    is_new && is_again && platform.nv_writes() == 1
}

fn is_made_by_steps(alloc: Global, cell: &[u8; 104], first: &[u8]) -> bool {
    let mut platform = MemPlatform::new(alloc, cell);
    is_run_once(alloc, &mut platform, first)
}

#[test]
fn a_call_is_made_by_steps(rt: HostRuntime) -> Result<(), Fail> {
    let secrets = Secrets {
        key: [7; 32],
        barrier: [9; 32],
    };
    let made = provision(rt.alloc(), Variant::Basic, &Counter, &secrets)?;
    assert!(rt; is_made_by_steps(rt.alloc(), &made.cell, made.snapshot.as_slice()));
    Ok(())
}

// Whether this step is made, where each before it in the list below was.
fn is_made(platform: &mut MemPlatform, step: &HostStep, value: &Digest) -> bool {
    match make(platform, step) {
        Ok(MadeStep::ReadCell(Ok(bytes))) => bytes == [0; 104],
        Ok(MadeStep::ReadRegister(Ok(read))) => read.bytes == [0; 32],
        Ok(MadeStep::WriteCell(bytes, Ok(()))) => bytes == *platform.cell(),
        Ok(MadeStep::ResetRegister(Ok(()))) => platform.register().bytes == [0; 32],
        Ok(MadeStep::ExtendRegister(by, Ok(()))) => {
            by.bytes == value.bytes && platform.own_items() == 1
        }
        _ => false,
    }
}

fn steps_made(platform: &mut MemPlatform) -> u32 {
    let value = Digest { bytes: [5; 32] };
    let mut count = 0u32;
    for step in [
        HostStep::ReadCell,
        HostStep::WriteCell([3; 104]),
        HostStep::ReadRegister,
        HostStep::ExtendRegister(value),
        HostStep::ResetRegister,
    ] {
        if is_made(platform, &step, &value) {
            count = count.wrapping_add(1);
        }
    }
    count
}

fn steps_made_in_memory(alloc: Global) -> u32 {
    let mut platform = MemPlatform::new(alloc, &[0; 104]);
    steps_made(&mut platform)
}

#[test]
fn each_step_is_made(rt: HostRuntime) -> Result<(), Fail> {
    assert_eq!(rt; steps_made_in_memory(rt.alloc()), 5);
    Ok(())
}
