//! Lives over devices in memory: their callers come to an end, and tell what they should.

use mm_base::{MemSink, MemSource};
use mm_bytes::Memory;
use mm_host::InitFault;
use mm_life::{BothSessionsFault, live_on_one_store, live_over_checkpoint};
use mm_module::Counter;
use mm_opt::Checkpointed;
use mm_platform::MemPlatform;
use mm_store::MemStore;
use std::alloc::Global;
use std::test::Fail;

/// What a life is led over.
#[derive(Drop)]
struct Objects {
    platform: MemPlatform,
    store: MemStore,
    entropy: MemSource,
    first: MemSource,
    second: MemSource,
    out: MemSink,
}

// New ones, with two sessions to hold.
fn new_objects(alloc: Global) -> Result<Objects, Memory> {
    Ok(Objects {
        entropy: MemSource::new(alloc, &[7; 128], &[])?,
        first: MemSource::new(alloc, b"add 5\nadd 6\n", &[])?,
        second: MemSource::new(alloc, b"add 7\n", &[])?,
        out: MemSink::new(alloc, 1000, &[])?,
        platform: MemPlatform::new(alloc, &[0; 104]),
        store: MemStore::new(alloc),
    })
}

const TOLD: &[u8] = b"ok 1 5\nok 2 11\nagain 2 11\nok 3 18\n";

/// A life that is led over one store.
#[derive(Clone, Copy)]
enum Life {
    OneStore,
    Checkpoint,
}

/// What came of it: all went well; or the platform was in use; or something else.
#[derive(Clone, Copy, PartialEq, Eq)]
enum Came {
    Well,
    InUse,
    Otherwise,
}

fn came_if(is_well: bool) -> Came {
    if is_well { Came::Well } else { Came::Otherwise }
}

fn came_by(fault: BothSessionsFault) -> Came {
    match fault {
        BothSessionsFault::Starting(InitFault::Already) => Came::InUse,
        _ => Came::Otherwise,
    }
}

fn came_on_one_store(alloc: Global, it: &mut Objects) -> Came {
    match live_on_one_store(
        alloc,
        &Counter,
        &mut it.platform,
        &mut it.store,
        &mut it.entropy,
        &mut it.first,
        &mut it.second,
        &mut it.out,
    ) {
        Ok(both) => came_if(both.first.is_ok() && both.second.is_ok()),
        Err(fault) => came_by(fault),
    }
}

fn came_over_checkpoint(alloc: Global, it: &mut Objects) -> Came {
    match live_over_checkpoint(
        alloc,
        &Counter,
        &mut it.platform,
        &mut it.store,
        &mut it.entropy,
        &mut it.first,
        &mut it.second,
        &mut it.out,
    ) {
        Ok(held) => {
            let is_made = matches!(held.checkpoint, Ok(Checkpointed::Done));
            came_if(is_made && held.first.is_ok() && held.second.is_ok())
        }
        Err(fault) => came_by(fault),
    }
}

fn came_of(alloc: Global, life: Life, it: &mut Objects) -> Came {
    match life {
        Life::OneStore => came_on_one_store(alloc, it),
        Life::Checkpoint => came_over_checkpoint(alloc, it),
    }
}

// Whether such a life is led once, and then the platform is in use.
fn is_led_once(alloc: Global, life: Life, it: &mut Objects) -> bool {
    for wanted in [Came::Well, Came::InUse] {
        if came_of(alloc, life, it) != wanted || it.out.content() != TOLD {
            return false;
        }
    }
    true
}

fn is_led(alloc: Global, life: Life) -> Result<bool, Memory> {
    let mut it = new_objects(alloc)?;
    Ok(is_led_once(alloc, life, &mut it))
}

#[test]
fn one_store_serves_two_sessions(rt: HostRuntime) -> Result<(), Fail> {
    assert!(rt; is_led(rt.alloc(), Life::OneStore)?);
    Ok(())
}

#[test]
fn one_store_serves_over_a_checkpoint(rt: HostRuntime) -> Result<(), Fail> {
    assert!(rt; is_led(rt.alloc(), Life::Checkpoint)?);
    Ok(())
}
