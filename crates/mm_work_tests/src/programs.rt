//! Calls of both cores, and commands as a host says, over two cells and pages in memory.

use mm_at_work::{
    HandedObjects, Host, MemHandedObjects, Verb, ask_basic, ask_opt, close_segment, go_on,
    live_under_host, start,
};
use mm_base::{MemSink, MemSource};
use mm_bytes::{Bytes, Memory};
use mm_digest::Variant;
use mm_host::Resumed;
use mm_module::{Batch, Counter};
use mm_modules::AnyModule;
use mm_opt::Checkpointed;
use mm_pages::{MemPages, PageStore};
use mm_twocell::{MemRaw, TwoCell};
use std::alloc::Global;
use std::test::Fail;

fn pages(alloc: Global) -> Result<PageStore<MemPages>, Memory> {
    PageStore::new(alloc, MemPages::new(alloc)?)
}

fn secrets(alloc: Global) -> Result<MemSource, Memory> {
    MemSource::new(alloc, &[7; 64], &[])
}

// The first snapshot of an instance that is started over these pages.
fn first_over(
    alloc: Global,
    variant: Variant,
    platform: &mut TwoCell<MemRaw>,
    entropy: &mut MemSource,
    store: &mut PageStore<MemPages>,
) -> Result<Bytes, Memory> {
    let begun = start(alloc, variant, &Counter, platform, store, entropy);
    match (begun, go_on(alloc, variant, &Counter, platform, store)) {
        (Ok(()), Ok(Resumed::Start(first))) => Ok(first),
        _ => Err(Memory),
    }
}

fn started(
    alloc: Global,
    variant: Variant,
    platform: &mut TwoCell<MemRaw>,
) -> Result<Bytes, Memory> {
    let mut entropy = secrets(alloc)?;
    started_by(alloc, variant, platform, &mut entropy)
}

fn started_by(
    alloc: Global,
    variant: Variant,
    platform: &mut TwoCell<MemRaw>,
    entropy: &mut MemSource,
) -> Result<Bytes, Memory> {
    let mut store = pages(alloc)?;
    first_over(alloc, variant, platform, entropy, &mut store)
}

// Whether a request is run by a call of Basic.
fn is_run_in_basic(alloc: Global, platform: &mut TwoCell<MemRaw>) -> Result<bool, Memory> {
    let first = started(alloc, Variant::Basic, platform)?;
    let request = Batch::One(b"add 5");
    match ask_basic(alloc, &Counter, platform, first.as_slice(), request) {
        Ok(answer) => Ok(!answer.again && answer.position == 1),
        Err(_) => Ok(false),
    }
}

// Whether it is by one of Opt, and the segment is closed behind it.
fn is_run_in_opt(alloc: Global, platform: &mut TwoCell<MemRaw>) -> Result<bool, Memory> {
    let first = started(alloc, Variant::Opt, platform)?;
    let request = Batch::One(b"add 5");
    match ask_opt(alloc, &Counter, platform, first.as_slice(), request) {
        Ok(answer) => Ok(!answer.again && answer.position == 1 && is_closed(platform)),
        Err(_) => Ok(false),
    }
}

fn is_closed(platform: &mut TwoCell<MemRaw>) -> bool {
    matches!(close_segment(platform), Ok(Checkpointed::Done))
}

fn new_platform(alloc: Global) -> TwoCell<MemRaw> {
    TwoCell::new(MemRaw::new(alloc))
}

fn is_run(alloc: Global, variant: Variant) -> Result<bool, Memory> {
    let mut platform = new_platform(alloc);
    match variant {
        Variant::Basic => is_run_in_basic(alloc, &mut platform),
        Variant::Opt => is_run_in_opt(alloc, &mut platform),
    }
}

#[test]
fn calls_are_made_in_memory(rt: HostRuntime) -> Result<(), Fail> {
    assert!(rt; is_run(rt.alloc(), Variant::Basic)?);
    assert!(rt; is_run(rt.alloc(), Variant::Opt)?);
    Ok(())
}

/// A host that has a session held over each of its inputs, and power lost behind each.
#[derive(Drop)]
struct Turns {
    inputs: Vec<MemSource>,
    has_run: bool,
}

impl Host<PageStore<MemPages>, MemSource, MemSource, MemSink> for Turns {
    ghost hands = { λ old new before after verb. Unit {0} };

    fn hand(&mut self, handed: &mut MemHandedObjects) -> Verb {
        self.has_run = !self.has_run;
        if !self.has_run {
            return Verb::Power;
        }
        if let Some(next) = self.inputs.pop() {
            handed.input = next;
        }
        Verb::Run
    }
}

fn new_turns(alloc: Global) -> Result<Turns, Memory> {
    let mut inputs = Vec::new(alloc);
    for lines in [b"add 7\n".as_slice(), b"add 6\n", b"add 5\n"] {
        inputs.push(MemSource::new(alloc, lines, &[])?)?;
    }
    Ok(Turns {
        inputs,
        has_run: false,
    })
}

fn new_handed(alloc: Global) -> Result<MemHandedObjects, Memory> {
    Ok(HandedObjects {
        input: MemSource::new(alloc, &[], &[])?,
        entropy: secrets(alloc)?,
        out: MemSink::new(alloc, 1000, &[])?,
        store: pages(alloc)?,
    })
}

const TOLD: &[u8] = b"ok 1 5\npower\nagain 1 5\nok 2 11\npower\nagain 2 11\nok 3 18\n";

// Whether five commands tell this.
fn are_run(alloc: Global, host: &mut Turns, handed: &mut MemHandedObjects) -> bool {
    let mut platform = new_platform(alloc);
    let came = live_under_host(alloc, &AnyModule::Counter, 5, &mut platform, host, handed);
    came.is_ok() && handed.out.content() == TOLD
}

fn are_run_by(alloc: Global, host: &mut Turns) -> Result<bool, Memory> {
    let mut handed = new_handed(alloc)?;
    Ok(are_run(alloc, host, &mut handed))
}

fn are_run_by_turns(alloc: Global) -> Result<bool, Memory> {
    let mut host = new_turns(alloc)?;
    are_run_by(alloc, &mut host)
}

#[test]
fn commands_are_run_as_a_host_says(rt: HostRuntime) -> Result<(), Fail> {
    assert!(rt; are_run_by_turns(rt.alloc())?);
    Ok(())
}
