//! A copy put back in the pages' place, in each of the lives of mm_at_work: the request is run
//! once, and repeated over the copy.

use mm_at_work::{
    LifeObjects, go_on, live_checkpointed, live_on_copy, live_without_power, serve_copy, start,
    start_and_serve,
};
use mm_base::{MemSink, MemSource};
use mm_bytes::Memory;
use mm_digest::Variant;
use mm_host::{HostFault, Resumed};
use mm_module::Counter;
use mm_opt::Checkpointed;
use mm_pages::{MemPages, PageStore};
use mm_twocell::{MemRaw, TwoCell};
use std::alloc::Global;
use std::test::Fail;

/// A life that is led over a copy.
#[derive(Clone, Copy)]
enum Life {
    Straight,
    WithoutPower,
    Checkpointed,
}

const TOLD: &[u8] = b"ok 1 5\nagain 1 5\n";

fn pages(alloc: Global) -> Result<PageStore<MemPages>, Memory> {
    PageStore::new(alloc, MemPages::new(alloc)?)
}

fn new_objects(alloc: Global) -> Result<LifeObjects, Memory> {
    Ok(LifeObjects {
        entropy: MemSource::new(alloc, &[7; 64], &[])?,
        first: MemSource::new(alloc, b"add 5\n", &[])?,
        second: MemSource::new(alloc, b"add 5\n", &[])?,
        out: MemSink::new(alloc, 1000, &[])?,
        platform: TwoCell::new(MemRaw::new(alloc)),
    })
}

fn variant_of(life: Life) -> Variant {
    match life {
        Life::Checkpointed => Variant::Opt,
        _ => Variant::Basic,
    }
}

// Whether both sessions were held to their ends.
fn is_straight(
    alloc: Global,
    it: &mut LifeObjects,
    store: &mut PageStore<MemPages>,
    copy: &mut PageStore<MemPages>,
) -> bool {
    match live_on_copy(alloc, &Counter, it, store, copy) {
        Ok(both) => both.first.is_ok() && both.second.is_ok(),
        Err(_) => false,
    }
}

fn is_without_power(
    alloc: Global,
    it: &mut LifeObjects,
    store: &mut PageStore<MemPages>,
    copy: &mut PageStore<MemPages>,
) -> bool {
    match live_without_power(alloc, &Counter, it, store, copy) {
        Ok(both) => both.first.is_ok() && both.second.is_ok(),
        Err(_) => false,
    }
}

// The checkpoint between them was made, too.
fn is_checkpointed(
    alloc: Global,
    it: &mut LifeObjects,
    store: &mut PageStore<MemPages>,
    copy: &mut PageStore<MemPages>,
) -> bool {
    match live_checkpointed(alloc, &Counter, it, store, copy) {
        Ok(all) => {
            let is_made = matches!(all.said, Ok(Checkpointed::Done));
            is_made && all.sessions.first.is_ok() && all.sessions.second.is_ok()
        }
        Err(_) => false,
    }
}

// Whether the pages are those of a first start with the same secrets.
fn is_begun(
    alloc: Global,
    variant: Variant,
    it: &mut LifeObjects,
    copy: &mut PageStore<MemPages>,
) -> bool {
    start(
        alloc,
        variant,
        &Counter,
        &mut it.platform,
        copy,
        &mut it.entropy,
    )
    .is_ok()
}

fn first_copy(
    alloc: Global,
    variant: Variant,
    copy: &mut PageStore<MemPages>,
) -> Result<bool, Memory> {
    let mut other = new_objects(alloc)?;
    Ok(is_begun(alloc, variant, &mut other, copy))
}

fn is_lived(
    alloc: Global,
    life: Life,
    it: &mut LifeObjects,
    store: &mut PageStore<MemPages>,
    copy: &mut PageStore<MemPages>,
) -> bool {
    let is_well = match life {
        Life::Straight => is_straight(alloc, it, store, copy),
        Life::WithoutPower => is_without_power(alloc, it, store, copy),
        Life::Checkpointed => is_checkpointed(alloc, it, store, copy),
    };
    is_well && it.out.content() == TOLD
}

fn over_both(
    alloc: Global,
    life: Life,
    store: &mut PageStore<MemPages>,
    copy: &mut PageStore<MemPages>,
) -> Result<bool, Memory> {
    let mut it = new_objects(alloc)?;
    Ok(is_lived(alloc, life, &mut it, store, copy))
}

fn over_copy(alloc: Global, life: Life, copy: &mut PageStore<MemPages>) -> Result<bool, Memory> {
    let mut store = pages(alloc)?;
    over_both(alloc, life, &mut store, copy)
}

fn begun_and_over(
    alloc: Global,
    life: Life,
    copy: &mut PageStore<MemPages>,
) -> Result<bool, Memory> {
    Ok(first_copy(alloc, variant_of(life), copy)? && over_copy(alloc, life, copy)?)
}

// Whether such a life repeats the request over a copy of the pages of a first start.
fn repeats(alloc: Global, life: Life) -> Result<bool, Memory> {
    let mut copy = pages(alloc)?;
    begun_and_over(alloc, life, &mut copy)
}

// The first request was told again.
fn is_repeat(resumed: &Result<Resumed, HostFault>) -> bool {
    match resumed {
        Ok(Resumed::Answered(answer)) => answer.again && answer.position == 1,
        _ => false,
    }
}

// Whether a first start and a session went well, and the program goes on by a repeat.
fn is_gone_on(alloc: Global, it: &mut LifeObjects, store: &mut PageStore<MemPages>) -> bool {
    let served = start_and_serve(
        alloc,
        &Counter,
        &mut it.platform,
        store,
        &mut it.entropy,
        &mut it.first,
        &mut it.out,
    );
    let resumed = go_on(alloc, Variant::Basic, &Counter, &mut it.platform, store);
    matches!(served, Ok(Ok(()))) && is_repeat(&resumed)
}

// Whether a session over the copy went well, too.
fn is_served(
    alloc: Global,
    it: &mut LifeObjects,
    store: &mut PageStore<MemPages>,
    copy: PageStore<MemPages>,
) -> bool {
    let served = serve_copy(
        alloc,
        Variant::Basic,
        &Counter,
        &mut it.platform,
        store,
        copy,
        &mut it.second,
        &mut it.out,
    );
    served.is_ok() && it.out.content() == TOLD
}

fn goes_on_over(
    alloc: Global,
    it: &mut LifeObjects,
    store: &mut PageStore<MemPages>,
) -> Result<bool, Memory> {
    let is_well = is_gone_on(alloc, it, store);
    Ok(is_served(alloc, it, store, begun_copy(alloc)?) && is_well)
}

fn begun_copy(alloc: Global) -> Result<PageStore<MemPages>, Memory> {
    let mut copy = pages(alloc)?;
    match first_copy(alloc, Variant::Basic, &mut copy) {
        Ok(true) => Ok(copy),
        _ => Err(Memory),
    }
}

fn goes_on_with(alloc: Global, it: &mut LifeObjects) -> Result<bool, Memory> {
    let mut store = pages(alloc)?;
    goes_on_over(alloc, it, &mut store)
}

fn goes_on(alloc: Global) -> Result<bool, Memory> {
    let mut it = new_objects(alloc)?;
    goes_on_with(alloc, &mut it)
}

#[test]
fn a_copy_put_back_repeats(rt: HostRuntime) -> Result<(), Fail> {
    assert!(rt; repeats(rt.alloc(), Life::Straight)?);
    Ok(())
}

#[test]
fn a_copy_put_back_repeats_behind_a_loss_of_power(rt: HostRuntime) -> Result<(), Fail> {
    assert!(rt; repeats(rt.alloc(), Life::WithoutPower)?);
    Ok(())
}

#[test]
fn a_copy_put_back_repeats_behind_a_checkpoint(rt: HostRuntime) -> Result<(), Fail> {
    assert!(rt; repeats(rt.alloc(), Life::Checkpointed)?);
    Ok(())
}

#[test]
fn a_program_goes_on_in_memory(rt: HostRuntime) -> Result<(), Fail> {
    assert!(rt; goes_on(rt.alloc())?);
    Ok(())
}
