//! A crossing between two platforms in memory, with a session on either side; and one over two
//! honest stores, where the host writes what belongs to the arrival, in either variant.

use mm_ask::{Secrets, provision};
use mm_base::{MemSink, MemSource};
use mm_basic::ask;
use mm_bytes::{Bytes, Memory};
use mm_digest::Variant;
use mm_honest_worlds::{Carried, carry_over};
use mm_model::{Answer, Refusal};
use mm_module::Counter;
use mm_move::{Accepted, Link, MoveRefusal, accept, invite, retire};
use mm_platform::MemPlatform;
use mm_store::MemStore;
use mm_worlds::{Crossing, cross_over};
use std::alloc::Global;
use std::test::Fail;

/// The objects of a session.
#[derive(Drop)]
struct Site {
    platform: MemPlatform,
    store: MemStore,
    input: MemSource,
    out: MemSink,
}

const LINK: Link = Link {
    key: [1; 32],
    barrier: [2; 32],
};

const NONCE: [u8; 32] = [3; 32];

const KEY: [u8; 32] = [4; 32];

fn new_site(alloc: Global, cell: &[u8; 104], offer: &[u8], input: &[u8]) -> Result<Site, Memory> {
    let mut store = MemStore::new(alloc);
    store.set_slot(0, offer)?;
    Ok(Site {
        store,
        platform: MemPlatform::new(alloc, cell),
        input: MemSource::new(alloc, input, &[])?,
        out: MemSink::new(alloc, 1000, &[])?,
    })
}

// The snapshot of an answer.
fn answered(asked: Result<Answer, Refusal>) -> Result<Bytes, Memory> {
    match asked {
        Ok(answer) => Ok(answer.snapshot),
        Err(_) => Err(Memory),
    }
}

// The snapshots that a platform like the first one gives behind two requests, and one like the
// second, once the module has come there.
#[derive(Drop)]
struct Offers {
    left: Bytes,
    entered: Bytes,
}

fn snapshot_behind(
    alloc: Global,
    platform: &mut MemPlatform,
    first: &[u8],
) -> Result<Bytes, Memory> {
    let five = answered(ask(alloc, &Counter, platform, first, b"add 5"))?;
    answered(ask(alloc, &Counter, platform, five.as_slice(), b"add 6"))
}

fn snapshot_ahead(
    alloc: Global,
    behind: &mut MemPlatform,
    ahead: &mut MemPlatform,
    offer: &[u8],
) -> Result<Bytes, Memory> {
    let _ = invite(ahead, &LINK, Variant::Basic, 1, &NONCE, &KEY);
    match retire(
        alloc,
        &Counter,
        Variant::Basic,
        behind,
        &LINK,
        &NONCE,
        offer,
    ) {
        Ok(ticket) => entered(accept(
            alloc,
            &Counter,
            Variant::Basic,
            ahead,
            &LINK,
            ticket.as_slice(),
        )),
        Err(_) => Err(Memory),
    }
}

fn entered(accepted: Result<Accepted, MoveRefusal>) -> Result<Bytes, Memory> {
    match accepted {
        Ok(there) => Ok(there.snapshot),
        Err(_) => Err(Memory),
    }
}

fn offers_by(
    alloc: Global,
    behind: &mut MemPlatform,
    ahead: &mut MemPlatform,
    first: &[u8],
) -> Result<Offers, Memory> {
    let left = snapshot_behind(alloc, behind, first)?;
    let entered = snapshot_ahead(alloc, behind, ahead, left.as_slice())?;
    Ok(Offers { left, entered })
}

fn offers_from(alloc: Global, cell: &[u8; 104], first: &[u8]) -> Result<Offers, Memory> {
    let mut behind = MemPlatform::new(alloc, cell);
    offers_from_first(alloc, &mut behind, first)
}

fn offers_from_first(
    alloc: Global,
    behind: &mut MemPlatform,
    first: &[u8],
) -> Result<Offers, Memory> {
    let mut ahead = MemPlatform::new(alloc, &[0; 104]);
    offers_by(alloc, behind, &mut ahead, first)
}

fn has_gone_well(crossing: &Crossing) -> bool {
    crossing.first.is_ok()
        && crossing.invited.is_ok()
        && crossing.accepted.is_ok()
        && crossing.second.is_ok()
}

fn is_crossed(alloc: Global, first: &mut Site, second: &mut Site, offer: &[u8]) -> bool {
    match cross_over(
        alloc,
        &Counter,
        &LINK,
        &NONCE,
        &KEY,
        offer,
        &mut first.platform,
        &mut first.store,
        &mut first.input,
        &mut first.out,
        &mut second.platform,
        &mut second.store,
        &mut second.input,
        &mut second.out,
    ) {
        Ok(crossing) => has_gone_well(&crossing),
        Err(_) => false,
    }
}

// Whether the module crosses with its count, and an old snapshot is refused where it was.
fn is_crossed_with(alloc: Global, first: &mut Site, second: &mut Site, offer: &[u8]) -> bool {
    is_crossed(alloc, first, second, offer)
        && first.out.content() == b"ok 1 5\nok 2 11\n".as_slice()
        && second.out.content() == b"ok 3 18\n".as_slice()
        && ask(alloc, &Counter, &mut first.platform, offer, b"add 5").err() == Some(Refusal::Cell)
}

fn is_crossed_from(alloc: Global, cell: &[u8; 104], first: &[u8]) -> Result<bool, Memory> {
    let offers = offers_from(alloc, cell, first)?;
    let mut behind = new_site(alloc, cell, first, b"add 5\nadd 6\n")?;
    is_crossed_by(alloc, &mut behind, &offers)
}

fn is_crossed_by(alloc: Global, behind: &mut Site, offers: &Offers) -> Result<bool, Memory> {
    let mut ahead = new_site(alloc, &[0; 104], offers.entered.as_slice(), b"add 7\n")?;
    Ok(is_crossed_with(alloc, behind, &mut ahead, offers.left.as_slice()))
}

#[test]
fn a_module_crosses_over(rt: HostRuntime) -> Result<(), Fail> {
    let secrets = Secrets {
        key: [9; 32],
        barrier: [0; 32],
    };
    let made = provision(rt.alloc(), Variant::Basic, &Counter, &secrets)?;
    assert!(rt; is_crossed_from(rt.alloc(), &made.cell, made.snapshot.as_slice())?);
    Ok(())
}

fn has_come_well(carried: &Carried) -> bool {
    carried.first.is_ok() && carried.invited.is_ok() && carried.second.is_ok()
}

// The snapshot that a platform like the first one gives behind two requests, in Opt inside a
// segment.
fn offer_behind(
    alloc: Global,
    variant: Variant,
    platform: &mut MemPlatform,
    first: &[u8],
) -> Result<Bytes, Memory> {
    match variant {
        Variant::Basic => snapshot_behind(alloc, platform, first),
        Variant::Opt => snapshot_inside(alloc, platform, first),
    }
}

fn snapshot_inside(
    alloc: Global,
    platform: &mut MemPlatform,
    first: &[u8],
) -> Result<Bytes, Memory> {
    let five = answered(mm_opt::ask(alloc, &Counter, platform, first, b"add 5"))?;
    answered(mm_opt::ask(alloc, &Counter, platform, five.as_slice(), b"add 6"))
}

fn is_carried(
    alloc: Global,
    variant: Variant,
    first: &mut Site,
    second: &mut Site,
    offer: &[u8],
) -> bool {
    match carry_over(
        alloc,
        variant,
        &Counter,
        &LINK,
        &NONCE,
        &KEY,
        offer,
        b"add 7",
        &mut first.platform,
        &mut first.store,
        &mut first.input,
        &mut first.out,
        &mut second.platform,
        &mut second.store,
        &mut second.input,
        &mut second.out,
    ) {
        Ok(carried) => has_come_well(&carried),
        Err(_) => false,
    }
}

// Whether the request that was put there is told first, at the next position, and the line behind
// it.
fn is_carried_with(
    alloc: Global,
    variant: Variant,
    first: &mut Site,
    second: &mut Site,
    offer: &[u8],
) -> bool {
    is_carried(alloc, variant, first, second, offer)
        && first.out.content() == b"ok 1 5\nok 2 11\n".as_slice()
        && second.out.content() == b"ok 3 18\nok 4 26\n".as_slice()
}

fn is_carried_by(
    alloc: Global,
    variant: Variant,
    behind: &mut Site,
    offer: &[u8],
) -> Result<bool, Memory> {
    let mut ahead = new_site(alloc, &[0; 104], &[], b"add 8\n")?;
    Ok(is_carried_with(alloc, variant, behind, &mut ahead, offer))
}

fn is_carried_from(
    alloc: Global,
    variant: Variant,
    cell: &[u8; 104],
    first: &[u8],
) -> Result<bool, Memory> {
    let mut like = MemPlatform::new(alloc, cell);
    let offer = offer_behind(alloc, variant, &mut like, first)?;
    let mut behind = new_site(alloc, cell, first, b"add 5\nadd 6\n")?;
    is_carried_by(alloc, variant, &mut behind, offer.as_slice())
}

fn is_carried_in(alloc: Global, variant: Variant) -> Result<bool, Memory> {
    let secrets = Secrets {
        key: [9; 32],
        barrier: [2; 32],
    };
    let made = provision(alloc, variant, &Counter, &secrets)?;
    is_carried_from(alloc, variant, &made.cell, made.snapshot.as_slice())
}

#[test]
fn a_module_is_carried_over(rt: HostRuntime) -> Result<(), Fail> {
    assert!(rt; is_carried_in(rt.alloc(), Variant::Basic)?);
    assert!(rt; is_carried_in(rt.alloc(), Variant::Opt)?);
    Ok(())
}
