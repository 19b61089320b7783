//! A journey over three platforms in memory.

use mm_ask::{Secrets, provision};
use mm_basic::ask;
use mm_digest::Variant;
use mm_model::{Answer, Refusal};
use mm_module::Counter;
use mm_move::Link;
use mm_platform::MemPlatform;
use mm_worlds::{Journey, Pass, travel_round};
use std::alloc::Global;
use std::test::Fail;

/// Three platforms.
#[derive(Drop)]
struct Sites {
    first: MemPlatform,
    second: MemPlatform,
    third: MemPlatform,
}

const LINK: Link = Link {
    key: [1; 32],
    barrier: [2; 32],
};

const OUT: Pass = Pass {
    nonce: [3; 32],
    key: [4; 32],
};

const ACROSS: Pass = Pass {
    nonce: [5; 32],
    key: [6; 32],
};

const HOME: Pass = Pass {
    nonce: [7; 32],
    key: [8; 32],
};

// Whether the answer is the first to its request, at this position, and says this.
fn is_at(asked: &Result<Answer, Refusal>, position: u64, output: &[u8]) -> bool {
    match asked {
        Ok(answer) => {
            !answer.again && answer.position == position && answer.output.as_slice() == output
        }
        Err(_) => false,
    }
}

fn is_round(journey: &Journey) -> bool {
    is_at(&journey.asked, 1, b"5")
        && is_at(&journey.out.asked, 2, b"10")
        && is_at(&journey.across.asked, 3, b"15")
        && is_at(&journey.home.asked, 4, b"20")
}

fn is_led_round(alloc: Global, it: &mut Sites, first: &[u8]) -> bool {
    is_round(&travel_round(
        alloc,
        &Counter,
        &LINK,
        &OUT,
        &ACROSS,
        &HOME,
        &mut it.first,
        &mut it.second,
        &mut it.third,
        first,
        b"add 5",
    ))
}

// Whether the snapshot is refused on this platform.
fn is_refused(alloc: Global, platform: &mut MemPlatform, old: &[u8], by: Refusal) -> bool {
    ask(alloc, &Counter, platform, old, b"add 5").err() == Some(by)
}

// Whether the module comes round; and then its first snapshot is refused where it was, as it isn't
// there, and where it is, as that has another key.
fn is_round_once(alloc: Global, it: &mut Sites, first: &[u8]) -> bool {
    is_led_round(alloc, it, first)
        && is_refused(alloc, &mut it.second, first, Refusal::Cell)
        && is_refused(alloc, &mut it.third, first, Refusal::Cell)
        && is_refused(alloc, &mut it.first, first, Refusal::Tag)
}

fn is_round_from(alloc: Global, cell: &[u8; 104], first: &[u8]) -> bool {
    let mut it = Sites {
        first: MemPlatform::new(alloc, cell),
        second: MemPlatform::new(alloc, &[0; 104]),
        third: MemPlatform::new(alloc, &[0; 104]),
    };
    is_round_once(alloc, &mut it, first)
}

#[test]
fn a_journey_comes_round(rt: HostRuntime) -> Result<(), Fail> {
    let secrets = Secrets {
        key: [9; 32],
        barrier: [0; 32],
    };
    let made = provision(rt.alloc(), Variant::Basic, &Counter, &secrets)?;
    assert!(rt; is_round_from(rt.alloc(), &made.cell, made.snapshot.as_slice()));
    Ok(())
}
