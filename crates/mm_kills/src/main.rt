//! Cuts sessions of programs in memory at each call of their devices, as a kill does: the devices
//! stop for good there, and a new program goes on over what is left. A client who keeps the rule is
//! to hear one list of requests. That each killed program is a part of a life is a law
//! (`killed_programs_live` of mm_life); here it is run. `examples/random_life` kills the built
//! program, over files, at any of its system calls.
#![tactic(auto)]

mod devices;
mod instance;
mod life;
mod lives;

use crate::instance::{Instance, Tally};
use mm_bytes::Memory;
use mm_digest::Variant;
use std::alloc::{AllocError, Global};
use std::io;

/// How many instances there are, of either variant in turn, and how many sessions of each.
const INSTANCES: u32 = 30;

const SESSIONS: u32 = 10;

fn variant_of(number: u32) -> Variant {
    if number % 2 == 0 {
        Variant::Basic
    } else {
        Variant::Opt
    }
}

// Cuts the sessions of each instance.
fn cut_all(alloc: Global) -> Result<Tally, Memory> {
    let mut tally = Tally::new();
    for number in 0..INSTANCES {
        let mut instance = Instance::start(alloc, variant_of(number), u64::from(number))?;
        for _ in 0..SESSIONS {
            instance.cut_next(alloc, &mut tally)?;
        }
    }
    Ok(tally)
}

fn main(rt: HostRuntime) -> io::Result<()> {
    match cut_all(rt.alloc()) {
        Err(Memory) => Err(io::Error::from(AllocError)),
        Ok(tally) => println!(rt; "{tally}"),
    }
}
