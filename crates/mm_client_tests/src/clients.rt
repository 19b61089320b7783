//! A client over a program in memory: each of his requests is run once, though his lines and what
//! he hears are cut, session after session.

use mm_base::MemSource;
use mm_bytes::{Bytes, Memory, put_decimal, put_numbered};
use mm_client::{Carried, Client, Connection, LocalProgram, serve_local_client};
use mm_digest::Variant;
use mm_module::Counter;
use mm_pages::{MemPages, PageStore};
use mm_twocell::{MemRaw, TwoCell};
use std::alloc::Global;
use std::test::Fail;

/// A connection that is lost at bytes which come from a fixed seed, for so many sessions, and then
/// carries all.
#[derive(Drop)]
struct Cuts {
    seed: u64,
    left: u32,
}

impl Cuts {
    fn chance(&mut self) -> usize {
        self.seed = self
            .seed
            .wrapping_mul(6364136223846793005)
            .wrapping_add(1442695040888963407);
        (self.seed >> 33) as usize % 40
    }
}

impl Connection for Cuts {
    fn carry(&mut self) -> Carried {
        if self.left == 0 {
            return Carried {
                given: usize::MAX,
                heard: usize::MAX,
            };
        }
        self.left -= 1;
        Carried {
            given: self.chance(),
            heard: self.chance(),
        }
    }
}

// The requests `add 1` to `add 20`.
fn requests(alloc: Global) -> Result<Vec<Bytes>, Memory> {
    let mut requests = Vec::new(alloc);
    for number in 1..21u64 {
        let mut request = Bytes::new(alloc);
        put_numbered(&mut request, b"add ", number)?;
        requests.push(request)?;
    }
    Ok(requests)
}

// Whether each reply that he heard says the sum up to its position.
fn has_heard_sums(alloc: Global, client: &Client) -> Result<bool, Memory> {
    for reply in client.replies() {
        let position = reply.position;
        let mut sum = Bytes::new(alloc);
        put_decimal(
            &mut sum,
            position.wrapping_mul(position.wrapping_add(1)) / 2,
        )?;
        if sum.as_slice() != reply.output.as_slice() {
            return Ok(false);
        }
    }
    Ok(true)
}

// He is sure that each of his requests was run.
fn is_sure_of_all(alloc: Global, client: &Client) -> Result<bool, Memory> {
    Ok(client.is_sure() && client.position() == 20 && has_heard_sums(alloc, client)?)
}

/// A program over devices in memory.
type Program = LocalProgram<Counter, TwoCell<MemRaw>, PageStore<MemPages>, Cuts>;

fn is_served_by(
    alloc: Global,
    program: &mut Program,
    entropy: &mut MemSource,
    wanted: &[Bytes],
) -> Result<bool, Memory> {
    match serve_local_client(program, entropy, wanted, 44) {
        Ok(client) => is_sure_of_all(alloc, &client),
        Err(_) => Ok(false),
    }
}

fn new_program(alloc: Global, variant: Variant, seed: u64) -> Result<Program, Memory> {
    Ok(LocalProgram {
        store: PageStore::new(alloc, MemPages::new(alloc)?)?,
        alloc,
        variant,
        module: Counter,
        platform: TwoCell::new(MemRaw::new(alloc)),
        connection: Cuts { seed, left: 40 },
    })
}

fn is_served_with(alloc: Global, program: &mut Program, wanted: &[Bytes]) -> Result<bool, Memory> {
    let mut entropy = MemSource::new(alloc, &[7; 64], &[])?;
    is_served_by(alloc, program, &mut entropy, wanted)
}

// Whether he is served by a new program, behind these cuts.
fn is_served(alloc: Global, variant: Variant, seed: u64, wanted: &[Bytes]) -> Result<bool, Memory> {
    let mut program = new_program(alloc, variant, seed)?;
    is_served_with(alloc, &mut program, wanted)
}

fn is_always_served(alloc: Global, wanted: &[Bytes]) -> Result<bool, Memory> {
    for (variant, seed) in [(Variant::Basic, 1), (Variant::Opt, 2), (Variant::Basic, 3)] {
        if !is_served(alloc, variant, seed, wanted)? {
            return Ok(false);
        }
    }
    Ok(true)
}

fn are_all_run(alloc: Global) -> Result<bool, Memory> {
    let wanted = requests(alloc)?;
    is_always_served(alloc, wanted.as_slice())
}

#[test]
fn each_request_of_a_client_is_run_once(rt: HostRuntime) -> Result<(), Fail> {
    assert!(rt; are_all_run(rt.alloc())?);
    Ok(())
}
