//! Lives of programs over devices in memory, of which one session is cut at one of its calls.

use crate::devices::{MortalRaw, MortalSink, MortalStore};
use crate::life::{Cut, Life, NEVER};
use mm_base::MemSource;
use mm_bytes::{Bytes, Memory, put_decimal, put_numbered};
use mm_client::{Client, HeardReply, HeardSession, replies_in};
use mm_digest::{Digest, Variant, zero};
use mm_host::{init, session};
use mm_module::Counter;
use mm_store::Four;
use mm_twocell::TwoCell;
use std::alloc::Global;
use std::mem;

/// What stands between two programs: the memory, the register and the slots.
#[derive(Drop)]
pub struct Remains {
    bytes: [u8; 209],
    register: Digest,
    slots: Four<Bytes>,
}

fn empty_slots(alloc: Global) -> Four<Bytes> {
    Four::new(
        Bytes::new(alloc),
        Bytes::new(alloc),
        Bytes::new(alloc),
        Bytes::new(alloc),
    )
}

fn copied(alloc: Global, slots: &Four<Bytes>, slot: u8) -> Result<Bytes, Memory> {
    Bytes::copy_of(alloc, slots.get(slot).as_slice())
}

impl Remains {
    /// A copy.
    pub fn copy(&self, alloc: Global) -> Result<Remains, Memory> {
        let slots = Four::new(
            copied(alloc, &self.slots, 0)?,
            copied(alloc, &self.slots, 1)?,
            copied(alloc, &self.slots, 2)?,
            copied(alloc, &self.slots, 3)?,
        );
        Ok(Remains {
            bytes: self.bytes,
            register: self.register,
            slots,
        })
    }
}

/// What a first start leaves. It lives long enough.
pub fn started(alloc: Global, variant: Variant) -> Result<Remains, Memory> {
    let life = Life::until(NEVER);
    let mut platform = TwoCell::new(MortalRaw::new(&life, [0; 209], zero()));
    let mut store = MortalStore {
        life: &life,
        slots: empty_slots(alloc),
        faults: 0,
    };
    let mut entropy = MemSource::new(alloc, &[7; 64], &[])?;
    let came = init(
        alloc,
        variant,
        &Counter,
        &mut platform,
        &mut store,
        &mut entropy,
    );
    let MortalStore { slots, .. } = store;
    match came {
        Err(_) => Err(Memory),
        Ok(()) => Ok(Remains {
            bytes: platform.raw().bytes(),
            register: platform.raw().register(),
            slots,
        }),
    }
}

/// What is heard of a session, and how many calls were left to it.
#[derive(Drop)]
pub struct HeldSession {
    pub heard: HeardSession,
    pub left: u64,
}

// The lines, each with its LF.
fn joined(alloc: Global, lines: &[Bytes]) -> Result<Bytes, Memory> {
    let mut text = Bytes::new(alloc);
    for line in lines {
        text.append(line.as_slice())?;
        text.push(b'\n')?;
    }
    Ok(text)
}

/// A session over these lines, of a program that is killed there. What it leaves stands then.
pub fn held(
    alloc: Global,
    variant: Variant,
    remains: &mut Remains,
    lines: &[Bytes],
    cut: Cut,
) -> Result<HeldSession, Memory> {
    let life = Life::until(cut);
    let raw = MortalRaw::new(&life, remains.bytes, remains.register);
    let mut platform = TwoCell::new(raw);
    let mut store = MortalStore {
        life: &life,
        slots: mem::replace(&mut remains.slots, empty_slots(alloc)),
        faults: 0,
    };
    let mut out = MortalSink {
        life: &life,
        received: Bytes::new(alloc),
        faults: 0,
    };
    let text = joined(alloc, lines)?;
    let mut input = MemSource::new(alloc, text.as_slice(), &[])?;
    let ended = session(
        alloc,
        variant,
        &Counter,
        &mut platform,
        &mut store,
        &mut input,
        &mut out,
    );
    let MortalStore { slots, .. } = store;
    remains.slots = slots;
    remains.bytes = platform.raw().bytes();
    remains.register = platform.raw().register();
    let replies = replies_in(alloc, out.received.as_slice())?;
    Ok(HeldSession {
        heard: HeardSession::new(replies, ended.is_ok()),
        left: life.left(),
    })
}

/// What a client wants behind a position: requests `add N`, the last of which asks what the others
/// came to; and the sum at that position and behind each request.
#[derive(Drop)]
pub struct Wanted {
    pub base: u64,
    pub lines: Vec<Bytes>,
    pub sums: Vec<u64>,
}

impl Wanted {
    /// Requests by these numbers.
    pub fn new(alloc: Global, base: u64, sum: u64, numbers: &[u64]) -> Result<Wanted, Memory> {
        let mut lines = Vec::new(alloc);
        let mut sums = Vec::new(alloc);
        let mut sum = sum;
        sums.push(sum)?;
        for number in numbers {
            let mut line = Bytes::new(alloc);
            put_numbered(&mut line, b"add ", *number)?;
            lines.push(line)?;
            sum = sum.wrapping_add(*number);
            sums.push(sum)?;
        }
        Ok(Wanted { base, lines, sums })
    }

    /// All but the last.
    pub fn first_lines(&self) -> &[Bytes] {
        match self.lines.as_slice().split_last() {
            Some((_, first)) => first,
            None => &[],
        }
    }

    // Whether this is what the list says at its position, or the reply of the position before.
    fn is_said(&self, alloc: Global, reply: &HeardReply) -> Result<bool, Memory> {
        if reply.position < self.base {
            return Ok(false);
        }
        let Some(sum) = self.sums.get((reply.position - self.base) as usize) else {
            return Ok(false);
        };
        let mut text = Bytes::new(alloc);
        put_decimal(&mut text, *sum)?;
        Ok(reply.output.as_slice() == text.as_slice())
    }

    // Whether a client heard of these requests alone, and of the last one at its place.
    fn is_served(&self, alloc: Global, client: &Client) -> Result<bool, Memory> {
        for reply in client.replies() {
            if !self.is_said(alloc, reply)? {
                return Ok(false);
            }
        }
        let last = self.base.saturating_add(self.lines.len() as u64);
        Ok(client.is_sure() && client.position() == last)
    }
}

/// Whether the life is one list though two sessions are cut, or one: a client asks, and by the rule
/// asks what came of it, and for what is left.
pub fn is_one_list(
    alloc: Global,
    variant: Variant,
    remains: &Remains,
    wanted: &Wanted,
    first: Cut,
    second: Cut,
) -> Result<bool, Memory> {
    let mut remains = remains.copy(alloc)?;
    let mut client = Client::new(alloc, wanted.base);
    let came = held(alloc, variant, &mut remains, wanted.first_lines(), first)?;
    client = client.memory_after(came.heard)?;
    for cut in [second, NEVER, NEVER] {
        let lines = client.lines_to_give(wanted.base, wanted.lines.as_slice());
        let came = held(alloc, variant, &mut remains, lines, cut)?;
        client = client.memory_after(came.heard)?;
    }
    wanted.is_served(alloc, &client)
}
