//! A client's rule over a thousand hearings that come from a fixed seed: what he remembers, and
//! what he gives next. `examples/hearings` computes the same by the functions of `examples/client`,
//! and compares the tag of all answers with the one that stands here.

use mm_bytes::{Bytes, Memory, put_decimal};
use mm_client::{Client, HeardSession, replies_in};
use mm_digest::hmac_sha256;
use std::alloc::Global;
use std::test::Fail;

/// The tag of all answers, under the key `hearings`; `examples/hearings` prints it.
const ANSWERS: &str = "03262cb065a341ddc0472039e5c50aa55320c8f8dc7387943aec7def3674af46";

const HEARINGS: u32 = 1000;

/// How many of them are of one client.
const OF_ONE: u32 = 25;

const WORDS: [&[u8]; 5] = [b"ok ", b"again ", b"no ", b"ok", b"oks "];

const OUTPUTS: [&[u8]; 5] = [b"", b"5", b"left 4", b"ok 3 x", b" again"];

/// Numbers by chance.
#[derive(Drop)]
struct Chance {
    seed: u64,
}

impl Chance {
    // One below this, which is small.
    fn below(&mut self, most: usize) -> usize {
        self.seed = self
            .seed
            .wrapping_mul(6364136223846793005)
            .wrapping_add(1442695040888963407);
        (self.seed >> 33) as usize % most.max(1)
    }

    // One of these texts.
    fn one_of<'a>(&mut self, texts: &[&'a [u8]]) -> &'a [u8] {
        let at = self.below(texts.len());
        match texts.get(at) {
            Some(text) => *text,
            None => &[],
        }
    }
}

// The lines of an output: replies behind this position, and others.
fn output_by(alloc: Global, chance: &mut Chance, base: u64) -> Result<Bytes, Memory> {
    let mut output = Bytes::new(alloc);
    for _ in 0..chance.below(5) {
        output.append(chance.one_of(&WORDS))?;
        put_decimal(&mut output, base.saturating_add(chance.below(14) as u64))?;
        output.push(b' ')?;
        output.append(chance.one_of(&OUTPUTS))?;
        output.push(b'\n')?;
    }
    Ok(output)
}

// What is heard of it: all, or so many bytes; and whether the program said that all went well.
fn heard_of(alloc: Global, chance: &mut Chance, output: &[u8]) -> Result<HeardSession, Memory> {
    let cut = chance.below(output.len().saturating_add(1));
    let count = if chance.below(2) == 1 {
        cut
    } else {
        output.len()
    };
    let is_well = chance.below(2) == 1;
    let bytes = output.get(..count).unwrap_or(&[]);
    let replies = replies_in(alloc, bytes)?;
    Ok(HeardSession::new(replies, is_well && bytes.len() == output.len()))
}

// The lines `w` with a number below 12.
fn wanted_lines(alloc: Global) -> Result<Vec<Bytes>, Memory> {
    let mut wanted = Vec::new(alloc);
    for number in 0..12u64 {
        let mut line = Bytes::copy_of(alloc, b"w")?;
        put_decimal(&mut line, number)?;
        wanted.push(line)?;
    }
    Ok(wanted)
}

// What the client remembers, and what he gives next.
fn put_answer(
    answers: &mut Bytes,
    client: &Client,
    base: u64,
    wanted: &[Bytes],
) -> Result<(), Memory> {
    let lines = client.lines_to_give(base, wanted);
    let replies = client.replies();
    let said = replies
        .last()
        .map_or(0, |reply| reply.output.as_slice().len());
    for number in [
        client.position(),
        u64::from(client.is_sure()),
        replies.len() as u64,
        said as u64,
        lines.len() as u64,
    ] {
        put_decimal(answers, number)?;
        answers.push(b' ')?;
    }
    if let Some(line) = lines.first() {
        answers.append(line.as_slice())?;
    }
    answers.push(b'\n')
}

// All answers, a line for each hearing.
fn all_answers(alloc: Global) -> Result<Bytes, Memory> {
    let wanted = wanted_lines(alloc)?;
    let mut chance = Chance { seed: 7 };
    let mut answers = Bytes::new(alloc);
    let mut base = 0;
    let mut client = Client::new(alloc, base);
    for number in 0..HEARINGS {
        if number % OF_ONE == 0 {
            base = chance.below(3) as u64;
            client = Client::new(alloc, base);
        }
        let output = output_by(alloc, &mut chance, base)?;
        let heard = heard_of(alloc, &mut chance, output.as_slice())?;
        client = client.memory_after(heard)?;
        put_answer(&mut answers, &client, base, wanted.as_slice())?;
    }
    Ok(answers)
}

#[test]
fn the_rule_is_that_of_the_client_in_examples(rt: HostRuntime) -> Result<(), Fail> {
    let answers = all_answers(rt.alloc())?;
    let tag = hmac_sha256(b"hearings", answers.as_slice());
    assert_eq!(rt; hex::encode(rt.alloc(), &tag.bytes)?.as_str(), ANSWERS);
    Ok(())
}
