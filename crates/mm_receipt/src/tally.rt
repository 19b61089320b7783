//! What was found so far.

ghost use Rattle.std.specs.Prelude.{◌≡◌, ◌≤◌, ◌<◌, ◌+◌, ℕ, List, false, length, IfOk, IfSome, OnOk, option_map};
ghost use Rattle.std.specs.List.{position};
ghost use Rattle.mm_bytes.specs.Limits.{longest_line, longest_request};
ghost use Rattle.mm_module.specs.Meaning.{is_space};
ghost use Rattle.mm_receipt.specs.ReceiptCheck.{pair_at, verdict_by_pair, most_pairs, most_read};

use crate::pair::{AskedRequest, GoodPair, PairVerdict};
use crate::text::text_of;
use mm_bytes::{Bytes, LAST_POSITION, LONGEST_REQUEST, Memory, read_decimal};
use mm_play::{LineRefusal, ReplyFault};
use mm_receipted::{NotReceipt, verify};
use std::alloc::Global;
use std::collections::BTreeMap;

/// The most pairs.
const MOST_PAIRS: u32 = 20_000;

/// The most bytes of lines, each without its LF.
const MOST_READ: u64 = 268_435_456;

/// The good pairs by their positions, and what counts against the limits.
#[derive(Drop)]
pub struct Tally {
    key: [u8; 32],
    known: BTreeMap<u64, GoodPair>,
    /// The good pairs, those that came again counted again.
    good: u32,
    /// The pairs answered.
    pairs: u32,
    /// The bytes of their lines.
    read: u64,
    ghost few: { pairs ≤ most_pairs },
    ghost right: { good ≤ pairs },
    ghost short: { read ≤ most_read },
}

/// Where the first space is.
fn space_in(line: &[u8]) -> Option<usize>
    ensures { result ≡ position is_space line.now }
{
    line.iter().position(|byte| *byte == b' ')
}

impl Tally {
    ghost use Rattle.mm_receipt.specs.ReceiptCheck.{is_too_much, first_tally, first_answer, pair_verdict, tally_with_pair, tally_with_known, tally_after_pair, second_answer};
    ghost use Rattle.mm_receipt.specs.Reports.{tally_of, TakesFirst};
    ghost use Rattle.mm_play.specs.Headline.{GivesReply};

    /// Nothing was found yet. Takes no memory.
    pub fn new(alloc: Global, key: &[u8; 32]) -> Tally
        ensures { tally_of result ≡ first_tally key.now }
    {
        Tally {
            key: *key,
            known: BTreeMap::new(alloc),
            good: 0,
            pairs: 0,
            read: 0,
        }
    }

    /// The counts of good pairs and of pairs.
    pub fn counts(&self) -> (u32, u32)
        ensures { result ≡ (self.now.good, self.now.pairs) }
    {
        (self.good, self.pairs)
    }

    // Whether a pair more would be too many, or a line more too many bytes.
    fn is_full(&self, line: &[u8]) -> bool
        requires { length line.now ≤ longest_line }
        ensures { result ≡ is_too_much (tally_of self.now) line.now }
    {
        self.pairs >= MOST_PAIRS || self.read + line.len() as u64 > MOST_READ
    }

    /// Takes the first line of a pair.
    pub fn first(&mut self, alloc: Global, line: &[u8]) -> Result<AskedRequest, ReplyFault>
        requires { length line.now ≤ longest_line }
        ensures first { TakesFirst (first_answer (tally_of self.old) line.now) (tally_of self.new)
            result }
        ensures short { IfOk result (λ asked. length asked.request ≤ longest_request) }
    {
        let (position, request) = match read_asked(line) {
            Some(parts) => parts,
            None => return Err(ReplyFault::Refused(LineRefusal::Bad)),
        };
        if self.is_full(line) {
            return Err(ReplyFault::Refused(LineRefusal::Much));
        }
        match Bytes::copy_of(alloc, request) {
            Ok(request) => {
                self.read += line.len() as u64;
                Ok(AskedRequest { position, request })
            }
            Err(_) => Err(ReplyFault::Memory),
        }
    }

    // What a pair is answered.
    fn verdict(&self, asked: &AskedRequest, output: &[u8]) -> PairVerdict
        requires { length asked.now.request ≤ longest_request }
        ensures { result ≡ pair_verdict (tally_of self.now) asked.now output.now }
    {
        match verify(&self.key, asked.position, asked.request.as_slice(), output) {
            Ok(()) => {}
            Err(NotReceipt::Form) => return PairVerdict::NoForm,
            Err(NotReceipt::Tag) => return PairVerdict::NoTag,
        }
        match self.known.get(&asked.position) {
            None => PairVerdict::Good,
            Some(pair) => compared(pair, asked.request.as_slice(), output),
        }
    }

    // Counts a pair and its second line.
    fn count(&mut self, line: &[u8])
        requires line { length line.now ≤ longest_line }
        requires room { is_too_much (tally_of self.old) line.now ≡ false }
        ensures { tally_of self.new ≡ tally_with_pair (tally_of self.old) line.now }
    {
        self.pairs += 1;
        self.read += line.len() as u64;
    }

    // Remembers a good pair.
    fn remember(&mut self, alloc: Global, asked: AskedRequest, output: &[u8]) -> Result<(), Memory>
        ensures { OnOk result (tally_of self.new ≡ tally_with_known (tally_of self.old)
            asked output.now) }
    {
        let output = Bytes::copy_of(alloc, output)?;
        let AskedRequest { position, request } = asked;
        match self.known.insert(position, GoodPair { request, output }) {
            Ok(_) => Ok(()),
            Err(_) => Err(Memory),
        }
    }

    // Counts a pair with this verdict, and remembers it where it is good.
    fn settle(
        &mut self,
        alloc: Global,
        asked: AskedRequest,
        output: &[u8],
        verdict: PairVerdict,
    ) -> Result<(), Memory>
        requires line { length output.now ≤ longest_line }
        requires room { is_too_much (tally_of self.old) output.now ≡ false }
        ensures { OnOk result (tally_of self.new
            ≡ tally_after_pair (tally_of self.old) asked output.now verdict) }
    {
        self.count(output);
        match verdict {
            PairVerdict::Good => {
                self.remember(alloc, asked, output)?;
                self.good += 1;
                Ok(())
            }
            _ => Ok(()),
        }
    }

    /// Answers a pair by its second line.
    pub fn second(
        &mut self,
        alloc: Global,
        asked: AskedRequest,
        line: &[u8],
    ) -> Result<Bytes, ReplyFault>
        requires line { length line.now ≤ longest_line }
        requires short { length asked.request ≤ longest_request }
        ensures { GivesReply (second_answer (tally_of self.old) asked line.now) (tally_of self.new)
            result }
    {
        if self.is_full(line) {
            return Err(ReplyFault::Refused(LineRefusal::Much));
        }
        let verdict = self.verdict(&asked, line);
        let text = match text_of(alloc, asked.position, verdict) {
            Ok(text) => text,
            Err(_) => return Err(ReplyFault::Memory),
        };
        match self.settle(alloc, asked, line, verdict) {
            Ok(()) => Ok(text),
            Err(_) => Err(ReplyFault::Memory),
        }
    }
}

/// The position and the request of the first line of a pair.
fn read_asked(line: &[u8]) -> Option<(u64, &[u8])>
    ensures asked { option_map (λ (p : _). record { position = p.0; request = p.1.now }) result
        ≡ pair_at line.now }
    ensures short { IfSome result (λ p. length p.1.now ≤ longest_request) }
{
    let at = space_in(line)?;
    let position = read_decimal(&line[..at])?;
    let request = &line[at + 1..];
    if 1 <= position && position <= LAST_POSITION && request.len() <= LONGEST_REQUEST {
        Some((position, request))
    } else {
        None
    }
}

/// What a pair is answered whose position is known.
fn compared(pair: &GoodPair, request: &[u8], output: &[u8]) -> PairVerdict
    ensures { result ≡ verdict_by_pair pair.now request.now output.now }
{
    if request == pair.request.as_slice() && output == pair.output.as_slice() {
        PairVerdict::Good
    } else {
        PairVerdict::Clash
    }
}
