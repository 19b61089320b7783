//! The digests of messages by their numbers.

ghost use Rattle.std.specs.Prelude.{◌≡◌, ◌+◌, ◌-◌, ◌<◌, ◌≤◌, ◌^◌, [], ℕ, List, Option, Some, IfOk, OnOk, if◌then◌else◌};
ghost use Rattle.std.specs.BTreeMap.{get};
ghost use Rattle.std.specs.Cmp.Lexicographic.{slice_cmp};
ghost use Rattle.std.specs.Option.{unwrap_or};
ghost use Rattle.std.specs.Ordering.{nat_cmp, is_eq};
ghost use Rattle.mm_numbering.specs.Listing.{first_number_of, is_zero, lower_pair, pair_of, number_at, AddsDigest, AddsIfFirst};
ghost use Rattle.mm_numbering.specs.Listing.{CountsDigests};

use mm_bytes::Memory;
use mm_digest::{Digest, zero};
use std::alloc::Global;
use std::collections::BTreeMap;
use std::collections::btree_map::Entry;

/// The first number that is found, once this one is found or not.
pub fn first_then(first: Option<u32>, is_found: bool, number: u32) -> Option<u32>
    ensures { result ≡ first_number_of first is_found number }
{
    match first {
        Some(first) => Some(first),
        None => if is_found { Some(number) } else { None },
    }
}

/// Two numbers of messages.
#[derive(Clone, Copy)]
pub struct NumberPair {
    pub first: u32,
    pub second: u32,
}

/// The digests listed so far, by the number of the first message of each; how many messages there
/// are; the first two that share a digest; and the first whose digest is zero.
#[derive(Drop)]
pub struct DigestIndex {
    firsts: BTreeMap<[u8; 32], u32>,
    pub count: u32,
    pub shared: Option<NumberPair>,
    pub zero: Option<u32>,
}

/// The pair after a message of this number, where the first one of its digest has that number.
fn lower(shared: Option<NumberPair>, first: u32, second: u32) -> Option<NumberPair>
    ensures { pair_of result ≡ lower_pair (pair_of shared) first second }
{
    match shared {
        Some(pair) => if first < pair.first {
            Some(NumberPair { first, second })
        } else {
            Some(pair)
        },
        None => Some(NumberPair { first, second }),
    }
}

fn is_zero(digest: &Digest) -> bool
    ensures { result ≡ is_zero digest.now.bytes }
{
    *digest == zero()
}

/// The number at a digest. Where there is none, this one is noted.
fn first_or_noted(
    firsts: &mut BTreeMap<[u8; 32], u32>,
    digest: [u8; 32],
    number: u32,
) -> Result<Option<u32>, Memory>
    ensures first { IfOk result (λ first. first ≡ get (slice_cmp nat_cmp) firsts.old digest) }
    ensures noted { IfOk result (λ first. (d : List ℕ) → get (slice_cmp nat_cmp) firsts.new d
        ≡ (if is_eq (slice_cmp nat_cmp digest d) then Some (unwrap_or first number)
        else get (slice_cmp nat_cmp) firsts.old d)) }
{
    match firsts.entry(digest) {
        Err(_) => Err(Memory),
        Ok(Entry::Occupied(entry)) => Ok(Some(*entry.get())),
        Ok(Entry::Vacant(entry)) => {
            entry.insert(number);
            Ok(None)
        }
    }
}

impl DigestIndex {
    /// None so far. Takes no memory.
    pub fn new(alloc: Global) -> DigestIndex
        ensures { CountsDigests [] result }
    {
        DigestIndex {
            firsts: BTreeMap::new(alloc),
            count: 0,
            shared: None,
            zero: None,
        }
    }

    /// One more message, if it is the first of its digest: None. Otherwise the number of that first
    /// one, and nothing is counted. It seeks the digest once.
    pub fn add_if_first(&mut self, digest: &Digest) -> Result<Option<u32>, Memory>
        requires { self.old.count < 2 ^ 32 - 1 }
        ensures rises { self.new.count ≤ self.old.count + 1 }
        ensures adds { IfOk result (λ first.
            AddsIfFirst digest.now.bytes first self.old self.new) }
    {
        let first = first_or_noted(&mut self.firsts, digest.bytes, self.count + 1)?;
        if first.is_none() {
            self.count_one(digest);
        }
        Ok(first)
    }

    /// One more message, of a digest whose first message has this number.
    pub fn add_shared(&mut self, digest: &Digest, first: u32)
        requires { self.old.count < 2 ^ 32 - 1 }
        ensures adds { AddsDigest digest.now.bytes self.old self.new }
        ensures shared { pair_of self.new.shared
            ≡ lower_pair (pair_of self.old.shared) first (self.old.count + 1) }
        ensures same { self.new.firsts ≡ self.old.firsts }
    {
        self.shared = lower(self.shared, first, self.count + 1);
        self.count_one(digest);
    }

    // Counts one more message, with this digest.
    fn count_one(&mut self, digest: &Digest)
        requires { self.old.count < 2 ^ 32 - 1 }
        ensures adds { AddsDigest digest.now.bytes self.old self.new }
        ensures shared { self.new.shared ≡ self.old.shared }
        ensures same { self.new.firsts ≡ self.old.firsts }
    {
        self.count += 1;
        self.zero = first_then(self.zero, is_zero(digest), self.count);
    }
}
