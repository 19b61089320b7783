//! Digests that are remembered, so that a message that came before isn't hashed again.

ghost use Rattle.std.specs.Prelude.{◌≡◌, ◌∷◌, ◌++◌, true, false, IfOk, IfSome};
ghost use Rattle.std.specs.List.{All};
ghost use Rattle.mm_digest.specs.Messages.{anchored_digest_of, extended_digest_of};
ghost use Rattle.mm_module.specs.Batches.{batch_of};
ghost use Rattle.mm_model.specs.Chains.{guard, guard_message};
ghost use Rattle.mm_history.specs.Naming.{IsKnownPair, pair_digest};

use crate::message::Message;
use crate::messages::guard_message;
use mm_bytes::{Bytes, Memory};
use mm_digest::{Digest, Variant, anchored, extended, zero};
use mm_model::guard;
use mm_module::Batch;
use std::alloc::Global;
use std::marker::Model;

/// How many pairs are remembered.
const MOST_PAIRS: usize = 4096;

/// Two digests that were hashed together, and what that gave.
#[derive(Clone, Copy)]
struct KnownPair {
    /// Whether they close a segment: an anchor and the register's value. Else they are a register's
    /// value and one that extends it.
    closes: bool,
    first: Digest,
    second: Digest,
    digest: Digest,
}

/// Digests of messages that came before, so that these aren't hashed again: of two digests that
/// were hashed together, each pair at the place of a table that it chooses, and of the last batch.
/// They are what hashing gives, so contracts see nothing of them.
#[derive(Drop)]
pub struct KnownDigests {
    alloc: Global,
    pairs: Vec<KnownPair>,
    guard: Message,
}

impl Model for KnownDigests {
    ghost use Rattle.std.specs.List.{All};
    ghost use Rattle.mm_history.specs.Naming.{IsKnownPair};

    ghost Value = { Unit {0} };

    ghost view = { λ it. tt };

    ghost invariant = { λ it. All IsKnownPair it.pairs.items };
}

// The pair of these digests, hashed.
fn hashed_pair(closes: bool, first: &Digest, second: &Digest) -> KnownPair
    ensures pair { IsKnownPair result }
    ensures digest { result.digest.bytes ≡ pair_digest closes first.now.bytes second.now.bytes }
{
    let digest = if closes {
        anchored(first, second)
    } else {
        extended(first, second)
    };
    KnownPair {
        closes,
        first: *first,
        second: *second,
        digest,
    }
}

// As many pairs as are remembered, of zeros.
fn first_pairs(alloc: Global) -> Result<Vec<KnownPair>, Memory>
    ensures { IfOk result (λ pairs. All IsKnownPair pairs.items) }
{
    let pair = hashed_pair(false, &zero(), &zero());
    let mut pairs = Vec::new(alloc);
    'pairs: for _ in 0..MOST_PAIRS {
        pairs.push(pair)?;
    }
    Ok(pairs)
}

// The place in the table that two digests choose: both are as good as random.
fn place_of(first: &Digest, second: &Digest) -> usize {
    let high = first.bytes[0] ^ second.bytes[0];
    let low = first.bytes[1] ^ second.bytes[1];
    u16::from_be_bytes([high, low]) as usize % MOST_PAIRS
}

// Whether the pair is of these digests.
fn is_pair(pair: &KnownPair, closes: bool, first: &Digest, second: &Digest) -> bool
    requires { IsKnownPair pair.now }
    ensures { result ≡ true
        → pair.now.digest.bytes ≡ pair_digest closes first.now.bytes second.now.bytes }
{
    pair.closes == closes && pair.first == *first && pair.second == *second
}

// What is remembered of these digests at a place of the table.
fn digest_at(
    pairs: &[KnownPair],
    at: usize,
    closes: bool,
    first: &Digest,
    second: &Digest,
) -> Option<Digest>
    requires { All IsKnownPair pairs.now }
    ensures { IfSome result (λ digest.
        digest.bytes ≡ pair_digest closes first.now.bytes second.now.bytes) }
{
    match pairs.get(at) {
        Some(pair) if is_pair(pair, closes, first, second) => Some(pair.digest),
        _ => None,
    }
}

// Puts a pair at a place of the table, if it has that place.
fn put(pairs: &mut Vec<KnownPair>, at: usize, pair: KnownPair)
    requires pair { IsKnownPair pair }
    requires pairs { All IsKnownPair pairs.old.items }
    ensures { All IsKnownPair pairs.new.items }
{
    if at < pairs.len() {
        pairs[at] = pair;
    }
}

// The digest of two, remembered or hashed.
fn digest_of(pairs: &mut Vec<KnownPair>, closes: bool, first: &Digest, second: &Digest) -> Digest
    requires { All IsKnownPair pairs.old.items }
    ensures digest { result.bytes ≡ pair_digest closes first.now.bytes second.now.bytes }
    ensures pairs { All IsKnownPair pairs.new.items }
{
    let at = place_of(first, second);
    if let Some(digest) = digest_at(pairs.as_slice(), at, closes, first, second) {
        return digest;
    }
    let pair = hashed_pair(closes, first, second);
    put(pairs, at, pair);
    pair.digest
}

// Whether the bytes are two byte lists, one after the other.
fn is_joined(bytes: &[u8], first: &[u8], second: &[u8]) -> bool
    ensures { result ≡ true → bytes.now ≡ first.now ++ second.now }
{
    match bytes.strip_prefix(first) {
        Some(rest) => rest == second,
        None => false,
    }
}

// Whether the bytes are a byte that tells the kind, and two byte lists.
fn is_tagged(bytes: &[u8], tag: u8, first: &[u8], second: &[u8]) -> bool
    ensures { result ≡ true → bytes.now ≡ tag ∷ (first.now ++ second.now) }
{
    match bytes {
        [kind, rest @ ..] => *kind == tag && is_joined(rest, first, second),
        [] => false,
    }
}

// Whether the bytes are the message that a batch makes under the barrier.
fn is_guard_message(bytes: &[u8], barrier: &[u8; 32], batch: Batch<'_>) -> bool
    ensures { result ≡ true → bytes.now ≡ guard_message barrier.now (batch_of batch.entry) }
{
    match batch {
        Batch::One(request) => is_tagged(bytes, 2, barrier, request),
        Batch::Many(text) => is_tagged(bytes, 5, barrier, text),
    }
}

impl KnownDigests {
    /// None are known yet. In Basic nothing is remembered of two digests, as none are hashed
    /// together there.
    pub fn new(alloc: Global, variant: Variant) -> Result<KnownDigests, Memory> {
        let pairs = match variant {
            Variant::Basic => Vec::new(alloc),
            Variant::Opt => first_pairs(alloc)?,
        };
        Ok(KnownDigests {
            alloc,
            pairs,
            guard: Message::hashed(Bytes::new(alloc)),
        })
    }

    /// What a register holds after it took in a value.
    pub fn extended(&mut self, register: &Digest, value: &Digest) -> Digest
        ensures { result.bytes ≡ extended_digest_of register.now.bytes value.now.bytes }
    {
        digest_of(&mut self.pairs, false, register, value)
    }

    /// The anchor after a segment was closed, by the one before and the register's value.
    pub fn anchored(&mut self, anchor: &Digest, register: &Digest) -> Digest
        ensures { result.bytes ≡ anchored_digest_of anchor.now.bytes register.now.bytes }
    {
        digest_of(&mut self.pairs, true, anchor, register)
    }

    /// The value by which a batch extends the register.
    #[tactic(auto, unfolding(mm_model::specs::Chains::guard))]
    pub fn guard(&mut self, barrier: &[u8; 32], batch: Batch<'_>) -> Digest
        ensures { result.bytes ≡ guard barrier.now (batch_of batch.entry) }
    {
        if is_guard_message(self.guard.as_slice(), barrier, batch) {
            return *self.guard.digest();
        }
        match guard_message(self.alloc, barrier, batch) {
            Err(_) => guard(barrier, batch),
            Ok(text) => {
                self.guard = Message::hashed(text);
                *self.guard.digest()
            }
        }
    }
}
