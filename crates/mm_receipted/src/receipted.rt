//! A module whose outputs are receipts.

ghost use Rattle.std.specs.Prelude.{◌≡◌, ◌+◌, ◌++◌, ◌<◌, ◌≤◌, None, Some, IfOk, OnOk, IsTrue, length};
ghost use Rattle.mm_bytes.specs.Limits.{last_position};
ghost use Rattle.mm_module.specs.Meaning.{IsLine, words_of};
ghost use Rattle.mm_receipted.specs.Table.{key_of_words, keyed_text, outcome_without_key, receipted_module, outcome_under_key, key_bytes, key_in, is_keyed, is_front, receipt_state_after, receipt_state_in, spelling_of, outcome_of};
ghost use Rattle.mm_receipted.specs.ReceiptListing.{kept_state_of};
ghost use Rattle.mm_receipted.specs.ReceiptedLaws.{receipted_is_lawful};

use crate::receipt::receipt;
use mm_bytes::{Bytes, LAST_POSITION, Memory, bytes_of_u64};
use mm_module::{Module, Short, Stepped, Words, u64_of_bytes, value_in};
use std::alloc::Global;

/// A module round another, which counts the requests and says each output of the other with a
/// receipt under a key.
///
/// A state is the count (8 bytes, the greatest first, at most 2^48), a byte 00 and 32 zero bytes,
/// or 01 and a key (32 bytes), and then the other's state. The id is the other's and 64.
///
/// Before a key is set, `key HEX`, of 64 hexadecimal digits, sets it and says `keyed`, and any
/// other request says `unkeyed`. From then on each request goes to the other module, and the output
/// is the receipt. Once the count is 2^48 every request says `full`.
#[derive(Clone, Copy, PartialEq, Eq)]
pub struct Receipted<M: Short> {
    pub inner: M,
}

/// What a state keeps.
#[derive(Clone, Copy)]
struct KeptState<'a> {
    count: u64,
    key: Option<[u8; 32]>,
    inner: &'a [u8],
}

/// The key that a request brings.
fn key_of(request: &[u8]) -> Option<[u8; 32]>
    ensures { result ≡ key_of_words (words_of request.now) }
{
    match Words::of(request) {
        Words::Two(word, digits) if word == b"key".as_slice() => value_in(digits),
        _ => None,
    }
}

/// Whether a byte and 32 bytes behind it are no key or a key.
fn key_is_formed(bytes: &[u8]) -> bool
    requires { 33 ≤ length bytes.now }
    ensures { result ≡ is_keyed bytes.now }
{
    let (front, _) = bytes[1..].split_at(32);
    bytes[0] == 1 || (bytes[0] == 0 && front == [0; 32].as_slice())
}

/// Whether these bytes begin with a count and a key.
fn front_is_formed(bytes: &[u8]) -> bool
    ensures { result ≡ is_front bytes.now }
{
    if bytes.len() < 41 {
        return false;
    }
    let (count, rest) = bytes.split_at(8);
    u64_of_bytes(count) <= LAST_POSITION && key_is_formed(rest)
}

/// The key of a state, where its byte says that there is one.
fn read_key(form: u8, bytes: &[u8]) -> Option<[u8; 32]>
    requires { length bytes.now ≡ 32 }
    ensures { result ≡ key_in form bytes.now }
{
    if form != 1 {
        return None;
    }
    let mut key = [0; 32];
    key.copy_from_slice(bytes);
    Some(key)
}

/// What is kept behind the count: a byte and a key, and the state inside.
fn kept_behind(count: u64, bytes: &[u8]) -> KeptState<'_>
    requires { 33 ≤ length bytes.now }
    ensures { kept_state_of result ≡ receipt_state_after count bytes.now }
{
    let Some((form, rest)) = bytes.split_first() else {
        unreachable!()
    };
    let (key, inner) = rest.split_at(32);
    KeptState {
        count,
        key: read_key(*form, key),
        inner,
    }
}

/// What a state keeps.
#[tactic(auto, unfolding(crate::specs::Table::receipt_state_in))]
fn read_kept(bytes: &[u8]) -> KeptState<'_>
    requires { 41 ≤ length bytes.now }
    ensures { kept_state_of result ≡ receipt_state_in bytes.now }
{
    let (count, rest) = bytes.split_at(8);
    kept_behind(u64_of_bytes(count), rest)
}

/// Puts a byte and a key at the end.
fn put_key(bytes: &mut Bytes, key: Option<[u8; 32]>) -> Result<(), Memory>
    ensures { OnOk result (bytes.new ≡ bytes.old ++ key_bytes key) }
{
    match key {
        None => bytes.append(&[0; 33]),
        Some(key) => {
            bytes.push(1)?;
            bytes.append(&key)
        }
    }
}

/// The bytes of a state.
fn spelled(alloc: Global, count: u64, key: Option<[u8; 32]>, inner: &[u8]) -> Result<Bytes, Memory>
    ensures { IfOk result
        (λ bytes. bytes ≡ spelling_of (record { count = count; key = key; inner = inner.now })) }
{
    let mut bytes = Bytes::copy_of(alloc, &bytes_of_u64(count))?;
    put_key(&mut bytes, key)?;
    bytes.append(inner)?;
    Ok(bytes)
}

/// What is said to a request that brings this key.
fn text_of_key(alloc: Global, key: Option<[u8; 32]>) -> Result<Bytes, Memory>
    ensures { IfOk result (λ text. text ≡ keyed_text key) }
{
    match key {
        None => Bytes::copy_of(alloc, b"unkeyed"),
        Some(_) => Bytes::copy_of(alloc, b"keyed"),
    }
}

/// A request before a key is set.
fn step_unkeyed(alloc: Global, kept: KeptState<'_>, request: &[u8]) -> Result<Stepped, Memory>
    requires { kept.count < last_position }
    ensures state { IfOk result (λ stepped. stepped.state
        ≡ spelling_of (outcome_without_key (kept_state_of kept.entry)
        (key_of_words (words_of request.now))).0) }
    ensures output { IfOk result (λ stepped. stepped.output
        ≡ (outcome_without_key (kept_state_of kept.entry)
        (key_of_words (words_of request.now))).1) }
{
    let key = key_of(request);
    Ok(Stepped {
        state: spelled(alloc, kept.count + 1, key, kept.inner)?,
        output: text_of_key(alloc, key)?,
    })
}

impl<M: Short> Receipted<M> {
    /// A request under a key.
    fn step_keyed(
        &self,
        alloc: Global,
        kept: KeptState<'_>,
        key: &[u8; 32],
        request: &[u8],
    ) -> Result<Stepped, Memory>
        requires spelled { IsTrue ((M.meaning self.now.inner).is_spelled kept.inner.now) }
        requires line { IsLine request.now }
        requires room { kept.count < last_position }
        ensures state { IfOk result (λ stepped. stepped.state
            ≡ spelling_of
            (outcome_under_key (M.meaning self.now.inner) (kept_state_of kept.entry)
            request.now key.now).0) }
        ensures output { IfOk result (λ stepped. stepped.output
            ≡ (outcome_under_key (M.meaning self.now.inner) (kept_state_of kept.entry)
            request.now key.now).1) }
    {
        let position = kept.count + 1;
        let stepped = self.inner.step(alloc, kept.inner, request)?;
        let output = receipt(alloc, key, position, request, stepped.output.as_slice())?;
        let state = spelled(alloc, position, Some(*key), stepped.state.as_slice())?;
        Ok(Stepped { state, output })
    }
}

impl<M: Short> Module for Receipted<M> {
    ghost meaning = { λ it. receipted_module (M.meaning it.inner) };

    ghost is_lawful = { λ it. receipted_is_lawful (M.meaning it.inner) (M.is_lawful it.inner)
        (M.is_short it.inner) };

    fn id(&self) -> u8 {
        self.inner.id().wrapping_add(64)
    }

    fn first_state(&self, alloc: Global) -> Result<Bytes, Memory> {
        let inner = self.inner.first_state(alloc)?;
        spelled(alloc, 0, None, inner.as_slice())
    }

    fn state_is_spelled(&self, state: &[u8]) -> bool {
        front_is_formed(state) && self.inner.state_is_spelled(read_kept(state).inner)
    }

    fn step(&self, alloc: Global, state: &[u8], request: &[u8]) -> Result<Stepped, Memory> {
        let kept = read_kept(state);
        if kept.count == LAST_POSITION {
            return Ok(Stepped {
                state: spelled(alloc, kept.count, kept.key, kept.inner)?,
                output: Bytes::copy_of(alloc, b"full")?,
            });
        }
        match kept.key {
            None => step_unkeyed(alloc, kept, request),
            Some(key) => self.step_keyed(alloc, kept, &key, request),
        }
    }
}
