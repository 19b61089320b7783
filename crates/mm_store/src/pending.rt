//! The record of a request that is pending: it is written before the request is asked.

ghost use Rattle.std.specs.Prelude.{◌≡◌, ◌≤◌, ◌+◌, ◌++◌, ◌↔◌, IsTrue, IfOk, OnOk, MatchOption, length};
ghost use Rattle.std.specs.Option.{option_map};
ghost use Rattle.sha2.specs.Sha256.{sha256};
ghost use Rattle.mm_base.specs.Input.{IsLineFront};
ghost use Rattle.mm_bytes.specs.Limits.{last_position, longest_request};
ghost use Rattle.mm_store.specs.PendingRecord.{IsPending, record_word, pending_front, pending_spelling, ReadsPendingRecord, HasOneReading};
ghost use Rattle.mm_store.specs.PendingRecord.{SpellsRecord, SpellsNoRecord, pending_of};

use mm_bytes::{
    Bytes, LAST_POSITION, LONGEST_REQUEST, Memory, bytes_of_u32, bytes_of_u64, split_u32, split_u64,
};
use sha2::{Digest as _, Sha256};
use std::alloc::Global;

/// A request of at most 4,096 bytes without LF, and the position from 1 to 2^48 that it is to take.
#[derive(Clone, Copy)]
pub struct PendingRequest<'a> {
    pub position: u64,
    pub request: &'a [u8],
}

/// The bytes of a pending record (48 and the request's). The position is from 1 to 2^48 + 1, of
/// which the last is no valid record's; the request has at most 4,096 bytes and no LF.
#[tactic(auto, unfolding(crate::specs::PendingRecord::pending_spelling))]
pub fn pending_bytes(alloc: Global, position: u64, request: &[u8]) -> Result<Bytes, Memory>
    requires least { 1 ≤ position }
    requires most { position ≤ last_position + 1 }
    requires line { IsLineFront longest_request request.now }
    ensures { IfOk result (λ bytes. bytes
        ≡ pending_spelling (record { position = position; request = request.now })) }
{
    let mut bytes = Bytes::with_capacity(alloc, 48 + request.len())?;
    put_front(&mut bytes, position, request)?;
    let digest = Sha256::digest(bytes.as_slice());
    bytes.append(&digest)?;
    Ok(bytes)
}

// Puts what is hashed at the end.
fn put_front(bytes: &mut Bytes, position: u64, request: &[u8]) -> Result<(), Memory>
    requires { length request.now ≤ longest_request }
    ensures { OnOk result (bytes.new
        ≡ bytes.old ++ pending_front (record { position = position; request = request.now })) }
{
    bytes.append(b"MMP1")?;
    bytes.append(&bytes_of_u64(position))?;
    bytes.append(&bytes_of_u32(request.len() as u32))?;
    bytes.append(request)?;
    Ok(())
}

/// The pending record that these bytes of a slot are. None exactly where they are no valid record
/// in that slot. Takes no memory.
#[tactic(auto, using(crate::proofs::PendingLaws::one_reading))]
pub fn read_pending(slot: u8, bytes: &[u8]) -> Option<PendingRequest<'_>>
    ensures reads { ReadsPendingRecord slot bytes.now (option_map pending_of result) }
    ensures one_reading { HasOneReading }
{
    let (front, digest) = bytes.split_last_chunk::<32>()?;
    let pending = front_of(front)?;
    if stands_in(&pending, slot) && is_digest_of(digest, front) {
        Some(pending)
    } else {
        None
    }
}

// The position and the request that these bytes are the front of.
fn front_of(front: &[u8]) -> Option<PendingRequest<'_>>
    ensures { MatchOption result (SpellsNoRecord front.now)
        (λ p. SpellsRecord front.now (pending_of p)) }
{
    let (word, rest) = front.split_first_chunk::<4>()?;
    let (position, rest) = split_u64(rest)?;
    let (length, request) = split_u32(rest)?;
    if begins_record(word) && request.len() == length as usize {
        Some(PendingRequest { position, request })
    } else {
        None
    }
}

// Whether this is the word that a record begins with.
fn begins_record(word: &[u8; 4]) -> bool
    ensures { IsTrue result ↔ (word.now ≡ record_word) }
{
    word == b"MMP1"
}

// Whether these 32 bytes are the SHA-256 of the others.
fn is_digest_of(digest: &[u8; 32], bytes: &[u8]) -> bool
    ensures { IsTrue result ↔ (digest.now ≡ sha256 bytes.now) }
{
    Sha256::digest(bytes) == *digest
}

// Whether the record may stand in this slot.
fn stands_in(pending: &PendingRequest<'_>, slot: u8) -> bool
    ensures { IsTrue result ↔ IsPending slot (pending_of pending.now) }
{
    let position = pending.position;
    (1..=LAST_POSITION).contains(&position)
        && is_line(pending.request)
        && u64::from(slot) == 2 + position % 2
}

// Whether a request has at most 4,096 bytes and no LF.
fn is_line(request: &[u8]) -> bool
    ensures { IsTrue result ↔ IsLineFront longest_request request.now }
{
    request.len() <= LONGEST_REQUEST && !request.contains(&b'\n')
}
