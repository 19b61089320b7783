//! The bytes that an event offers.

ghost use Rattle.std.specs.Prelude.{◌≡◌, ◌∷◌, ◌++◌, IfOk, slice_get, option_copied};
ghost use Rattle.std.specs.Option.{option_map};
ghost use Rattle.mm_outcome.specs.EventOffers.{offered_bytes, bytes_with_flipped_bit, bytes_in};

use mm_bytes::{Bytes, Memory};
use mm_schedule::Offer;
use std::alloc::Global;

/// Offered bytes: those of an issued snapshot or of the event, or a changed copy.
#[derive(Drop)]
pub enum OfferedBytes<'a> {
    Lent(&'a [u8]),
    Made(Bytes),
}

impl OfferedBytes<'_> {
    pub fn bytes(&self) -> &[u8]
        ensures { result.now ≡ bytes_in self.now }
    {
        match self {
            OfferedBytes::Lent(bytes) => bytes,
            OfferedBytes::Made(bytes) => bytes.as_slice(),
        }
    }
}

/// The bytes that are offered, by the issued snapshots. None exactly where the number isn't issued.
#[inline(always)]
pub fn offered<'a>(
    alloc: Global,
    issued: &'a [Bytes],
    offer: &'a Offer,
) -> Result<Option<OfferedBytes<'a>>, Memory>
    ensures { IfOk result (λ found. option_map bytes_in found
        ≡ offered_bytes issued.now offer.now) }
{
    match offer {
        Offer::Number(number) => Ok(lent(issued, *number as usize)),
        Offer::Last => Ok(lent(issued, issued.len().saturating_sub(1))),
        Offer::Flip { number, byte } => turned(alloc, issued, *number as usize, *byte),
        Offer::Raw(bytes) => Ok(Some(OfferedBytes::Lent(bytes.as_slice()))),
    }
}

// The issued snapshot with this number.
#[inline(always)]
fn issued_at(issued: &[Bytes], number: usize) -> Option<&[u8]>
    ensures { option_copied result ≡ slice_get issued.now number }
{
    match issued.get(number) {
        None => None,
        Some(snapshot) => Some(snapshot.as_slice()),
    }
}

#[inline(always)]
fn lent(issued: &[Bytes], number: usize) -> Option<OfferedBytes<'_>>
    ensures { option_map bytes_in result ≡ slice_get issued.now number }
{
    match issued_at(issued, number) {
        None => None,
        Some(snapshot) => Some(OfferedBytes::Lent(snapshot)),
    }
}

// The issued snapshot with this number, with the lowest bit of one byte turned.
fn turned(
    alloc: Global,
    issued: &[Bytes],
    number: usize,
    offset: u32,
) -> Result<Option<OfferedBytes<'static>>, Memory>
    ensures { IfOk result (λ found. option_map bytes_in found
        ≡ option_map (bytes_with_flipped_bit offset) (slice_get issued.now number)) }
{
    match issued_at(issued, number) {
        None => Ok(None),
        Some(snapshot) => {
            let copy = flip(alloc, snapshot, offset as usize)?;
            Ok(Some(OfferedBytes::Made(copy)))
        }
    }
}

// A copy with the lowest bit turned of the byte at this offset, modulo the number of bytes.
fn flip(alloc: Global, bytes: &[u8], offset: usize) -> Result<Bytes, Memory>
    ensures { IfOk result (λ copy. copy ≡ bytes_with_flipped_bit offset bytes.now) }
{
    if bytes.is_empty() {
        return Bytes::copy_of(alloc, bytes);
    }
    let at = offset % bytes.len();
    let front = &bytes[..at];
    let byte = bytes[at] ^ 1;
    let rest = &bytes[at + 1..];
    let copy = joined(alloc, front, byte, rest)?;
    Ok(copy)
}

// The front, the byte and the rest, one after another.
fn joined(alloc: Global, front: &[u8], byte: u8, rest: &[u8]) -> Result<Bytes, Memory>
    ensures { IfOk result (λ copy. copy ≡ front.now ++ (byte ∷ rest.now)) }
{
    let mut copy = Bytes::with_capacity(alloc, front.len() + 1 + rest.len())?;
    copy.append(front)?;
    copy.push(byte)?;
    copy.append(rest)?;
    Ok(copy)
}
