//! A receipt: 64 lower-case digits, a space and what was said.

ghost use Rattle.std.specs.Prelude.{◌≡◌, ◌≤◌, ◌<◌, ℕ, List, length, IfOk, option_map};
ghost use Rattle.std.specs.List.{list_all};
ghost use Rattle.hex.specs.Hex.{encode_lower};
ghost use Rattle.mm_bytes.specs.Limits.{longest_request};
ghost use Rattle.mm_receipted.specs.Receipts.{is_lower_digit, receipt_front, digits_of, receipt_of, receipt_parts, check_of_receipt};

use mm_bytes::{Bytes, Memory, bytes_of_u32, bytes_of_u64};
use mm_digest::{Digest, HmacKey};
use std::alloc::Global;
use thiserror::Error;

/// Why an output is no receipt.
#[derive(Clone, Copy, Debug, PartialEq, Eq, Error)]
pub enum NotReceipt {
    /// It doesn't begin with 64 lower-case hexadecimal digits and a space.
    #[error("the output has no tag in front")]
    Form,
    /// The digits aren't the tag.
    #[error("the output's tag is wrong")]
    Tag,
}

/// What stands in front of the request in the text under the tag: `MMR1`, the position and the
/// request's length.
#[tactic(auto, unfolding(crate::specs::Receipts::receipt_front))]
fn front(position: u64, size: u32) -> [u8; 16]
    ensures { result ≡ receipt_front position size }
{
    let [a, b, c, d, e, f, g, h] = bytes_of_u64(position);
    let [i, j, k, l] = bytes_of_u32(size);
    [b'M', b'M', b'R', b'1', a, b, c, d, e, f, g, h, i, j, k, l]
}

/// A tag in 64 lower-case digits.
fn digits_in(tag: &Digest) -> [u8; 64]
    ensures { result ≡ encode_lower tag.now.bytes }
{
    let mut digits = [0; 64];
    match hex::encode_to_slice(tag.bytes, &mut digits) {
        Ok(()) => digits,
        Err(_) => unreachable!(),
    }
}

/// The digits of a receipt.
#[tactic(auto, unfolding(crate::specs::Receipts::digits_of, crate::specs::Receipts::receipt_message))]
fn digits_for(key: &[u8; 32], position: u64, request: &[u8], said: &[u8]) -> [u8; 64]
    requires { length request.now ≤ longest_request }
    ensures { result ≡ digits_of key.now position request.now said.now }
{
    let front = front(position, request.len() as u32);
    digits_in(&HmacKey::new(key).tag_of_three(&front, request, said))
}

/// The receipt of what was said to the request at this position.
pub(crate) fn receipt(
    alloc: Global,
    key: &[u8; 32],
    position: u64,
    request: &[u8],
    said: &[u8],
) -> Result<Bytes, Memory>
    requires { length request.now ≤ longest_request }
    ensures { IfOk result (λ text. text ≡ receipt_of key.now position request.now said.now) }
{
    let mut text = Bytes::copy_of(alloc, &digits_for(key, position, request, said))?;
    text.push(b' ')?;
    text.append(said)?;
    Ok(text)
}

fn are_lower_digits(digits: &[u8]) -> bool
    ensures { result ≡ list_all is_lower_digit digits.now }
{
    digits
        .iter()
        .all(|digit| matches!(*digit, b'0'..=b'9' | b'a'..=b'f'))
}

/// The digits of an output, and what stands behind the space, where it has the form of a receipt.
fn read_parts(output: &[u8]) -> Option<(&[u8], &[u8])>
    ensures { option_map (λ (p : _). (p.0.now, p.1.now)) result ≡ receipt_parts output.now }
{
    if output.len() < 64 {
        return None;
    }
    let (digits, rest) = output.split_at(64);
    let (space, said) = rest.split_first()?;
    if *space == b' ' && are_lower_digits(digits) {
        Some((digits, said))
    } else {
        None
    }
}

/// Whether an output is the receipt, under a key of 32 bytes, of what was said to a request of at
/// most 4,096 bytes at this position. Takes no memory.
///
/// Form comes exactly where the output doesn't begin with 64 lower-case hexadecimal digits and a
/// space; Tag exactly where it does, and they aren't HMAC-SHA-256 of `MMR1`, the position (8
/// bytes), the request's length (4 bytes), the request and what stands behind the space.
pub fn verify(
    key: &[u8; 32],
    position: u64,
    request: &[u8],
    output: &[u8],
) -> Result<(), NotReceipt>
    requires { length request.now ≤ longest_request }
    ensures { result ≡ check_of_receipt key.now position request.now output.now }
{
    let Some((digits, said)) = read_parts(output) else {
        return Err(NotReceipt::Form);
    };
    if digits == digits_for(key, position, request, said).as_slice() {
        Ok(())
    } else {
        Err(NotReceipt::Tag)
    }
}
