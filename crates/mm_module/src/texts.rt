//! Pieces of states, requests and outputs that modules share.

ghost use Rattle.std.specs.Prelude.{◌≡◌, ◌++◌, length, IfOk};
ghost use Rattle.std.specs.Fmt.{decimal};
ghost use Rattle.std.specs.List.{list_all};
ghost use Rattle.mm_module.specs.Batch.{number_of_eight_bytes};
ghost use Rattle.mm_module.specs.Meaning.{is_visible};

use mm_bytes::{Bytes, Memory, put_decimal};
use std::alloc::Global;

/// The number in 8 bytes, the greatest first.
#[tactic(auto, unfolding(crate::specs::Batch::number_of_eight_bytes))]
pub fn u64_of_bytes(bytes: &[u8]) -> u64
    requires { length bytes.now ≡ 8 }
    ensures { result ≡ number_of_eight_bytes bytes.now }
{
    let mut number = [0; 8];
    number.copy_from_slice(bytes);
    u64::from_be_bytes(number)
}

/// Whether each byte is visible: from 0x21 to 0x7e.
pub fn are_visible(bytes: &[u8]) -> bool
    ensures { result ≡ list_all is_visible bytes.now }
{
    bytes.iter().all(|byte| 33 <= *byte && *byte <= 126)
}

/// A text with a number in decimal digits behind it.
pub fn text_and_number(alloc: Global, text: &[u8], number: u64) -> Result<Bytes, Memory>
    ensures { IfOk result (λ whole. whole ≡ text.now ++ decimal number) }
{
    let mut whole = Bytes::copy_of(alloc, text)?;
    put_decimal(&mut whole, number)?;
    Ok(whole)
}
