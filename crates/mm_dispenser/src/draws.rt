//! The words of a seed.

ghost use Rattle.std.specs.Prelude.{◌≡◌, ◌+◌, ◌≤◌, ◌++◌, IfOk, OnOk};
ghost use Rattle.std.specs.Int.{w32, to_be_bytes};
ghost use Rattle.hex.specs.Hex.{encode_lower};
ghost use Rattle.mm_bytes.specs.Limits.{last_position};
ghost use Rattle.mm_dispenser.specs.Draws.{word_text, text_of_draw};

use mm_bytes::{Bytes, Memory, put_decimal};
use rand_chacha::ChaCha20Rng;
use rand_core::SeedableRng;
use rand_core::utils::NextWord;
use std::alloc::Global;

/// A word in eight lower-case hexadecimal digits.
fn digits_of(word: u32) -> [u8; 8]
    ensures { result ≡ encode_lower (to_be_bytes w32 word) }
{
    let mut digits = [0; 8];
    match hex::encode_to_slice(word.to_be_bytes(), &mut digits) {
        Ok(()) => digits,
        Err(_) => unreachable!(),
    }
}

/// Puts a space and a word at the end.
#[tactic(auto, unfolding(crate::specs::Draws::word_text))]
fn put_word(text: &mut Bytes, word: u32) -> Result<(), Memory>
    ensures { OnOk result (text.new ≡ text.old ++ word_text word) }
{
    text.push(b' ')?;
    text.append(&digits_of(word))?;
    Ok(())
}

/// The place, and the words of the seed from there on, each after a space.
#[tactic(auto, unfolding(crate::specs::Draws::word_of))]
pub fn draw(alloc: Global, seed: &[u8; 32], place: u64, count: u8) -> Result<Bytes, Memory>
    requires { place + count ≤ last_position }
    ensures { IfOk result (λ text. text ≡ text_of_draw seed.now place count) }
{
    let mut words = ChaCha20Rng::from_seed(*seed);
    words.set_word_pos(u128::from(place));
    let mut text = Bytes::new(alloc);
    put_decimal(&mut text, place)?;
    'words: for _drawn in 0..count {
        put_word(&mut text, words.next_word())?;
    }
    Ok(text)
}
