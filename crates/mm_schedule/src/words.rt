//! The words of a line, which single spaces part.

ghost use Rattle.std.specs.Prelude.{◌≡◌, option_copied, is_some};
ghost use Rattle.std.specs.List.{list_all};
ghost use Rattle.std.specs.Option.{option_map};
ghost use Rattle.std.specs.Str.{bytes_eq};
ghost use Rattle.hex.specs.Hex.{is_hex_digit};
ghost use Rattle.mm_module.specs.Meaning.{value_at};
ghost use Rattle.mm_schedule.specs.Headers.{rest_after_prefix, bytes_at, parts_in_place, number_at, step_at, word_at};

use mm_bytes::read_decimal;
use mm_digest::Digest;
use mm_module::space_in;

/// The greatest number of a schedule.
const MOST: u64 = 999_999_999;

/// Whether the bytes are this text.
pub fn is_text(bytes: &[u8], text: &[u8]) -> bool
    ensures { result ≡ bytes_eq bytes.now text.now }
{
    bytes == text
}

/// What follows a prefix.
#[tactic(auto, unfolding(crate::specs::Headers::rest_after_prefix))]
pub fn after<'a>(prefix: &[u8], line: &'a [u8]) -> Option<&'a [u8]>
    ensures { option_copied result ≡ rest_after_prefix prefix.now line.now }
{
    line.strip_prefix(prefix)
}

/// The first word, and what follows the space behind it.
#[tactic(auto, unfolding(crate::specs::Headers::word_at))]
pub fn word_in(line: &[u8]) -> Option<(&[u8], &[u8])>
    ensures { option_map parts_in_place result ≡ word_at line.now }
{
    let Some(at) = space_in(line) else {
        return None;
    };
    Some((&line[..at], &line[at + 1..]))
}

/// A step's number, one digit from 1 to 9.
#[tactic(auto, unfolding(crate::specs::Headers::step_at))]
pub fn step_in(word: &[u8]) -> Option<u8>
    ensures { result ≡ step_at word.now }
{
    match word {
        [digit] if b'0' < *digit && *digit <= b'9' => Some(*digit - b'0'),
        _ => None,
    }
}

/// A decimal of at most 999999999.
#[tactic(auto, unfolding(crate::specs::Headers::number_at))]
pub fn number_in(word: &[u8]) -> Option<u32>
    ensures { result ≡ number_at word.now }
{
    let number = read_decimal(word)?;
    if number > MOST {
        return None;
    }
    Some(number as u32)
}

/// A value of 64 hexadecimal digits.
pub fn value_in(word: &[u8]) -> Option<Digest>
    ensures { option_map (λ (value : _). value.bytes) result ≡ value_at word.now }
{
    let bytes = mm_module::value_in(word)?;
    Some(Digest { bytes })
}

fn are_digits(word: &[u8]) -> bool
    ensures { result ≡ list_all is_hex_digit word.now }
{
    word.iter().all(u8::is_ascii_hexdigit)
}

/// Whether the word stands for bytes: `-` for none, or two hexadecimal digits for each.
#[tactic(auto, unfolding(crate::specs::Headers::bytes_at))]
pub fn spells_bytes(word: &[u8]) -> bool
    ensures { result ≡ is_some (bytes_at word.now) }
{
    if is_text(word, b"-") {
        return true;
    }
    if word.is_empty() || word.len() % 2 == 1 {
        return false;
    }
    are_digits(word)
}
