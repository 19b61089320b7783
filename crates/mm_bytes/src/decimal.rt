//! Decimals: `0`, or a digit from 1 to 9 and then digits.

ghost use Rattle.std.specs.Prelude.{◌≡◌, ◌<◌, ◌^◌, ◌++◌, ℕ, Some, IfSome, IsTrue, OnOk, OnErr};
ghost use Rattle.std.specs.Fmt.{decimal};
ghost use Rattle.std.specs.Char.{is_ascii_digit};
ghost use Rattle.std.specs.List.{list_all};
ghost use Rattle.std.specs.Str.Parse.{digits_value_after};
ghost use Rattle.mm_bytes.specs.Limits.{is_decimal, decimal_number, within_64_bits};

use crate::bytes::Bytes;
use crate::fault::Memory;
use itoa::Buffer;

/// The number that the bytes write, where they are a decimal of at most 18446744073709551615.
#[tactic(auto, using(crate::specs::DecimalLaws::spelled_by_reading, crate::specs::DecimalLaws::read_by_spelling))]
pub fn read_decimal(bytes: &[u8]) -> Option<u64>
    ensures value { result ≡ decimal_number bytes.now }
    ensures spelled { IfSome result (λ number. bytes.now ≡ decimal number) }
    ensures only { (number : ℕ) → number < 2 ^ 64 → bytes.now ≡ decimal number
        → result ≡ Some number }
{
    if !has_decimal_form(bytes) {
        return None;
    }
    parsed(bytes)
}

/// Whether the bytes are `0` alone, or digits that do not begin with `0`.
fn has_decimal_form(bytes: &[u8]) -> bool
    ensures { result ≡ is_decimal bytes.now }
{
    let Some((first, rest)) = bytes.split_first() else {
        return false;
    };
    if *first == b'0' {
        return rest.is_empty();
    }
    are_digits(bytes)
}

fn are_digits(bytes: &[u8]) -> bool
    ensures { result ≡ list_all is_ascii_digit bytes.now }
{
    bytes.iter().all(u8::is_ascii_digit)
}

/// The number that a decimal writes, where it has at most 64 bits.
#[tactic(auto, using(crate::specs::DecimalLaws::number_of_digits, crate::specs::DecimalLaws::digits_of_decimal))]
fn parsed(decimal: &[u8]) -> Option<u64>
    requires { IsTrue (is_decimal decimal.now) }
    ensures { result ≡ decimal_number decimal.now }
{
    number_behind(0, decimal)
}

/// The number that these digits write behind those of a number, where it has at most 64 bits.
#[tactic(auto, using(crate::specs::DecimalLaws::digit_behind))]
fn number_behind(number: u64, digits: &[u8]) -> Option<u64>
    requires { IsTrue (list_all is_ascii_digit digits.now) }
    ensures { result ≡ within_64_bits (digits_value_after 10 number digits.now) }
{
    let Some((digit, rest)) = digits.split_first() else {
        return Some(number);
    };
    let more = number
        .checked_mul(10)?
        .checked_add(u64::from(*digit - b'0'))?;
    number_behind(more, rest)
}

/// Puts the number's decimal at the end.
pub fn put_decimal(into: &mut Bytes, n: u64) -> Result<(), Memory>
    ensures ok { OnOk result (into.new ≡ into.old ++ decimal n) }
    ensures err { OnErr result (into.new ≡ into.old) }
{
    let mut buffer = Buffer::new();
    let text = buffer.format(n);
    into.append(text.as_bytes())
}

/// Puts a word and the number's decimal at the end.
pub fn put_numbered(into: &mut Bytes, word: &[u8], number: u64) -> Result<(), Memory>
    ensures { OnOk result (into.new ≡ into.old ++ word.now ++ decimal number) }
{
    into.append(word)?;
    put_decimal(into, number)
}
