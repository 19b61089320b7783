//! What the program is told to do.

ghost use Rattle.std.specs.Prelude.{◌≡◌, ◌↔◌, [], ◌∷◌, IsTrue, map};
ghost use Rattle.std.specs.Cmp.Lexicographic.{pointwise};
ghost use Rattle.std.specs.Fmt.{decimal};
ghost use Rattle.std.specs.Str.{bytes_eq};
ghost use Rattle.mm_module.specs.Meaning.{value_at};
ghost use Rattle.mm_words.specs.Commands.{AreReceiptsWords, AreWordsOf, generated_words, header_words};

use itoa::Buffer;
use mm_listing::Listed;
use mm_module::value_in;
use mm_schedule::{Header, variant_word};

/// A schedule that is made from a number.
#[derive(Clone, Copy)]
pub struct GeneratedSchedule {
    pub number: u64,
    /// The number of event lines, at most 20,000.
    pub count: u32,
    pub header: Header,
}

/// A command: what one form of words asks for.
#[derive(Clone, Copy)]
pub enum CommandLine {
    /// `init VARIANT MODULE`
    Init(Header),
    /// `run`
    Run,
    /// `checkpoint`
    Checkpoint,
    /// `power`
    Power,
    /// `replay`
    Replay,
    /// `check`
    Check,
    /// `gen NUMBER COUNT VARIANT MODULE`
    Gen(GeneratedSchedule),
    /// `bulk NUMBER COUNT VARIANT MODULE`
    Bulk(GeneratedSchedule),
    /// `slots`
    Slots,
    /// `receipts KEY`, where KEY is 64 hexadecimal digits.
    Receipts { key: [u8; 32] },
    /// `transfer`
    Transfer,
    /// `--help`
    Help,
}

impl CommandLine {
    /// Whether these words spell the command.
    pub(crate) fn is_spelled(&self, words: &[&str]) -> bool
        ensures { IsTrue result ↔ AreWordsOf self.now (map (λ s. s.now) words.now) }
    {
        match self {
            CommandLine::Init(header) => are_header_words(words, "init", header),
            CommandLine::Run => is_alone(words, "run"),
            CommandLine::Checkpoint => is_alone(words, "checkpoint"),
            CommandLine::Power => is_alone(words, "power"),
            CommandLine::Replay => is_alone(words, "replay"),
            CommandLine::Check => is_alone(words, "check"),
            CommandLine::Gen(generated) => are_generated_words(words, "gen", generated),
            CommandLine::Bulk(generated) => are_generated_words(words, "bulk", generated),
            CommandLine::Slots => is_alone(words, "slots"),
            CommandLine::Receipts { key } => are_receipts_words(words, key),
            CommandLine::Transfer => is_alone(words, "transfer"),
            CommandLine::Help => is_alone(words, "--help"),
        }
    }
}

/// Whether this word stands alone.
pub(crate) fn is_alone(words: &[&str], alone: &str) -> bool
    ensures { result ≡ pointwise bytes_eq (map (λ s. s.now) words.now) (alone.now ∷ []) }
{
    match words {
        [word] => *word == alone,
        _ => false,
    }
}

/// Whether the words are this one, and the variant and the module of a header.
fn are_header_words(words: &[&str], form: &str, header: &Header) -> bool
    ensures { result ≡ pointwise bytes_eq (map (λ s. s.now) words.now)
        (form.now ∷ header_words header.now) }
{
    let [word, variant, module] = words else {
        return false;
    };
    *word == form
        && variant.as_bytes() == variant_word(header.variant)
        && header.module.is_named(module.as_bytes())
}

/// Whether the words are this one, and those of a generated schedule.
fn are_generated_words(words: &[&str], form: &str, it: &GeneratedSchedule) -> bool
    ensures { result ≡ pointwise bytes_eq (map (λ s. s.now) words.now)
        (form.now ∷ generated_words it.now) }
{
    let [word, number, count, variant, module] = words else {
        return false;
    };
    *word == form
        && is_decimal_of(number, it.number)
        && is_decimal_of(count, u64::from(it.count))
        && variant.as_bytes() == variant_word(it.header.variant)
        && it.header.module.is_named(module.as_bytes())
}

/// Whether the words are `receipts` and the digits of a key.
fn are_receipts_words(words: &[&str], key: &[u8; 32]) -> bool
    ensures { IsTrue result ↔ AreReceiptsWords key.now (map (λ s. s.now) words.now) }
{
    match words {
        [word, digits] => *word == "receipts" && gives_key(digits, key),
        _ => false,
    }
}

/// Whether the word is 64 hexadecimal digits that give this key.
fn gives_key(word: &str, key: &[u8; 32]) -> bool
    ensures { IsTrue result ↔ (value_at word.now ≡ Some key.now) }
{
    match value_in(word.as_bytes()) {
        Some(value) => value == *key,
        None => false,
    }
}

fn is_decimal_of(word: &str, number: u64) -> bool
    ensures { result ≡ bytes_eq word.now (decimal number) }
{
    let mut buffer = Buffer::new();
    word == buffer.format(number)
}
