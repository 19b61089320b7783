//! The first line of a schedule.

ghost use Rattle.std.specs.Prelude.{◌≡◌, ◌++◌, Some, IfSome, OnOk};
ghost use Rattle.mm_schedule.specs.Headers.{header_of_words, head_text, header_at, header_text, variant_text, variant_at};

use crate::words::{after, is_text, word_in};
use mm_bytes::{Bytes, Memory};
use mm_digest::Variant;
use mm_listing::Listed;
use mm_modules::{AnyModule, by_name};

/// What a schedule runs.
#[derive(Clone, Copy)]
pub struct Header {
    pub variant: Variant,
    pub module: AnyModule,
}

/// The header of a line, which stands without its LF, as `memoir 1 basic counter`. None where the
/// line is outside the grammar.
pub fn read_header(line: &[u8]) -> Option<Header>
    ensures read { result ≡ header_at line.now }
    ensures spelled { IfSome result (λ header. line.now ≡ header_text header) }
    ensures only { (header : Header) → line.now ≡ header_text header → result ≡ Some header }
{
    read_header_inner(line)
}

#[tactic(auto, unfolding(crate::specs::Headers::header_at))]
fn read_header_inner(line: &[u8]) -> Option<Header>
    ensures { result ≡ header_at line.now }
{
    let words = after(b"memoir 1 ", line)?;
    read_head_inner(words)
}

/// The variant and the module of two words, as `basic counter`, behind which nothing follows. None
/// where they name none.
pub fn read_head(words: &[u8]) -> Option<Header>
    ensures read { result ≡ header_of_words words.now }
    ensures spelled { IfSome result (λ head. words.now ≡ head_text head) }
    ensures only { (head : Header) → words.now ≡ head_text head → result ≡ Some head }
{
    read_head_inner(words)
}

#[tactic(auto, unfolding(crate::specs::Headers::header_of_words))]
fn read_head_inner(words: &[u8]) -> Option<Header>
    ensures { result ≡ header_of_words words.now }
{
    let (variant, name) = word_in(words)?;
    let variant = read_variant(variant)?;
    let module = by_name(name)?;
    Some(Header { variant, module })
}

/// Puts the header's line at the end, without an LF.
pub fn put_header(into: &mut Bytes, header: &Header) -> Result<(), Memory>
    ensures { OnOk result (into.new ≡ into.old ++ header_text header.now) }
{
    into.append(b"memoir 1 ")?;
    into.append(variant_word(header.variant))?;
    into.append(b" ")?;
    header.module.put_name(into)
}

/// The word of a variant: `basic` or `opt`.
pub fn variant_word(variant: Variant) -> &'static [u8]
    ensures { result.now ≡ variant_text variant }
{
    match variant {
        Variant::Basic => b"basic",
        Variant::Opt => b"opt",
    }
}

/// The variant of a word, None where the word is neither `basic` nor `opt`.
pub fn read_variant(word: &[u8]) -> Option<Variant>
    ensures variant { result ≡ variant_at word.now }
    ensures spelled { IfSome result (λ variant. word.now ≡ variant_text variant) }
{
    if is_text(word, b"basic") {
        return Some(Variant::Basic);
    }
    if is_text(word, b"opt") {
        return Some(Variant::Opt);
    }
    None
}
