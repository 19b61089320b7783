//! Byte lists, kept one behind another.

ghost use Rattle.std.specs.Prelude.{◌≡◌, ◌≤◌, length};
ghost use Rattle.mm_numbering.specs.TextList.{bytes_in};

use mm_bytes::{Bytes, Memory};
use std::alloc::Global;
use std::marker::Model;

/// Where a byte list stands among all.
#[derive(Clone, Copy)]
struct Span {
    start: usize,
    end: usize,
}

/// The bytes from a span's start to its end.
fn bytes_in(text: &[u8], span: Span) -> &[u8]
    requires rises { span.start ≤ span.end }
    requires within { span.end ≤ length text.now }
    ensures { result.now ≡ bytes_in text.now span }
{
    &text[span.start..span.end]
}

/// Byte lists, one behind another in one text, so that none takes memory of its own. Contracts see
/// the list of them.
#[derive(Drop)]
pub struct TextList {
    text: Bytes,
    spans: Vec<Span>,
}

impl Model for TextList {
    ghost use Rattle.std.specs.Prelude.{List, ℕ, length};
    ghost use Rattle.mm_numbering.specs.TextList.{AreWithin, parts_at};

    ghost Value = { List (List ℕ) };

    ghost view = { λ it. parts_at it.text it.spans.items };

    ghost invariant = { λ it. AreWithin (length it.text) it.spans.items };
}

impl TextList {
    ghost use Rattle.std.specs.Prelude.{◌≡◌, ◌<◌, ◌++◌, ◌∷◌, [], OnOk, Some, length, option_copied, slice_get};
    ghost use Rattle.std.specs.List.{list_any};
    ghost use Rattle.std.specs.Str.{bytes_eq};

    /// None. Takes no memory.
    pub fn new(alloc: Global) -> TextList
        ensures { result ≡ [] }
    {
        TextList {
            text: Bytes::new(alloc),
            spans: Vec::new(alloc),
        }
    }

    /// Puts one at the end. Where memory is wanting nothing is said of them.
    pub fn push(&mut self, bytes: &[u8]) -> Result<(), Memory>
        ensures { OnOk result (self.new ≡ self.old ++ bytes.now ∷ []) }
    {
        let start = self.text.as_slice().len();
        self.text.append(bytes)?;
        let end = self.text.as_slice().len();
        self.spans.push(Span { start, end })?;
        Ok(())
    }

    /// How many there are.
    pub fn len(&self) -> usize
        ensures { result ≡ length self.now }
    {
        self.spans.len()
    }

    /// The one of this index, None from `len` on.
    pub fn get(&self, index: usize) -> Option<&[u8]>
        ensures { option_copied result ≡ slice_get self.now index }
    {
        let span = self.spans.get(index)?;
        Some(bytes_in(self.text.as_slice(), *span))
    }

    /// The one of this index, which is below `len`.
    pub fn at(&self, index: usize) -> &[u8]
        requires { index < length self.now }
        ensures { slice_get self.now index ≡ Some result.now }
    {
        match self.get(index) {
            Some(bytes) => bytes,
            None => unreachable!(),
        }
    }

    /// Whether one of them has these bytes. Looks at each.
    pub fn has(&self, bytes: &[u8]) -> bool
        ensures { result ≡ list_any (bytes_eq bytes.now) self.now }
    {
        'texts: for index in 0..self.len() {
            if bytes == self.at(index) {
                return true;
            }
        }
        false
    }
}
