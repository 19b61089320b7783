//! Requests as words between single spaces.

ghost use Rattle.std.specs.Prelude.{◌≡◌, ◌∷◌, option_copied};
ghost use Rattle.std.specs.List.{position};
ghost use Rattle.mm_module.specs.Meaning.{words_of, words_after, is_space};

/// The words of a request, which single spaces part. Two spaces in a row have an empty word between
/// them.
#[derive(Clone, Copy)]
pub enum Words<'a> {
    /// No space.
    One(&'a [u8]),
    /// One space.
    Two(&'a [u8], &'a [u8]),
    /// Two spaces.
    Three(&'a [u8], &'a [u8], &'a [u8]),
    /// Three spaces or more.
    More,
}

/// Where the first space is. None exactly where there is none.
pub fn space_in(text: &[u8]) -> Option<usize>
    ensures { result ≡ position is_space text.now }
{
    text.iter().position(|byte| *byte == b' ')
}

/// The first word, and what stands behind the space after it.
fn first_word(text: &[u8]) -> (&[u8], Option<&[u8]>)
    ensures { words_of text.now ≡ result.0.now ∷ words_after (option_copied result.1) }
{
    match space_in(text) {
        None => (text, None),
        Some(at) => (&text[..at], Some(&text[at + 1..])),
    }
}

impl<'a> Words<'a> {
    ghost use Rattle.mm_module.specs.Meaning.{words_of};
    ghost use Rattle.mm_module.specs.WordForms.{HasWords};

    /// The words of a request.
    pub fn of(request: &'a [u8]) -> Words<'a>
        ensures { HasWords result (words_of request.now) }
    {
        let (first, rest) = first_word(request);
        let Some(rest) = rest else {
            return Words::One(first);
        };
        let (second, rest) = first_word(rest);
        let Some(rest) = rest else {
            return Words::Two(first, second);
        };
        let (third, rest) = first_word(rest);
        match rest {
            None => Words::Three(first, second, third),
            Some(_) => Words::More,
        }
    }
}
