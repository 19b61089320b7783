//! The words that a turn draws.

ghost use Rattle.std.specs.Prelude.{◌≡◌, ◌+◌, ◌<◌, ◌^◌};
ghost use Rattle.rand_chacha.specs.ChaCha.{ChaCha};
ghost use Rattle.mm_gen.specs.Schedules.{words_at};

use rand_chacha::ChaCha20Rng;
use rand_core::utils::NextWord;

/// The four words of a turn.
#[derive(Clone, Copy)]
pub struct TurnWords {
    /// Chooses the turn's row.
    pub row: u32,
    /// Chooses a step, or a snapshot by its number.
    pub number: u32,
    /// Chooses a byte, or whether a failed step has its effect.
    pub detail: u32,
    /// Chooses the request.
    pub request: u32,
}

/// The next four words of the generator.
pub fn draw(generator: &mut ChaCha20Rng) -> TurnWords
    requires stream { generator.now.stream ≡ 0 }
    requires place { generator.now.word_pos + 4 < 2 ^ 68 }
    ensures words { result ≡ words_at generator.old.key generator.old.word_pos }
    ensures after { generator.new ≡ record generator.old { word_pos = generator.old.word_pos + 4 } }
{
    TurnWords {
        row: generator.next_word(),
        number: generator.next_word(),
        detail: generator.next_word(),
        request: generator.next_word(),
    }
}
