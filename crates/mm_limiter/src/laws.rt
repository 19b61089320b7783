//! What a limiter promises of a whole run.

ghost use Rattle.mm_limiter.specs.Promise.{GuessesAreLimited};

/// Between two outputs `set` or `open` that follow each other, and after the last, at most as many
/// guesses are wrong as the request allowed that was told `set`.
pub fn guesses_are_limited()
    ensures { GuessesAreLimited }
{}
