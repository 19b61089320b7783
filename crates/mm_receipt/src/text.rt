//! Replies as text.

ghost use Rattle.std.specs.Prelude.{◌≡◌, ◌++◌, ◌∷◌, [], IfOk};
ghost use Rattle.std.specs.Fmt.{decimal};
ghost use Rattle.mm_receipt.specs.ReceiptCheck.{verdict_text, last_line};

use crate::pair::PairVerdict;
use mm_bytes::{Bytes, Memory, put_decimal};
use mm_schedule::put_end;
use std::alloc::Global;

/// A word, a position and LF.
fn placed(alloc: Global, word: &[u8], position: u64) -> Result<Bytes, Memory>
    ensures { IfOk result (λ text. text ≡ word.now ++ decimal position ++ 10 ∷ []) }
{
    let mut text = Bytes::copy_of(alloc, word)?;
    put_decimal(&mut text, position)?;
    text.push(b'\n')?;
    Ok(text)
}

/// The line that answers a pair, with its LF.
pub fn text_of(alloc: Global, position: u64, verdict: PairVerdict) -> Result<Bytes, Memory>
    ensures { IfOk result (λ text. text ≡ verdict_text position verdict) }
{
    match verdict {
        PairVerdict::NoForm => Bytes::copy_of(alloc, b"no form\n"),
        PairVerdict::NoTag => Bytes::copy_of(alloc, b"no tag\n"),
        PairVerdict::Clash => placed(alloc, b"clash ", position),
        PairVerdict::Good => placed(alloc, b"good ", position),
    }
}

/// The line `end G N`, with its LF.
pub fn last_text(alloc: Global, good: u32, pairs: u32) -> Result<Bytes, Memory>
    ensures { IfOk result (λ text. text ≡ last_line good pairs) }
{
    let mut text = Bytes::new(alloc);
    put_end(u64::from(good), pairs, &mut text)?;
    Ok(text)
}
