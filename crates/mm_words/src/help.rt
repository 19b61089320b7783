//! The text that `--help` asks for.

ghost use Rattle.std.specs.Prelude.{◌≡◌, IfOk};
ghost use Rattle.mm_words.specs.Commands.{help_text};

use mm_bytes::{Bytes, Memory};
use mm_modules::module_names;
use std::alloc::Global;

/// A line for each form of words, and what the words in capitals stand for; each line ends with LF.
pub fn help_text(alloc: Global) -> Result<Bytes, Memory>
    ensures { IfOk result (λ text. text ≡ help_text) }
{
    let mut text = Bytes::copy_of(
        alloc,
        b"memoir init VARIANT MODULE\nmemoir run\nmemoir checkpoint\nmemoir power\nmemoir replay\nmemoir check\nmemoir gen NUMBER COUNT VARIANT MODULE\nmemoir bulk NUMBER COUNT VARIANT MODULE\nmemoir slots\nmemoir receipts KEY\nmemoir transfer\nVARIANT is basic or opt\nMODULE is ",
    )?;
    text.append(module_names())?;
    text.append(b"\n")?;
    Ok(text)
}
