//! Values of 32 bytes, as words of hexadecimal digits.

ghost use Rattle.std.specs.Prelude.{◌≡◌};
ghost use Rattle.mm_module.specs.Meaning.{value_at};

/// The 32 bytes that a word of 64 hexadecimal digits stands for. None exactly where the word is
/// another.
#[tactic(auto, unfolding(crate::specs::Meaning::value_at))]
pub fn value_in(word: &[u8]) -> Option<[u8; 32]>
    ensures { result ≡ value_at word.now }
{
    let mut bytes = [0; 32];
    if hex::decode_to_slice(word, &mut bytes).is_err() {
        return None;
    }
    Some(bytes)
}
