//! The first line in which two lists differ.

ghost use Rattle.std.specs.Prelude.{◌≡◌, ◌+◌, ◌-◌, ◌<◌, ◌^◌, length, slice_get};
ghost use Rattle.mm_check.specs.Verdicts.{agreement_of, first_difference, is_found};

use crate::verdicts::Agreement;
use mm_numbering::TextList;

/// Whether the line of this index is there and is this one.
fn is_at(lines: &TextList, index: usize, line: &[u8]) -> bool
    ensures { result ≡ is_found (slice_get lines.now index) line.now }
{
    match lines.get(index) {
        Some(found) => found == line,
        None => false,
    }
}

/// Whether the tested lines are those that are expected.
pub(crate) fn difference(tested: &TextList, expected: &TextList) -> Agreement
    requires { length expected.now < 2 ^ 32 - 1 }
    ensures { result ≡ agreement_of (first_difference tested.now expected.now) }
{
    'lines: for index in 0..expected.len() {
        let line = expected.at(index);
        if !is_at(tested, index, line) {
            return Agreement::Differ {
                line: index as u32 + 1,
            };
        }
    }
    if tested.len() > expected.len() {
        return Agreement::Differ {
            line: expected.len() as u32 + 1,
        };
    }
    Agreement::Agree
}
