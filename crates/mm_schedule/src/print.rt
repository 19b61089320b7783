//! Replies as lines.

ghost use Rattle.std.specs.Prelude.{◌≡◌, ◌+◌, ◌<◌, ◌≤◌, ◌++◌, [], ◌∷◌, Some, codes, length, take, slice_get};
ghost use Rattle.std.specs.Fmt.{decimal};
ghost use Rattle.mm_bytes.specs.Limits.{longest_request};
ghost use Rattle.mm_schedule.specs.Replies.{IsPrintable, lines_of_reply, way_text, told_line, told_text};

use crate::reply::{Reply, Way};
use itoa::Buffer;
use mm_module::Outputs;

/// The number of a reply's lines: one for each request of a batch that is told, else one.
pub fn reply_lines(reply: &Reply) -> usize
    ensures { result ≡ length (lines_of_reply reply.now) }
{
    match reply {
        Reply::Told { outputs, .. } => outputs.len(),
        _ => 1,
    }
}

/// Writes one line of a reply with its LF to the front of `into`, and answers its length. Takes no
/// memory.
pub fn print_line(reply: &Reply, index: usize, into: &mut [u8; 4200]) -> usize
    requires index { index < length (lines_of_reply reply.now) }
    requires printable { IsPrintable reply.now }
    ensures within { result ≤ 4200 }
    ensures line { slice_get (lines_of_reply reply.now) index ≡ Some (take result into.new) }
{
    match reply {
        Reply::Told {
            again,
            before,
            outputs,
        } => {
            let output = output_at(outputs, index);
            print_told(*again, *before + index as u64 + 1, output, into)
        }
        Reply::No(cause) => print_words(b"no ", cause.text(), into),
        Reply::Kept { way, position } => print_kept(*way, *position, into),
        Reply::Nothing { way } => print_words(way.text(), b" lost", into),
        Reply::Closed { way } => print_words(way.text(), b" closed", into),
        Reply::Checkpointed => print_words(b"checkpointed", b"", into),
        Reply::Power => print_words(b"power", b"", into),
        Reply::Extended => print_words(b"extended", b"", into),
    }
}

/// The output that a line of a batch tells.
#[inline(always)]
pub(crate) fn output_at(outputs: &Outputs, index: usize) -> &[u8]
    requires { index < length outputs.now }
    ensures { slice_get outputs.now index ≡ Some result.now }
{
    match outputs.get(index) {
        Some(output) => output,
        None => unreachable!(),
    }
}

/// Writes two words and an LF.
fn print_words(first: &[u8], second: &[u8], into: &mut [u8; 4200]) -> usize
    requires first { length first.now ≤ 100 }
    requires second { length second.now ≤ 100 }
    ensures within { result ≤ 4200 }
    ensures line { take result into.new ≡ first.now ++ second.now ++ 10 ∷ [] }
{
    let at = put(into, 0, first);
    let at = put(into, at, second);
    put(into, at, b"\n")
}

fn print_kept(way: Way, position: u64, into: &mut [u8; 4200]) -> usize
    ensures within { result ≤ 4200 }
    ensures line { take result into.new
        ≡ way_text way ++ codes " kept " ++ decimal position ++ 10 ∷ [] }
{
    let at = put(into, 0, way.text());
    let at = put(into, at, b" kept ");
    let at = put_number(into, at, position);
    put(into, at, b"\n")
}

/// Writes the line of a position and its output with its LF to the front of `into`, and answers its
/// length. Takes no memory.
pub fn print_told(again: bool, position: u64, output: &[u8], into: &mut [u8; 4200]) -> usize
    requires { length output.now ≤ longest_request }
    ensures within { result ≤ 4200 }
    ensures line { take result into.new ≡ told_line again position output.now }
{
    let at = put(into, 0, told_word(again));
    let at = put_number(into, at, position);
    let at = put(into, at, b" ");
    let at = put(into, at, output);
    put(into, at, b"\n")
}

/// The word of a request that is told, for the first time or again.
pub(crate) fn told_word(again: bool) -> &'static [u8]
    ensures { result.now ≡ told_text again }
{
    if again { b"again " } else { b"ok " }
}

/// Puts a number's decimal at this place, and answers the place behind it.
fn put_number(into: &mut [u8; 4200], at: usize, number: u64) -> usize
    requires { at ≤ 4000 }
    ensures end { result ≤ at + 20 }
    ensures text { take result into.new ≡ take at into.old ++ decimal number }
{
    let mut buffer = Buffer::new();
    let text = buffer.format(number);
    put(into, at, text.as_bytes())
}

/// Puts a piece at this place, and answers the place behind it.
fn put(into: &mut [u8; 4200], at: usize, piece: &[u8]) -> usize
    requires { at + length piece.now ≤ 4200 }
    ensures end { result ≡ at + length piece.now }
    ensures text { take result into.new ≡ take at into.old ++ piece.now }
{
    let end = at + piece.len();
    into[at..end].copy_from_slice(piece);
    end
}
