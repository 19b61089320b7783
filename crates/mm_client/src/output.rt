//! The replies in the output of a session.

ghost use Rattle.std.specs.Prelude.{◌≡◌, ◌∷◌, ◌++◌, IfOk, MatchOption, option_copied};
ghost use Rattle.mm_base.specs.Input.{IsUnbroken};
ghost use Rattle.mm_client.specs.LocalLife.{rest_behind_word, replies_in, reply_in};

use crate::heard::HeardReply;
use mm_bytes::{Bytes, Memory, read_decimal};
use mm_schedule::{after, word_in};
use std::alloc::Global;

/// The replies in an output, which `run` wrote, or the first bytes of it: of its whole lines each
/// that is `ok P OUT` or `again P OUT`, in order.
pub fn replies_in(alloc: Global, output: &[u8]) -> Result<Vec<HeardReply>, Memory>
    ensures { IfOk result (λ replies. replies.items ≡ replies_in output.now) }
{
    let mut replies = Vec::new(alloc);
    let mut rest = output;
    'lines: while let Some((line, behind)) = first_line(rest) {
        if let Some(reply) = reply_in(alloc, line)? {
            replies.push(reply)?;
        }
        rest = behind;
    }
    Ok(replies)
}

// The first whole line, and what stands behind its LF.
fn first_line(bytes: &[u8]) -> Option<(&[u8], &[u8])>
    ensures { MatchOption result (IsUnbroken bytes.now)
        (λ parts. IsUnbroken parts.0.now × (bytes.now ≡ parts.0.now ++ 10 ∷ parts.1.now)) }
{
    let at = bytes.iter().position(|byte| *byte == b'\n')?;
    Some((&bytes[..at], &bytes[at + 1..]))
}

// The reply that a line is, if it is one.
fn reply_in(alloc: Global, line: &[u8]) -> Result<Option<HeardReply>, Memory>
    ensures { IfOk result (λ found. found ≡ reply_in line.now) }
{
    let Some(rest) = behind_word(line) else {
        return Ok(None);
    };
    let Some((number, output)) = word_in(rest) else {
        return Ok(None);
    };
    let Some(position) = read_decimal(number) else {
        return Ok(None);
    };
    let output = Bytes::copy_of(alloc, output)?;
    Ok(Some(HeardReply { position, output }))
}

// What stands behind `ok` or `again`, and a space.
fn behind_word(line: &[u8]) -> Option<&[u8]>
    ensures { option_copied result ≡ rest_behind_word line.now }
{
    match after(b"ok ", line) {
        Some(rest) => Some(rest),
        None => after(b"again ", line),
    }
}
