//! A careful client, where others ask at any time, or write the slots: what he gives to a session,
//! and what he takes for done behind it.

ghost use Rattle.std.specs.Prelude.{◌≡◌};
ghost use Rattle.mm_client.specs.Careful.{is_told_again};

use crate::heard::HeardReply;
use crate::remembering::{HeardSession, heard_position};
use mm_bytes::Bytes;
use std::marker::Model;

/// What a careful client remembers: the lines that he doesn't take for done; the position that he
/// was told last before he sent more; and whether he may send.
#[derive(Drop)]
pub struct CarefulClient<'a> {
    left: &'a [Bytes],
    position: u64,
    is_sure: bool,
}

impl<'a> Model for CarefulClient<'a> {
    ghost use Rattle.mm_client.specs.Careful.{CarefulMemory};

    ghost Value = { CarefulMemory };

    ghost view = { λ client. record {
      left = client.left.now;
      position = client.position;
      is_sure = client.is_sure;
    } };
}

impl<'a> CarefulClient<'a> {
    ghost use Rattle.mm_client.specs.Careful.{careful_memory_after, careful_memory_at, careful_lines};

    /// A client who was told this position, or 0 for none, and then wants these lines.
    pub fn new(wanted: &'a [Bytes], position: u64) -> CarefulClient<'a>
        ensures { result ≡ careful_memory_at wanted.now position }
    {
        CarefulClient {
            left: wanted,
            position,
            is_sure: true,
        }
    }

    /// So many of the lines that are left, or all, for the next session: none where he may not
    /// send.
    pub fn lines_to_give(&self, count: usize) -> &'a [Bytes]
        ensures { result.now ≡ careful_lines self.now count }
    {
        if !self.is_sure {
            return &self.left[self.left.len()..];
        }
        &self.left[..count.min(self.left.len())]
    }

    /// What he remembers behind a session to which he gave so many.
    pub fn memory_after(&self, count: usize, heard: &HeardSession) -> CarefulClient<'a>
        ensures { result ≡ careful_memory_after self.now count heard.now }
    {
        let position = self.position;
        if !self.is_sure {
            return CarefulClient {
                left: self.left,
                position,
                is_sure: is_told_again(position, heard.replies.as_slice()),
            };
        }
        if !heard.is_whole {
            return CarefulClient {
                left: self.left,
                position,
                is_sure: false,
            };
        }
        CarefulClient {
            left: &self.left[count.min(self.left.len())..],
            position: heard_position(position, heard.replies.as_slice()),
            is_sure: true,
        }
    }
}

// One reply was heard, of this position.
fn is_told_again(position: u64, replies: &[HeardReply]) -> bool
    ensures { result ≡ is_told_again position replies.now }
{
    match replies {
        [reply] => reply.position == position,
        _ => false,
    }
}
