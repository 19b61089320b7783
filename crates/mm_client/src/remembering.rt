//! A client: what he heard of a session, what he remembers, and what he gives to the next one.

ghost use Rattle.std.specs.Prelude.{◌≡◌, IfOk};
ghost use Rattle.mm_client.specs.ClientLife.{heard_position};

use crate::heard::HeardReply;
use mm_bytes::{Bytes, Memory};
use std::alloc::Global;
use std::marker::Model;

/// What a client heard of one session: the replies that he heard whole, in order; and whether he
/// heard all, as it ended with Ok and he read its output to the end.
#[derive(Drop)]
pub struct HeardSession {
    pub(crate) replies: Vec<HeardReply>,
    pub(crate) is_whole: bool,
}

impl Model for HeardSession {
    ghost use Rattle.mm_client.specs.ClientLife.{Hearing};

    ghost Value = { Hearing };

    ghost view = { λ heard. record {
      replies = heard.replies.items;
      is_whole = heard.is_whole;
    } };
}

impl HeardSession {
    ghost use Rattle.mm_client.specs.ClientLife.{hearing_of};

    /// These replies were heard, and all or not.
    pub fn new(replies: Vec<HeardReply>, is_whole: bool) -> HeardSession
        ensures { result ≡ hearing_of replies.items is_whole }
    {
        HeardSession { replies, is_whole }
    }
}

/// What a client remembers: the replies heard so far; the position of the last one; and whether he
/// is sure that nothing behind it was run.
#[derive(Drop)]
pub struct Client {
    replies: Vec<HeardReply>,
    position: u64,
    is_sure: bool,
}

impl Model for Client {
    ghost use Rattle.mm_client.specs.ClientLife.{ClientMemory};

    ghost Value = { ClientMemory };

    ghost view = { λ client. record {
      replies = client.replies.items;
      position = client.position;
      is_sure = client.is_sure;
    } };
}

impl Client {
    ghost use Rattle.mm_client.specs.ClientLife.{memory_after, memory_at, lines_to_give};

    /// A client who counts from this position, and heard nothing yet. Takes no memory.
    pub fn new(alloc: Global, base: u64) -> Client
        ensures { result ≡ memory_at base }
    {
        Client {
            replies: Vec::new(alloc),
            position: base,
            is_sure: true,
        }
    }

    /// The replies heard so far, in order.
    pub fn replies(&self) -> &[HeardReply]
        ensures { result.now ≡ self.now.replies }
    {
        self.replies.as_slice()
    }

    /// The position of the last reply heard, and before any that from which he counts.
    pub fn position(&self) -> u64
        ensures { result ≡ self.now.position }
    {
        self.position
    }

    /// Whether he is sure that nothing behind that position was run.
    pub fn is_sure(&self) -> bool
        ensures { result ≡ self.now.is_sure }
    {
        self.is_sure
    }

    /// Of the lines that he wants behind this position, those that he gives to the next session:
    /// none while he isn't sure.
    pub fn lines_to_give<'a>(&self, base: u64, wanted: &'a [Bytes]) -> &'a [Bytes]
        ensures { result.now ≡ lines_to_give base wanted.now self.now }
    {
        if !self.is_sure {
            return &wanted[wanted.len()..];
        }
        let done = self.position.saturating_sub(base) as usize;
        &wanted[done.min(wanted.len())..]
    }

    /// What he remembers behind what he heard of a session.
    pub fn memory_after(self, heard: HeardSession) -> Result<Client, Memory>
        ensures { IfOk result (λ client. client ≡ memory_after self heard) }
    {
        let Client {
            mut replies,
            position,
            is_sure,
        } = self;
        let HeardSession {
            replies: mut more,
            is_whole,
        } = heard;
        let position = heard_position(position, more.as_slice());
        let is_sure = is_whole || (!is_sure && !more.is_empty());
        replies.append(&mut more)?;
        Ok(Client {
            replies,
            position,
            is_sure,
        })
    }
}

// The position of the last of these replies, and before any this one.
pub(crate) fn heard_position(before: u64, replies: &[HeardReply]) -> u64
    ensures { result ≡ heard_position before replies.now }
{
    match replies.split_last() {
        Some(parts) => parts.0.position,
        None => before,
    }
}
