//! Messages with their numbers.

ghost use Rattle.std.specs.Prelude.{◌≡◌, ◌+◌, ◌-◌, ◌<◌, ◌≤◌, ◌^◌, ℕ, List, [], true, false, None, Some, length, OnOk};
ghost use Rattle.std.specs.List.{fold, list_any};
ghost use Rattle.std.specs.Str.{bytes_eq};
ghost use Rattle.sha2.specs.Sha256.{sha256};
ghost use Rattle.mm_numbering.specs.Listing.{messages_with, number_at, ListsMessages};

use crate::digests::DigestIndex;
use crate::texts::TextList;
use mm_bytes::Memory;
use mm_history::Message;
use std::alloc::Global;

/// The messages listed so far, each once and in order, and their digests.
#[derive(Drop)]
pub struct Numbers {
    texts: TextList,
    pub digests: DigestIndex,
}

impl Numbers {
    /// None so far. Takes no memory.
    pub fn new(alloc: Global) -> Numbers
        ensures { ListsMessages [] result }
    {
        Numbers {
            texts: TextList::new(alloc),
            digests: DigestIndex::new(alloc),
        }
    }

    /// Lists a message, if it hasn't come before: then it is the first of its digest, or, where two
    /// messages share a digest, one of all.
    pub fn list(&mut self, message: &Message) -> Result<(), Memory>
        requires { self.old.digests.count < 2 ^ 32 - 1 }
        ensures lists { (seen : List (List ℕ)) → ListsMessages seen self.old
            → OnOk result (ListsMessages (messages_with seen message.now) self.new) }
        ensures rises { self.new.digests.count ≤ self.old.digests.count + 1 }
    {
        match self.digests.add_if_first(message.digest())? {
            None => self.texts.push(message.as_slice()),
            Some(first) if self.is_numbered(first, message) || self.texts.has(message.as_slice()) =>
                { Ok(()) }
            Some(first) => self.list_shared(first, message),
        }
    }

    // Whether this is the message of this number.
    fn is_numbered(&self, number: u32, message: &Message) -> bool
        ensures { result ≡ true → list_any (bytes_eq message.now) self.now.texts ≡ true }
    {
        match self.texts.get(number.saturating_sub(1) as usize) {
            Some(text) => message.as_slice() == text,
            None => false,
        }
    }

    // Lists a message that hasn't come before, whose digest the message of this number has.
    fn list_shared(&mut self, first: u32, message: &Message) -> Result<(), Memory>
        requires count { self.old.digests.count < 2 ^ 32 - 1 }
        requires first { number_at self.old.digests (sha256 message.now) ≡ Some first }
        requires new { list_any (bytes_eq message.now) self.old.texts ≡ false }
        ensures lists { (seen : List (List ℕ)) → ListsMessages seen self.old
            → OnOk result (ListsMessages (messages_with seen message.now) self.new) }
        ensures rises { self.new.digests.count ≤ self.old.digests.count + 1 }
    {
        self.texts.push(message.as_slice())?;
        self.digests.add_shared(message.digest(), first);
        Ok(())
    }

    /// Lists these messages, one after another.
    pub fn list_all(&mut self, messages: &[Message]) -> Result<(), Memory>
        requires { self.old.digests.count + length messages.now < 2 ^ 32 - 1 }
        ensures { (seen : List (List ℕ)) → ListsMessages seen self.old
            → OnOk result (ListsMessages (fold messages_with seen messages.now) self.new) }
    {
        'messages: for message in messages {
            self.list(message)?;
        }
        Ok(())
    }
}
