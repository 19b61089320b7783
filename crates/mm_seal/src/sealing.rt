//! The key that snapshots are sealed under, which remembers what it sealed last.

ghost use Rattle.std.specs.Prelude.{◌≡◌, IfSome, IsSome};

use crate::snapshot::{Body, Offered, front, with_tag};
use mm_bytes::{Bytes, Memory};
use mm_digest::{Digest, HmacKey};
use std::alloc::Global;
use std::marker::Model;

/// A key of 32 bytes, absorbed once, that remembers the two texts that it sealed last, with their
/// tags. The snapshot that was sealed last is mostly what is offered next, and a repeat seals it
/// again, offering the one before: neither takes a second HMAC. What is remembered is each text's
/// own tag, so it changes no answer, and contracts see the key alone.
///
/// Each new text takes the older one's place, in its memory. Memory for the state of a next
/// snapshot is kept too.
#[derive(Drop)]
pub struct SealingKey {
    bytes: [u8; 32],
    key: Option<HmacKey>,
    first: Option<TaggedText>,
    second: Option<TaggedText>,
    last_is_second: bool,
    room: Option<Bytes>,
}

/// A text that was sealed, which is a snapshot without its tag; and the tag.
#[derive(Drop)]
pub struct TaggedText {
    pub text: Vec<u8>,
    pub tag: Digest,
}

impl Model for SealingKey {
    ghost use Rattle.std.specs.Prelude.{List, ℕ};
    ghost use Rattle.mm_seal.specs.Cell.{KeyRemembers};

    ghost Value = { List ℕ };

    ghost view = { λ it. it.bytes };

    ghost invariant = { λ it. KeyRemembers it.bytes it.key it.first it.second };
}

impl SealingKey {
    ghost use Rattle.std.specs.Prelude.{◌≡◌, ◌≤◌, ◌↔◌, [], ◌++◌, IsTrue, IfOk, IfSome, length};
    ghost use Rattle.mm_bytes.specs.Limits.{last_position, limit_of};
    ghost use Rattle.mm_digest.specs.Messages.{hmac_of};
    ghost use Rattle.mm_seal.specs.Parts.{content_of};
    ghost use Rattle.mm_seal.specs.Snapshot.{sealed_snapshot_of, tag_of};

    /// The key, absorbed, with nothing remembered. Takes no memory.
    pub fn new(key: &[u8; 32]) -> SealingKey
        ensures { result ≡ key.now }
    {
        SealingKey {
            bytes: *key,
            key: Some(HmacKey::new(key)),
            first: None,
            second: None,
            last_is_second: false,
            room: None,
        }
    }

    /// The key, which remembers these texts, and is absorbed once it is used. Takes no memory.
    pub fn remembering(
        key: &[u8; 32],
        last: Option<TaggedText>,
        before: Option<TaggedText>,
    ) -> SealingKey
        requires last { IfSome last (λ it. it.tag.bytes ≡ hmac_of key.now it.text.items) }
        requires before { IfSome before (λ it. it.tag.bytes ≡ hmac_of key.now it.text.items) }
        ensures { result ≡ key.now }
    {
        SealingKey {
            bytes: *key,
            key: None,
            first: last,
            second: before,
            last_is_second: false,
            room: None,
        }
    }

    /// Its bytes.
    pub fn bytes(&self) -> &[u8; 32]
        ensures { result.now ≡ self.now }
    {
        &self.bytes
    }

    /// The text that was sealed last, where it is remembered.
    pub fn last(&self) -> Option<&TaggedText>
        ensures { IfSome result (λ it. it.now.tag.bytes ≡ hmac_of self.now it.now.text.items) }
    {
        if self.last_is_second {
            self.second.as_ref()
        } else {
            self.first.as_ref()
        }
    }

    /// The text that was sealed before that, where it is remembered.
    pub fn before(&self) -> Option<&TaggedText>
        ensures { IfSome result (λ it. it.now.tag.bytes ≡ hmac_of self.now it.now.text.items) }
    {
        if self.last_is_second {
            self.first.as_ref()
        } else {
            self.second.as_ref()
        }
    }

    /// Whether this is the key.
    pub fn is(&self, key: &[u8; 32]) -> bool
        ensures { IsTrue result ↔ (self.now ≡ key.now) }
    {
        self.bytes == *key
    }

    /// Whether the offer's tag is its content's under this key, as [`Offered::tag_right`] says.
    pub fn tag_right(&self, offered: &Offered<'_>) -> bool
        ensures { IsTrue result ↔ (offered.now.tag ≡ tag_of self.now offered.now.content) }
    {
        let tag = self.tag(offered.signed());
        offered.has_tag(&tag)
    }

    /// No bytes, in the memory that was given back last, if any was.
    #[inline(always)]
    pub fn take_room(&mut self, alloc: Global) -> Bytes
        ensures none { result ≡ [] }
        ensures same { self.new ≡ self.old }
    {
        match self.room.take() {
            Some(mut room) => {
                room.clear();
                room
            }
            None => Bytes::new(alloc),
        }
    }

    /// Gives memory back, for the state of a next snapshot.
    #[inline(always)]
    pub fn give_room(&mut self, room: Bytes)
        ensures { self.new ≡ self.old }
    {
        self.room = Some(room);
    }

    /// The snapshot of this content, sealed under the key, as [`crate::seal`] gives it. What is
    /// signed is remembered from then on, with its tag; where memory is too short for that alone,
    /// it isn't.
    #[tactic(auto, unfolding(crate::specs::Snapshot::sealed_snapshot_of))]
    pub fn seal(&mut self, alloc: Global, body: &Body<'_>) -> Result<Bytes, Memory>
        requires position { body.now.position ≤ last_position }
        requires state { length body.now.state.now ≤ limit_of body.now.module }
        ensures sealed { IfOk result
            (λ bytes. bytes ≡ sealed_snapshot_of self.old (content_of body.now)) }
        ensures same { self.new ≡ self.old }
    {
        let text = front(alloc, body)?;
        let remembered = self.remembered(text.as_slice());
        self.tagged(alloc, text, remembered)
    }

    /// The same, of a content that was seldom sealed before: of what is remembered it is sought in
    /// the last text alone, which is its own where a device failed behind it.
    #[tactic(auto, unfolding(crate::specs::Snapshot::sealed_snapshot_of))]
    #[inline(always)]
    pub fn seal_new(&mut self, alloc: Global, body: &Body<'_>) -> Result<Bytes, Memory>
        requires position { body.now.position ≤ last_position }
        requires state { length body.now.state.now ≤ limit_of body.now.module }
        ensures sealed { IfOk result
            (λ bytes. bytes ≡ sealed_snapshot_of self.old (content_of body.now)) }
        ensures same { self.new ≡ self.old }
    {
        let text = front(alloc, body)?;
        let remembered = tag_in(self.last(), text.as_slice());
        self.tagged(alloc, text, remembered)
    }

    // A text with its tag behind it: the one that is remembered, or one that is computed, and
    // remembered from then on.
    #[inline(always)]
    fn tagged(
        &mut self,
        alloc: Global,
        text: Bytes,
        remembered: Option<Digest>,
    ) -> Result<Bytes, Memory>
        requires { IfSome remembered (λ tag. tag.bytes ≡ hmac_of self.old text) }
        ensures sealed { IfOk result (λ bytes. bytes ≡ text ++ hmac_of self.old text) }
        ensures same { self.new ≡ self.old }
    {
        let tag = match remembered {
            Some(tag) => tag,
            None => self.tag_kept(alloc, text.as_slice()),
        };
        with_tag(text, &tag)
    }

    // The tag of a text.
    #[inline(always)]
    pub(crate) fn tag(&self, text: &[u8]) -> Digest
        ensures { result.bytes ≡ hmac_of self.now text.now }
    {
        match self.remembered(text) {
            Some(tag) => tag,
            None => self.computed(text),
        }
    }

    // The tag of a text, computed.
    #[inline(always)]
    fn computed(&self, text: &[u8]) -> Digest
        ensures { result.bytes ≡ hmac_of self.now text.now }
    {
        match &self.key {
            Some(key) => key.tag(text),
            None => HmacKey::new(&self.bytes).tag(text),
        }
    }

    // The tag of a text, computed, which is remembered from then on.
    #[inline(always)]
    fn tag_kept(&mut self, alloc: Global, text: &[u8]) -> Digest
        ensures tag { result.bytes ≡ hmac_of self.old text.now }
        ensures same { self.new ≡ self.old }
    {
        absorb(&mut self.key, &self.bytes);
        let tag = self.computed(text);
        if self.last_is_second {
            remember(alloc, &mut self.first, text, &tag);
        } else {
            remember(alloc, &mut self.second, text, &tag);
        }
        self.last_is_second = !self.last_is_second;
        tag
    }

    // The tag of a text, where it is one that is remembered.
    #[inline(always)]
    fn remembered(&self, text: &[u8]) -> Option<Digest>
        ensures { IfSome result (λ tag. tag.bytes ≡ hmac_of self.now text.now) }
    {
        match tag_in(self.last(), text) {
            Some(tag) => Some(tag),
            None => tag_in(self.before(), text),
        }
    }
}

impl TaggedText {
    ghost use Rattle.std.specs.Prelude.{◌≡◌, IsTrue, IfSome};

    // A copy of a text, with its tag. None where memory is wanting.
    fn copied(alloc: Global, text: &[u8], tag: &Digest) -> Option<TaggedText>
        ensures { IfSome result (λ it. (it.tag ≡ tag.now) × (it.text.items ≡ text.now)) }
    {
        let text = Vec::from_slice(alloc, text).ok()?;
        Some(TaggedText { text, tag: *tag })
    }

    // Whether it could become this text, with its tag, in the memory that it has.
    fn become_text(&mut self, text: &[u8], tag: &Digest) -> bool
        ensures { IsTrue result → (self.new.tag ≡ tag.now) × (self.new.text.items ≡ text.now) }
    {
        self.text.clear();
        if self.text.extend_from_slice(text).is_err() {
            return false;
        }
        self.tag = *tag;
        true
    }

    // Its tag, where this is its text, byte for byte.
    #[inline(always)]
    fn tag_of(&self, text: &[u8]) -> Option<Digest>
        ensures { IfSome result (λ tag. (tag ≡ self.now.tag) × (self.now.text.items ≡ text.now)) }
    {
        if self.text.as_slice() == text {
            Some(self.tag)
        } else {
            None
        }
    }
}

// The tag of a text, where it is this one.
#[inline(always)]
fn tag_in(tagged: Option<&TaggedText>, text: &[u8]) -> Option<Digest>
    ensures some { IfSome result (λ tag. IsSome tagged.entry) }
    ensures tag { IfSome result (λ tag. IfSome tagged.entry
        (λ it. (tag ≡ it.now.tag) × (it.now.text.items ≡ text.now))) }
{
    match tagged {
        Some(tagged) => tagged.tag_of(text),
        None => None,
    }
}

// Absorbs the key, where it isn't yet.
fn absorb(key: &mut Option<HmacKey>, bytes: &[u8; 32])
    requires { IfSome key.old (λ key. key ≡ bytes.now) }
    ensures { IfSome key.new (λ key. key ≡ bytes.now) }
{
    match key {
        Some(_) => {}
        None => *key = Some(HmacKey::new(bytes)),
    }
}

// Remembers a text with its tag in a place, in the memory of the one that stands there, or in more.
// Where there is none, nothing stands there.
fn remember(alloc: Global, place: &mut Option<TaggedText>, text: &[u8], tag: &Digest)
    ensures { IfSome place.new (λ it. (it.tag ≡ tag.now) × (it.text.items ≡ text.now)) }
{
    let is_kept = match place {
        Some(kept) => kept.become_text(text, tag),
        None => false,
    };
    if !is_kept {
        *place = TaggedText::copied(alloc, text, tag);
    }
}
