//! Snapshots: a place, a position and a state, sealed under the cell's key.

ghost use Rattle.std.specs.Prelude.{◌≡◌, ◌≤◌, ◌<◌, ◌++◌, ◌↔◌, IsTrue, IfOk, MatchOption, OnOk, OnErr, length};
ghost use Rattle.mm_bytes.specs.Limits.{last_position, limit_of};
ghost use Rattle.mm_digest.specs.Messages.{hmac_of};
ghost use Rattle.mm_seal.specs.Snapshot.{variant_of, place_spelling, IsPlace, snapshot_front, sealed_snapshot_of, IsOfKind, IsNoSnapshot};
ghost use Rattle.mm_seal.specs.Snapshot.{SpellsSnapshot, ReadsParts, OpensOffer, HasOneSpelling, front_head};
ghost use Rattle.mm_seal.specs.Parts.{parts_of, content_of, SpellsNoContent, SpellsContent, HasFieldsOf, HasHead, HasNumbersInFront};
ghost use Rattle.mm_seal.specs.Parts.{HasPlaceInFront, place_length};

use crate::field::{digest_at, version};
use crate::sealing::SealingKey;
use mm_bytes::{Bytes, LAST_POSITION, Memory, bytes_of_u32, bytes_of_u64, split_u32, split_u64};
use mm_digest::{Digest, Variant};
use std::alloc::Global;
use std::marker::Model;
use thiserror::Error;

/// Where in a platform's history a snapshot was made.
#[derive(Clone, Copy, PartialEq, Eq)]
pub enum Place {
    /// The summary.
    Basic(Digest),
    /// The anchor, and the register's value since; zero means "at the anchor".
    Opt { anchor: Digest, extension: Digest },
}

impl Place {
    /// The variant that the place is of.
    pub fn variant(&self) -> Variant
        ensures { result ≡ variant_of self.now }
    {
        match self {
            Place::Basic(_) => Variant::Basic,
            Place::Opt { .. } => Variant::Opt,
        }
    }
}

/// What a snapshot says, with the state borrowed.
#[derive(Clone, Copy)]
pub struct Body<'a> {
    /// The module's id.
    pub module: u8,
    pub place: Place,
    /// How many requests were run: at most 2^48.
    pub position: u64,
    pub state: &'a [u8],
}

/// Why an offer can't be taken apart.
#[derive(Clone, Copy, Debug, PartialEq, Eq, Error)]
pub enum PartsFault {
    /// The bytes are no snapshot's.
    #[error("the offer is not spelled")]
    Form,
    /// The bytes are a snapshot's of another variant or module.
    #[error("the offer is of another variant or module")]
    Kind,
}

/// Why an offer can't be opened.
#[derive(Clone, Copy, Debug, PartialEq, Eq, Error)]
pub enum OpenFault {
    /// The bytes are no snapshot's.
    #[error("the offer is not spelled")]
    Form,
    /// The bytes are a snapshot's of another variant or module.
    #[error("the offer is of another variant or module")]
    Kind,
    /// The tag is not the content's under the key.
    #[error("the offer's tag is wrong")]
    Tag,
}

/// An offered snapshot, taken apart: its content, the bytes that were signed, and its tag.
#[derive(Drop)]
pub struct Offered<'a> {
    body: Body<'a>,
    signed: &'a [u8],
    tag: [u8; 32],
}

impl<'a> Model for Offered<'a> {
    ghost use Rattle.std.specs.Prelude.{◌≡◌};
    ghost use Rattle.mm_seal.specs.Snapshot.{Snapshot, snapshot_front};
    ghost use Rattle.mm_seal.specs.Parts.{content_of};

    ghost Value = { Snapshot };

    ghost view = { λ o. record { content = content_of o.body; tag = o.tag } };

    ghost invariant = { λ o. o.signed.now ≡ snapshot_front (content_of o.body) };
}

impl<'a> Offered<'a> {
    ghost use Rattle.std.specs.Prelude.{◌≡◌, ◌↔◌, IsTrue};
    ghost use Rattle.mm_seal.specs.Snapshot.{tag_of, snapshot_front};
    ghost use Rattle.mm_seal.specs.Parts.{content_of};

    /// What the snapshot says.
    pub fn body(&self) -> Body<'a>
        ensures { content_of result ≡ self.now.content }
    {
        self.body
    }

    /// Whether the tag is the content's under this key: HMAC-SHA-256 of all bytes before the tag.
    pub fn tag_right(&self, key: &[u8; 32]) -> bool
        ensures { IsTrue result ↔ (self.now.tag ≡ tag_of key.now self.now.content) }
    {
        SealingKey::new(key).tag_right(self)
    }

    // What was signed.
    #[inline(always)]
    pub(crate) fn signed(&self) -> &[u8]
        ensures { result.now ≡ snapshot_front self.now.content }
    {
        self.signed
    }

    // Whether this is its tag.
    #[inline(always)]
    pub(crate) fn has_tag(&self, tag: &Digest) -> bool
        ensures { IsTrue result ↔ (self.now.tag ≡ tag.now.bytes) }
    {
        self.tag == tag.bytes
    }
}

/// The snapshot of this content, sealed under the key. The position is at most 2^48, and the state
/// has at most as many bytes as its module's id allows.
pub fn seal(alloc: Global, key: &[u8; 32], body: &Body<'_>) -> Result<Bytes, Memory>
    requires position { body.now.position ≤ last_position }
    requires state { length body.now.state.now ≤ limit_of body.now.module }
    ensures { IfOk result (λ bytes. bytes ≡ sealed_snapshot_of key.now (content_of body.now)) }
{
    seal_under(alloc, &SealingKey::new(key), body)
}

/// The same, under a key that is absorbed. Nothing more is remembered.
#[tactic(auto, unfolding(crate::specs::Snapshot::sealed_snapshot_of))]
#[inline(always)]
pub fn seal_under(alloc: Global, key: &SealingKey, body: &Body<'_>) -> Result<Bytes, Memory>
    requires position { body.now.position ≤ last_position }
    requires state { length body.now.state.now ≤ limit_of body.now.module }
    ensures { IfOk result (λ bytes. bytes ≡ sealed_snapshot_of key.now (content_of body.now)) }
{
    let text = front(alloc, body)?;
    let tag = key.tag(text.as_slice());
    with_tag(text, &tag)
}

// The text with this tag behind it.
#[inline(always)]
pub(crate) fn with_tag(mut text: Bytes, tag: &Digest) -> Result<Bytes, Memory>
    ensures { IfOk result (λ bytes. bytes ≡ text ++ tag.now.bytes) }
{
    text.append(&tag.bytes)?;
    Ok(text)
}

// What is signed of the body's snapshot, with memory for the whole.
#[inline(always)]
pub(crate) fn front(alloc: Global, body: &Body<'_>) -> Result<Bytes, Memory>
    requires { length body.now.state.now ≤ limit_of body.now.module }
    ensures { IfOk result (λ bytes. bytes ≡ snapshot_front (content_of body.now)) }
{
    let mut bytes = Bytes::with_capacity(alloc, sealed_len(body))?;
    put_front(&mut bytes, body)?;
    Ok(bytes)
}

// How many bytes the body's snapshot has.
fn sealed_len(body: &Body<'_>) -> usize
    requires { length body.now.state.now ≤ limit_of body.now.module }
{
    let place = match body.place {
        Place::Basic(_) => 32,
        Place::Opt { .. } => 64,
    };
    50 + place + body.state.len()
}

// Puts what is signed at the end.
fn put_front(bytes: &mut Bytes, body: &Body<'_>) -> Result<(), Memory>
    requires { length body.now.state.now ≤ limit_of body.now.module }
    ensures { OnOk result (bytes.new ≡ bytes.old ++ snapshot_front (content_of body.now)) }
{
    bytes.append(&head_of(body))?;
    put_place(bytes, &body.place)?;
    bytes.append(&bytes_of_u64(body.position))?;
    bytes.append(&bytes_of_u32(body.state.len() as u32))?;
    bytes.append(body.state)
}

// Puts the place at the end.
fn put_place(bytes: &mut Bytes, place: &Place) -> Result<(), Memory>
    ensures { OnOk result (bytes.new ≡ bytes.old ++ place_spelling place.now) }
{
    match place {
        Place::Basic(summary) => bytes.append(&summary.bytes),
        Place::Opt { anchor, extension } => {
            bytes.append(&anchor.bytes)?;
            bytes.append(&extension.bytes)
        }
    }
}

// The bytes before the place.
fn head_of(body: &Body<'_>) -> [u8; 6]
    ensures { result ≡ front_head (content_of body.now) }
{
    let id = body.module;
    [
        b'M',
        b'M',
        b'S',
        version(id),
        body.place.variant().byte(),
        id,
    ]
}

/// Takes an offer apart, and borrows its state. Form exactly where the bytes are no snapshot's,
/// Kind exactly where they are one of another variant or module. Takes no memory.
#[tactic(auto, using(crate::specs::SnapshotLaws::one_spelling))]
#[inline(always)]
pub fn parts(bytes: &[u8], variant: Variant, id: u8) -> Result<Offered<'_>, PartsFault>
    ensures reads { ReadsParts bytes.now variant id result }
    ensures parts { result ≡ parts_of variant id bytes.now }
    ensures one_spelling { HasOneSpelling }
{
    match offered_in(bytes) {
        None => Err(PartsFault::Form),
        Some(offered) => {
            if is_of_kind(&offered, variant, id) {
                Ok(offered)
            } else {
                Err(PartsFault::Kind)
            }
        }
    }
}

/// Takes an offer apart whose key is known. Form exactly where the bytes are no snapshot's, Kind
/// exactly where they are one of another variant or module, Tag exactly where neither holds and the
/// tag is not HMAC-SHA-256 of all bytes before it. Takes no memory.
pub fn open<'a>(
    bytes: &'a [u8],
    key: &[u8; 32],
    variant: Variant,
    id: u8,
) -> Result<Offered<'a>, OpenFault>
    ensures { OpensOffer bytes.now key.now variant id result }
{
    match parts(bytes, variant, id) {
        Err(PartsFault::Form) => Err(OpenFault::Form),
        Err(PartsFault::Kind) => Err(OpenFault::Kind),
        Ok(offered) => {
            if offered.tag_right(key) {
                Ok(offered)
            } else {
                Err(OpenFault::Tag)
            }
        }
    }
}

// Whether the snapshot is of this variant and module.
fn is_of_kind(offered: &Offered<'_>, variant: Variant, id: u8) -> bool
    ensures { IsTrue result ↔ IsOfKind variant id offered.now }
{
    let body = offered.body();
    body.place.variant() == variant && body.module == id
}

// The snapshot that these bytes spell.
#[inline(always)]
fn offered_in(bytes: &[u8]) -> Option<Offered<'_>>
    ensures { MatchOption result (IsNoSnapshot bytes.now) (SpellsSnapshot bytes.now) }
{
    let (signed, tag) = bytes.split_last_chunk::<32>()?;
    let body = body_of(signed)?;
    Some(Offered {
        body,
        signed,
        tag: *tag,
    })
}

// The content that these bytes are the front of.
#[inline(always)]
fn body_of(front: &[u8]) -> Option<Body<'_>>
    ensures { MatchOption result (SpellsNoContent front.now)
        (λ body. SpellsContent front.now (content_of body)) }
{
    let variant = variant_at(front)?;
    let (head, rest) = front.split_at(6);
    let (place, rest) = split_place(variant, rest);
    let (position, length, state) = split_numbers(rest)?;
    let body = Body {
        module: head[5],
        place,
        position,
        state,
    };
    if is_body(&body, head, length) {
        Some(body)
    } else {
        None
    }
}

// The variant that the bytes name, where they are long enough for its fields.
fn variant_at(front: &[u8]) -> Option<Variant>
    ensures { MatchOption result (SpellsNoContent front.now) (HasFieldsOf front.now) }
{
    if front.len() < 50 {
        return None;
    }
    let variant = Variant::of_byte(front[4])?;
    if front.len() < 18 + place_len(variant) {
        return None;
    }
    Some(variant)
}

// How many bytes a place has.
fn place_len(variant: Variant) -> usize
    ensures { result ≡ place_length variant }
{
    match variant {
        Variant::Basic => 32,
        Variant::Opt => 64,
    }
}

// The place in front, and the rest.
fn split_place(variant: Variant, bytes: &[u8]) -> (Place, &[u8])
    requires { place_length variant ≤ length bytes.now }
    ensures { HasPlaceInFront bytes.now variant result.0 result.1.now }
{
    let (place, rest) = bytes.split_at(place_len(variant));
    (place_in(variant, place), rest)
}

// The place that these bytes spell.
fn place_in(variant: Variant, bytes: &[u8]) -> Place
    requires { length bytes.now ≡ place_length variant }
    ensures spelled { place_spelling result ≡ bytes.now }
    ensures variant { variant_of result ≡ variant }
    ensures place { IsPlace result }
{
    let digest = digest_at(bytes, 0);
    match variant {
        Variant::Basic => Place::Basic(digest),
        Variant::Opt => Place::Opt {
            anchor: digest,
            extension: digest_at(bytes, 32),
        },
    }
}

// The position and the length of the state in front, and the rest. None exactly where there are
// fewer bytes.
fn split_numbers(bytes: &[u8]) -> Option<(u64, u32, &[u8])>
    ensures { MatchOption result (length bytes.now < 12)
        (λ p. HasNumbersInFront bytes.now p.0 p.1 p.2.now) }
{
    let (position, rest) = split_u64(bytes)?;
    let (length, state) = split_u32(rest)?;
    Some((position, length, state))
}

// Whether the head is the body's, and the body is within its bounds and has this length.
fn is_body(body: &Body<'_>, head: &[u8], length: u32) -> bool
    ensures { IsTrue result ↔ HasHead (content_of body.now) head.now length }
{
    head == head_of(body).as_slice()
        && body.position <= LAST_POSITION
        && body.state.len() == length as usize
        && body.state.len() <= limit(body.module)
}

// The most bytes that a state has.
fn limit(id: u8) -> usize
    ensures { result ≡ limit_of id }
{
    if id < 128 { 65536 } else { 1048576 }
}
