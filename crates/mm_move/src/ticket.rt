//! Tickets: what a retired platform gives to the one that was invited, sealed under the link's key.

ghost use Rattle.std.specs.Prelude.{◌≡◌, ◌≤◌, ◌++◌, [], IfOk, OnOk, MatchOption, true, false, length};
ghost use Rattle.mm_bytes.specs.Limits.{eight_bytes, four_bytes, last_position, limit_of};
ghost use Rattle.mm_seal.specs.Parts.{content_of, is_bounded};
ghost use Rattle.mm_move.specs.Tickets.{IsAtAnchor, summary_in, place_at, ticket_content, ticket_front, sealed_ticket, tagged_ticket_in, is_for, is_spelled_by, ticket_of};

use crate::fields::{number_at, part, variant_in};
use mm_bytes::{Bytes, LAST_POSITION, Memory, bytes_of_u32, bytes_of_u64};
use mm_digest::{Digest, HmacKey, Variant, zero};
use mm_seal::{Body, PartsFault, Place};
use std::alloc::Global;
use std::marker::Model;

const FRONT_LENGTH: usize = 82;

const TAG_LENGTH: usize = 32;

/// What a ticket says, with the state borrowed.
#[derive(Clone, Copy)]
pub struct Ticket<'a> {
    /// The nonce of the invitation that the ticket is for.
    pub nonce: [u8; 32],
    /// What the module's snapshot says where the module left: at a summary, or at an anchor.
    pub body: Body<'a>,
}

/// A ticket that was taken apart: what it says, the bytes that were signed, and its tag.
#[derive(Drop)]
pub struct OfferedTicket<'a> {
    ticket: Ticket<'a>,
    signed: &'a [u8],
    tag: [u8; 32],
}

impl<'a> Model for OfferedTicket<'a> {
    ghost use Rattle.std.specs.Prelude.{◌≡◌};
    ghost use Rattle.mm_move.specs.Tickets.{TaggedTicket, ticket_content, signed_bytes};

    ghost Value = { TaggedTicket };

    ghost view = { λ o. record { ticket = ticket_content o.ticket; tag = o.tag } };

    ghost invariant = { λ o. o.signed.now ≡ signed_bytes (ticket_content o.ticket) };
}

impl<'a> OfferedTicket<'a> {
    ghost use Rattle.std.specs.Prelude.{◌≡◌};
    ghost use Rattle.std.specs.Str.{bytes_eq};
    ghost use Rattle.mm_move.specs.Tickets.{ticket_content, ticket_tag};

    /// What the ticket says.
    pub fn ticket(&self) -> Ticket<'a>
        ensures { ticket_content result ≡ self.now.ticket }
    {
        self.ticket
    }

    /// Whether the tag is the ticket's under this key: HMAC-SHA-256 of all bytes before the tag.
    pub fn tag_right(&self, key: &[u8; 32]) -> bool
        ensures { result ≡ bytes_eq self.now.tag (ticket_tag key.now self.now.ticket) }
    {
        let tag = HmacKey::new(key).tag(self.signed);
        self.tag == tag.bytes
    }
}

/// The place at this summary, or at this anchor, where the register's value is zero.
pub fn place_at(variant: Variant, summary: Digest) -> Place
    ensures place { result ≡ place_at variant summary }
    ensures anchor { IsAtAnchor result }
{
    match variant {
        Variant::Basic => Place::Basic(summary),
        Variant::Opt => Place::Opt {
            anchor: summary,
            extension: zero(),
        },
    }
}

/// The bytes of this ticket, sealed under the key. Its position is at most 2^48, and its state has
/// at most as many bytes as the module's id allows.
pub fn ticket_bytes(alloc: Global, key: &[u8; 32], ticket: &Ticket<'_>) -> Result<Bytes, Memory>
    requires place { IsAtAnchor ticket.now.body.place }
    requires position { ticket.now.body.position ≤ last_position }
    requires state { length ticket.now.body.state.now ≤ limit_of ticket.now.body.module }
    ensures { IfOk result (λ bytes. bytes ≡ sealed_ticket key.now (ticket_content ticket.now)) }
{
    let room = FRONT_LENGTH + ticket.body.state.len() + TAG_LENGTH;
    let mut bytes = Bytes::with_capacity(alloc, room)?;
    put_sealed(key, ticket, &mut bytes)?;
    Ok(bytes)
}

// Puts the bytes of a ticket where there are none.
#[tactic(auto, unfolding(crate::specs::Tickets::sealed_ticket))]
fn put_sealed(key: &[u8; 32], ticket: &Ticket<'_>, into: &mut Bytes) -> Result<(), Memory>
    requires nothing { into.old ≡ [] }
    requires state { length ticket.now.body.state.now ≤ limit_of ticket.now.body.module }
    ensures { OnOk result (into.new ≡ sealed_ticket key.now (ticket_content ticket.now)) }
{
    into.append(&front_of(ticket))?;
    into.append(ticket.body.state)?;
    let tag = HmacKey::new(key).tag(into.as_slice());
    into.append(&tag.bytes)
}

// What stands before the state.
#[tactic(auto, unfolding(crate::specs::Tickets::ticket_front))]
fn front_of(ticket: &Ticket<'_>) -> [u8; FRONT_LENGTH]
    requires { length ticket.now.body.state.now ≤ limit_of ticket.now.body.module }
    ensures { result ≡ ticket_front (ticket_content ticket.now) }
{
    let body = &ticket.body;
    let mut bytes = [0; FRONT_LENGTH];
    let variant = body.place.variant();
    let head = [b'M', b'M', b'T', b'1', variant.byte(), body.module];
    let (front, rest) = bytes.split_at_mut(6);
    front.copy_from_slice(&head);
    let (nonce, rest) = rest.split_at_mut(32);
    nonce.copy_from_slice(&ticket.nonce);
    let (summary, counts) = rest.split_at_mut(32);
    summary.copy_from_slice(&summary_of(&body.place).bytes);
    counts.copy_from_slice(&counts_of(body));
    bytes
}

// The position, and the length of the state.
fn counts_of(body: &Body<'_>) -> [u8; 12]
    requires { length body.now.state.now ≤ limit_of body.now.module }
    ensures { result ≡ eight_bytes body.now.position ++ four_bytes (length body.now.state.now) }
{
    let mut bytes = [0; 12];
    let (position, length) = bytes.split_at_mut(8);
    position.copy_from_slice(&bytes_of_u64(body.position));
    length.copy_from_slice(&bytes_of_u32(body.state.len() as u32));
    bytes
}

/// The summary, or the anchor.
pub fn summary_of(place: &Place) -> Digest
    ensures { result ≡ summary_in place.now }
{
    match place {
        Place::Basic(summary) => *summary,
        Place::Opt { anchor, .. } => *anchor,
    }
}

/// Takes a ticket apart, and borrows its state. Form exactly where the bytes are no ticket's, Kind
/// exactly where they are one of another variant or module. Takes no memory.
#[tactic(auto, unfolding(crate::specs::Tickets::ticket_of))]
pub fn read_ticket(bytes: &[u8], variant: Variant, id: u8) -> Result<OfferedTicket<'_>, PartsFault>
    ensures { result ≡ ticket_of variant id bytes.now }
{
    match offered_in(bytes) {
        None => Err(PartsFault::Form),
        Some(offered) => {
            if is_for(&offered, variant, id) {
                Ok(offered)
            } else {
                Err(PartsFault::Kind)
            }
        }
    }
}

// Whether the ticket is of this variant and module.
fn is_for(offered: &OfferedTicket<'_>, variant: Variant, id: u8) -> bool
    ensures { result ≡ is_for variant id offered.now }
{
    let body = offered.ticket.body;
    body.place.variant() == variant && body.module == id
}

// The ticket that these bytes spell.
fn offered_in(bytes: &[u8]) -> Option<OfferedTicket<'_>>
    ensures { MatchOption result (is_spelled_by bytes.now (tagged_ticket_in bytes.now) ≡ false)
        (λ offered. (offered ≡ tagged_ticket_in bytes.now)
        × (is_spelled_by bytes.now (tagged_ticket_in bytes.now) ≡ true)) }
{
    if bytes.len() < FRONT_LENGTH + TAG_LENGTH {
        return None;
    }
    let ticket = ticket_in(bytes);
    if !is_spelled_by(bytes, &ticket) {
        return None;
    }
    let (signed, tag) = bytes.split_last_chunk::<TAG_LENGTH>()?;
    Some(OfferedTicket {
        ticket,
        signed,
        tag: *tag,
    })
}

// The only ticket that the bytes may spell.
#[tactic(auto, unfolding(crate::specs::Tickets::tagged_ticket_in))]
fn ticket_in(bytes: &[u8]) -> Ticket<'_>
    requires { 114 ≤ length bytes.now }
    ensures { ticket_content result ≡ (tagged_ticket_in bytes.now).ticket }
{
    let summary = Digest {
        bytes: part(bytes, 38),
    };
    Ticket {
        nonce: part(bytes, 6),
        body: Body {
            module: bytes[5],
            place: place_at(variant_in(bytes), summary),
            position: number_at(bytes, 70),
            state: &bytes[FRONT_LENGTH..bytes.len() - TAG_LENGTH],
        },
    }
}

// Whether the ticket is within its bounds, and these bytes are its own, with their tag.
fn is_spelled_by(bytes: &[u8], ticket: &Ticket<'_>) -> bool
    requires long { 114 ≤ length bytes.now }
    requires ticket { ticket_content ticket.now ≡ (tagged_ticket_in bytes.now).ticket }
    ensures { result ≡ is_spelled_by bytes.now (tagged_ticket_in bytes.now) }
{
    if !is_bounded(ticket) {
        return false;
    }
    let (front, _) = bytes.split_at(FRONT_LENGTH);
    front == front_of(ticket).as_slice()
}

// Whether the position and the state are within their bounds.
fn is_bounded(ticket: &Ticket<'_>) -> bool
    ensures { result ≡ is_bounded (content_of ticket.now.body) }
{
    let body = ticket.body;
    body.position <= LAST_POSITION && body.state.len() <= limit(body.module)
}

// The most bytes that a state has.
fn limit(id: u8) -> usize
    ensures { result ≡ limit_of id }
{
    if id < 128 { 65536 } else { 1048576 }
}
