//! The messages of what is asked.

ghost use Rattle.std.specs.Prelude.{◌≡◌, ℕ, List, [], ◌∷◌, ◌++◌, IfOk, OnOk};
ghost use Rattle.std.specs.Str.{bytes_eq};
ghost use Rattle.sha2.specs.Sha256.{sha256};
ghost use Rattle.mm_digest.specs.Messages.{zero_bytes, anchored_message, extended_message, extended_digest_of};
ghost use Rattle.mm_module.specs.Batches.{batch_of};
ghost use Rattle.mm_model.specs.Chains.{link_message, guard_message};
ghost use Rattle.mm_model.specs.Messages.{form_messages, point_messages};
ghost use Rattle.mm_history.specs.Naming.{messages_at_place};

use crate::known_digests::KnownDigests;
use crate::message::Message;
use mm_bytes::{Bytes, Memory};
use mm_digest::{Digest, zero};
use mm_module::Batch;
use mm_seal::Place;
use std::alloc::Global;

// Puts two byte lists at the end.
fn append_both(bytes: &mut Bytes, first: &[u8], second: &[u8]) -> Result<(), Memory>
    ensures { OnOk result (bytes.new ≡ bytes.old ++ (first.now ++ second.now)) }
{
    bytes.append(first)?;
    bytes.append(second)
}

/// Two byte lists, one after the other.
pub fn joined(alloc: Global, first: &[u8], second: &[u8]) -> Result<Bytes, Memory>
    ensures { IfOk result (λ bytes. bytes ≡ first.now ++ second.now) }
{
    let mut bytes = Bytes::with_capacity(alloc, first.len() + second.len())?;
    append_both(&mut bytes, first, second)?;
    Ok(bytes)
}

// A byte that tells the kind, and two byte lists.
fn tagged(alloc: Global, tag: u8, first: &[u8], second: &[u8]) -> Result<Bytes, Memory>
    ensures { IfOk result (λ bytes. bytes ≡ tag ∷ (first.now ++ second.now)) }
{
    let mut bytes = Bytes::with_capacity(alloc, 33 + second.len())?;
    bytes.push(tag)?;
    append_both(&mut bytes, first, second)?;
    Ok(bytes)
}

/// The message by which a segment is closed: byte 03, the anchor and the register's value.
pub fn anchored_message(alloc: Global, anchor: &Digest, register: &Digest) -> Result<Bytes, Memory>
    ensures { IfOk result (λ bytes. bytes ≡ anchored_message anchor.now.bytes register.now.bytes) }
{
    tagged(alloc, 3, &anchor.bytes, &register.bytes)
}

// The message by which a batch follows a summary.
fn link_message(alloc: Global, summary: &Digest, batch: Batch<'_>) -> Result<Bytes, Memory>
    ensures { IfOk result (λ bytes. bytes ≡ link_message summary.now.bytes (batch_of batch.entry)) }
{
    match batch {
        Batch::One(request) => tagged(alloc, 1, &summary.bytes, request),
        Batch::Many(text) => tagged(alloc, 4, &summary.bytes, text),
    }
}

// The message that a batch makes under the barrier.
pub(crate) fn guard_message(
    alloc: Global,
    barrier: &[u8; 32],
    batch: Batch<'_>,
) -> Result<Bytes, Memory>
    ensures { IfOk result (λ bytes. bytes ≡ guard_message barrier.now (batch_of batch.entry)) }
{
    match batch {
        Batch::One(request) => tagged(alloc, 2, barrier, request),
        Batch::Many(text) => tagged(alloc, 5, barrier, text),
    }
}

// Lists a message, if there was memory for it.
fn list_one(message: Result<Bytes, Memory>, messages: &mut Vec<Message>) -> Result<(), Memory>
    ensures { (text : List ℕ) → IfOk message (λ bytes. bytes ≡ text)
        → OnOk result (messages.new.items ≡ messages.old.items ++ text ∷ []) }
{
    messages.push(Message::hashed(message?))?;
    Ok(())
}

/// Lists a message that has this digest, if there was memory for it: it isn't hashed again.
pub fn list_known(
    message: Result<Bytes, Memory>,
    digest: &Digest,
    messages: &mut Vec<Message>,
) -> Result<(), Memory>
    requires { IfOk message (λ bytes. digest.now.bytes ≡ sha256 bytes) }
    ensures { (text : List ℕ) → IfOk message (λ bytes. bytes ≡ text)
        → OnOk result (messages.new.items ≡ messages.old.items ++ text ∷ []) }
{
    messages.push(Message::known(message?, digest))?;
    Ok(())
}

// Lists the messages of one form of an offered place, at which the guard may come next.
#[tactic(auto, unfolding(mm_digest::specs::Messages::extended_digest_of, mm_digest::specs::Messages::anchored_digest_of))]
fn list_form(
    alloc: Global,
    known: &mut KnownDigests,
    anchor: &Digest,
    extension: &Digest,
    value: &Digest,
    messages: &mut Vec<Message>,
) -> Result<(), Memory>
    ensures { OnOk result (messages.new.items ≡ messages.old.items
        ++ form_messages anchor.now.bytes extension.now.bytes value.now.bytes) }
{
    let next = known.extended(extension, value);
    list_known(
        joined(alloc, &extension.bytes, &value.bytes),
        &next,
        messages,
    )?;
    let shut = known.anchored(anchor, &next);
    list_known(anchored_message(alloc, anchor, &next), &shut, messages)
}

// Lists the messages of both forms of an offered place of Opt.
#[tactic(auto, unfolding(mm_digest::specs::Messages::anchored_digest_of))]
fn list_point(
    alloc: Global,
    known: &mut KnownDigests,
    anchor: &Digest,
    extension: &Digest,
    value: &Digest,
    messages: &mut Vec<Message>,
) -> Result<(), Memory>
    ensures { OnOk result (messages.new.items ≡ messages.old.items
        ++ point_messages anchor.now.bytes extension.now.bytes value.now.bytes) }
{
    list_form(alloc, known, anchor, extension, value, messages)?;
    if extension.bytes == zero().bytes {
        return Ok(());
    }
    let shut = known.anchored(anchor, extension);
    list_known(anchored_message(alloc, anchor, extension), &shut, messages)?;
    list_form(alloc, known, &shut, &zero(), value, messages)
}

/// Lists the messages of a call that offers this place, rightly, and asks for the batch.
#[tactic(auto, unfolding(mm_model::specs::Chains::guard))]
pub fn list_place(
    alloc: Global,
    known: &mut KnownDigests,
    barrier: &[u8; 32],
    place: &Place,
    batch: Batch<'_>,
    messages: &mut Vec<Message>,
) -> Result<(), Memory>
    ensures { OnOk result (messages.new.items ≡ messages.old.items
        ++ messages_at_place barrier.now place.now (batch_of batch.entry)) }
{
    match place {
        Place::Basic(summary) => list_one(link_message(alloc, summary, batch), messages),
        Place::Opt { anchor, extension } => {
            let value = known.guard(barrier, batch);
            list_known(guard_message(alloc, barrier, batch), &value, messages)?;
            list_point(alloc, known, anchor, extension, &value, messages)
        }
    }
}
