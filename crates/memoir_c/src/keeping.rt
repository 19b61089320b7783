//! What was sealed last, kept by the host between two calls.

ghost use Rattle.std.specs.Prelude.{◌≡◌, ◌↔◌, ◌≤◌, ◌<◌, ◌-◌, ◌^◌, List, ℕ, IfSome, IsTrue, length};
ghost use Rattle.mm_digest.specs.Messages.{hmac_of};
ghost use Rattle.memoir_c.specs.Numbers.{IsText, IsKept, no_text, nothing_kept};

use mm_call::KeptKey;
use mm_digest::{Digest, HmacKey};
use mm_seal::{SealingKey, TaggedText};
use std::alloc::Global;

/// A text at the front of a memory: its length, and its tag. None where the memory has fewer bytes.
#[repr(C)]
#[derive(Clone, Copy, Drop)]
pub struct Text {
    pub length: usize,
    pub tag: [u8; 32],
}

/// What was sealed last under a key, and what before that: two texts, each at the front of a half
/// of a memory. They are what the library wrote there.
#[repr(C)]
#[derive(Clone, Copy, Drop)]
pub struct Kept {
    pub key: [u8; 32],
    pub last: Text,
    pub before: Text,
}

/// Nothing is kept: to begin with, and at any time. No key is left here; the texts in the memory
/// are the host's to wipe.
#[unsafe(no_mangle)]
pub extern "C" fn memoir_forget(kept: &mut Kept)
    ensures kept { (memory : List ℕ) → length memory < 2 ^ 63 → IsKept kept.new memory }
    ensures forgotten { kept.new ≡ nothing_kept }
{
    *kept = nothing();
}

/// Whether the texts in the memory have the tags that are kept of them, under the key that is kept:
/// 1 where they have, else 0. It takes the two HMACs that keeping them spares.
#[unsafe(no_mangle)]
pub extern "C" fn memoir_is_kept(kept: &Kept, memory: &[u8]) -> u8
    ensures kept { (result ≡ 1) ↔ IsKept kept.now memory.now }
    ensures bit { result ≤ 1 }
{
    u8::from(are_kept(kept, memory))
}

fn are_kept(kept: &Kept, memory: &[u8]) -> bool
    ensures { IsTrue result ↔ IsKept kept.now memory.now }
{
    let (first, second) = memory.split_at(memory.len() / 2);
    is_text(&kept.key, &kept.last, first) && is_text(&kept.key, &kept.before, second)
}

// Whether the text at the front of this memory has its tag.
fn is_text(key: &[u8; 32], text: &Text, memory: &[u8]) -> bool
    ensures { IsTrue result ↔ IsText key.now text.now memory.now }
{
    if text.length > memory.len() {
        return true;
    }
    let tag = HmacKey::new(key).tag(&memory[..text.length]);
    tag.bytes == text.tag
}

fn nothing() -> Kept
    ensures last { result.last.length ≡ 2 ^ 64 - 1 }
    ensures before { result.before.length ≡ 2 ^ 64 - 1 }
    ensures nothing { result ≡ nothing_kept }
{
    Kept {
        key: [0; 32],
        last: no_text(),
        before: no_text(),
    }
}

fn no_text() -> Text
    ensures length { result.length ≡ 2 ^ 64 - 1 }
    ensures none { result ≡ no_text }
{
    Text {
        length: usize::MAX,
        tag: [0; 32],
    }
}

/// The key that is kept, with what it remembers. Where memory is wanting, it remembers less.
pub fn key_kept(alloc: Global, kept: &Kept, memory: &[u8]) -> KeptKey
    requires { IsKept kept.now memory.now }
{
    let (first, second) = memory.split_at(memory.len() / 2);
    let last = tagged_in(alloc, &kept.last, first);
    let before = tagged_in(alloc, &kept.before, second);
    KeptKey::of(SealingKey::remembering(&kept.key, last, before))
}

// The text at the front of this memory.
fn tagged_in(alloc: Global, text: &Text, memory: &[u8]) -> Option<TaggedText>
    ensures { (key : List ℕ) → IsText key text.now memory.now
        → IfSome result (λ it. it.tag.bytes ≡ hmac_of key it.text.items) }
{
    if text.length > memory.len() {
        return None;
    }
    let mut copy = Vec::new(alloc);
    if copy.extend_from_slice(&memory[..text.length]).is_err() {
        return None;
    }
    Some(TaggedText {
        text: copy,
        tag: Digest { bytes: text.tag },
    })
}

/// Keeps the key, with what it remembers, as far as there is room.
pub fn keep(keys: &KeptKey, kept: &mut Kept, memory: &mut [u8])
    ensures { IsKept kept.new memory.new }
{
    match keys.key() {
        None => *kept = nothing(),
        Some(key) => *kept = put_key(key, memory),
    }
}

fn put_key(key: &SealingKey, memory: &mut [u8]) -> Kept
    ensures { IsKept result memory.new }
{
    let half = memory.len() / 2;
    let (first, second) = memory.split_at_mut(half);
    let last = put_text(key.last(), first);
    let before = put_text(key.before(), second);
    Kept {
        key: *key.bytes(),
        last,
        before,
    }
}

// Writes a text to the front of a memory.
fn put_text(tagged: Option<&TaggedText>, memory: &mut [u8]) -> Text
    ensures length { length memory.new ≡ length memory.old }
    ensures text { (key : List ℕ)
        → IfSome tagged.entry (λ it. it.now.tag.bytes ≡ hmac_of key it.now.text.items)
        → IsText key result memory.new }
{
    match tagged {
        Some(tagged) if tagged.text.len() <= memory.len() => put(tagged, memory),
        _ => no_text(),
    }
}

// Writes this text, for which there is room.
fn put(tagged: &TaggedText, memory: &mut [u8]) -> Text
    requires { length tagged.now.text.items ≤ length memory.old }
    ensures length { length memory.new ≡ length memory.old }
    ensures text { (key : List ℕ) → tagged.now.tag.bytes ≡ hmac_of key tagged.now.text.items
        → IsText key result memory.new }
{
    let text = tagged.text.as_slice();
    memory[..text.len()].copy_from_slice(text);
    Text {
        length: text.len(),
        tag: tagged.tag.bytes,
    }
}
