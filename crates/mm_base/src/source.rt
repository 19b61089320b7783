//! Where bytes come from.

ghost use Rattle.std.specs.Prelude.{◌≡◌, ◌+◌, ◌↔◌, ◌<◌, ◌≤◌, List, ℕ, Option, Some, drop, take, length, min, Contains, IfOk, IsErr, OnOk};
ghost use Rattle.std.specs.Io.KnownBytes.{ReadConsumes};
ghost use Rattle.mm_bytes.specs.Limits.{next_count, CountsFaults};
ghost use Rattle.mm_base.specs.Streams.{Supply, supply_of, supply_after_take};

use mm_bytes::{Failed, Memory};
use std::alloc::Global;
use std::marker::Model;

/// A stream of bytes to take from.
///
/// `left` is what is left of it, where the source tells that, and `faults` its count of faults.
pub trait Source {
    ghost left: { Self → Option (List ℕ) };

    ghost faults: { Self → ℕ };

    /// Puts the next bytes in front of `buf` and answers how many, at most as many as `buf` has.
    /// For a `buf` with room, none means that the input has ended. After `Failed` nothing was
    /// taken.
    fn take(&mut self, buf: &mut [u8]) -> Result<usize, Failed>
        ensures within { IfOk result (λ count. count ≤ length buf.new) }
        ensures taken { ReadConsumes (left self.old) (left self.new) result buf.new }
        ensures counted { CountsFaults (faults self.old) (faults self.new) result };
}

/// A source over memory, whose calls fail where they are told to.
#[derive(Drop)]
pub struct MemSource {
    content: Vec<u8>,
    at: usize,
    piece: usize,
    failing: Vec<u64>,
    calls: u64,
    faults: u64,
}

impl Model for MemSource {
    ghost Value = { Supply };

    ghost view = { λ source. record {
      left = drop source.at source.content.items;
      piece = source.piece;
      failing = source.failing.items;
      calls = source.calls;
      faults = source.faults;
    } };

    ghost invariant = { λ source. (source.at ≤ length source.content.items) × (1 ≤ source.piece) };
}

impl MemSource {
    /// A source of these bytes. `failing` lists the numbers of the calls that are to fail, from 1.
    pub fn new(alloc: Global, content: &[u8], failing: &[u64]) -> Result<MemSource, Memory>
        ensures { IfOk result (λ source. source ≡ supply_of content.now failing.now usize.MAX) }
    {
        MemSource::in_pieces(alloc, content, failing, usize::MAX)
    }

    /// The same, with at most `piece` bytes a call.
    pub fn in_pieces(
        alloc: Global,
        content: &[u8],
        failing: &[u64],
        piece: usize,
    ) -> Result<MemSource, Memory>
        requires { 1 ≤ piece }
        ensures { IfOk result (λ source. source ≡ supply_of content.now failing.now piece) }
    {
        let content = Vec::from_slice(alloc, content)?;
        let failing = Vec::from_slice(alloc, failing)?;
        Ok(MemSource {
            content,
            at: 0,
            piece,
            failing,
            calls: 0,
            faults: 0,
        })
    }
}

impl Source for MemSource {
    ghost left = { λ source. Some source.left };

    ghost faults = { λ source. source.faults };

    fn take(&mut self, buf: &mut [u8]) -> Result<usize, Failed>
        ensures within { IfOk result (λ count. count ≤ length buf.new) }
        ensures taken { ReadConsumes (Some self.old.left) (Some self.new.left) result buf.new }
        ensures counted { CountsFaults self.old.faults self.new.faults result }
        ensures failing { IsErr result ↔ Contains self.old.failing (next_count self.old.calls) }
        ensures given { IfOk result
            (λ count. count ≡ min (min (length self.old.left) self.old.piece) (length buf.old)) }
        ensures after { self.new ≡ supply_after_take self.old result }
    {
        self.calls = self.calls.saturating_add(1);
        if self.failing.contains(&self.calls) {
            self.faults = self.faults.saturating_add(1);
            return Err(Failed);
        }
        let (_, left) = self.content.split_at(self.at);
        let count = left.len().min(self.piece).min(buf.len());
        copy_front(left, buf, count);
        self.at += count;
        Ok(count)
    }
}

/// Copies the first `count` bytes of `from` to the front of `into`.
pub fn copy_front(from: &[u8], into: &mut [u8], count: usize)
    requires from_has { count ≤ length from.now }
    requires into_has { count ≤ length into.old }
    ensures { take count into.new ≡ take count from.now }
{
    let (next, _) = from.split_at(count);
    let (front, _) = into.split_at_mut(count);
    front.copy_from_slice(next);
}
