//! Where bytes go.

ghost use Rattle.std.specs.Prelude.{◌≡◌, ◌+◌, ◌-◌, ◌↔◌, ◌<◌, ◌≤◌, ◌⊎◌, List, ℕ, [], Option, Some, length, min, vec_capacity, Contains, IfOk, IsErr, OnErr};
ghost use Rattle.std.specs.Io.KnownBytes.{WriteAppends};
ghost use Rattle.mm_bytes.specs.Limits.{next_count, CountsFaults};
ghost use Rattle.mm_base.specs.Streams.{Intake, intake_of, intake_after_give, SinkSends, IsCutShort};

use mm_bytes::{Failed, Memory, WriteFault};
use std::alloc::Global;
use std::marker::Model;

/// A stream of bytes to give to.
///
/// `received` is what it received so far, where the sink tells that, and `faults` its count of
/// faults.
pub trait Sink {
    ghost received: { Self → Option (List ℕ) };

    ghost faults: { Self → ℕ };

    /// Receives the first bytes of `piece` and answers how many, at least one where there is one.
    /// After `Failed` nothing was received.
    fn give(&mut self, piece: &[u8]) -> Result<usize, Failed>
        ensures within { IfOk result (λ count. count ≤ length piece.now) }
        ensures some { IfOk result (λ count. 0 < length piece.now → 0 < count) }
        ensures given { WriteAppends (received self.old) (received self.new) result piece.now }
        ensures counted { CountsFaults (faults self.old) (faults self.new) result };
}

/// A sink over memory of a fixed room, whose calls fail where they are told to or find no room
/// left.
#[derive(Drop)]
pub struct MemSink {
    received: Vec<u8>,
    room: usize,
    failing: Vec<u64>,
    calls: u64,
    faults: u64,
}

impl Model for MemSink {
    ghost Value = { Intake };

    ghost view = { λ sink. record {
      received = sink.received.items;
      room = sink.room;
      failing = sink.failing.items;
      calls = sink.calls;
      faults = sink.faults;
    } };

    ghost invariant = { λ sink. length sink.received.items + sink.room
        ≤ vec_capacity sink.received };
}

impl MemSink {
    /// A sink with room for so many bytes, which are reserved at once. `failing` lists the numbers
    /// of the calls that are to fail, from 1.
    pub fn new(alloc: Global, room: usize, failing: &[u64]) -> Result<MemSink, Memory>
        ensures { IfOk result (λ sink. sink ≡ intake_of room failing.now) }
    {
        let received = Vec::with_capacity(alloc, room)?;
        let failing = Vec::from_slice(alloc, failing)?;
        Ok(MemSink {
            received,
            room,
            failing,
            calls: 0,
            faults: 0,
        })
    }

    /// The bytes received so far.
    pub fn content(&self) -> &[u8]
        ensures { result.now ≡ self.now.received }
    {
        self.received.as_slice()
    }
}

impl Sink for MemSink {
    ghost received = { λ sink. Some sink.received };

    ghost faults = { λ sink. sink.faults };

    fn give(&mut self, piece: &[u8]) -> Result<usize, Failed>
        ensures within { IfOk result (λ count. count ≤ length piece.now) }
        ensures some { IfOk result (λ count. 0 < length piece.now → 0 < count) }
        ensures given { WriteAppends (Some self.old.received) (Some self.new.received) result
            piece.now }
        ensures counted { CountsFaults self.old.faults self.new.faults result }
        ensures failing { IsErr result ↔ (Contains self.old.failing (next_count self.old.calls)
            ⊎ ((self.old.room ≡ 0) × (0 < length piece.now))) }
        ensures taken { IfOk result (λ count. count ≡ min (length piece.now) self.old.room) }
        ensures after { self.new ≡ intake_after_give self.old piece.now result }
    {
        self.calls = self.calls.saturating_add(1);
        let is_full = self.room == 0 && !piece.is_empty();
        if is_full || self.failing.contains(&self.calls) {
            self.faults = self.faults.saturating_add(1);
            return Err(Failed);
        }
        let count = piece.len().min(self.room);
        let (front, _) = piece.split_at(count);
        self.received.extend_from_slice(front).unwrap();
        self.room -= count;
        Ok(count)
    }
}

/// Gives all these bytes to the sink. After `WriteFault` a prefix of them went out, and not all.
pub fn write_all<K: Sink>(sink: &mut K, bytes: &[u8]) -> Result<(), WriteFault>
    ensures sent { SinkSends (K.received sink.old) (K.received sink.new) bytes.now result }
    ensures cut { OnErr result (IsCutShort (K.received sink.old) (K.received sink.new) bytes.now) }
    ensures counted { CountsFaults (K.faults sink.old) (K.faults sink.new) result }
{
    let mut rest = bytes;
    'pieces: while !rest.is_empty() {
        let Ok(count) = sink.give(rest) else {
            return Err(WriteFault);
        };
        let (_, left) = rest.split_at(count);
        rest = left;
    }
    Ok(())
}
