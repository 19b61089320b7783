//! The events of a schedule.

ghost use Rattle.std.specs.Prelude.{◌≡◌, ◌+◌, ◌<◌, ◌≤◌, [], ◌∷◌, ◌++◌};

use mm_bytes::Bytes;
use mm_digest::{Digest, zero};
use mm_platform::{Meddle, Stop};

/// The snapshot that a call offers.
#[derive(Drop)]
pub enum Offer {
    /// The issued snapshot with this number.
    Number(u32),
    /// The issued snapshot with the highest number.
    Last,
    /// The issued snapshot with this number, with the lowest bit of one byte turned: the byte at
    /// this offset modulo the snapshot's length.
    Flip { number: u32, byte: u32 },
    /// These bytes.
    Raw(Bytes),
}

/// Up to eight extensions of the register by others during one call: the first `count` items.
#[derive(Clone, Copy)]
pub struct Meddles {
    pub count: u8,
    pub items: [Meddle; 8],
    ghost few: { count ≤ 8 },
}

impl Meddles {
    ghost use Rattle.mm_schedule.specs.Events.{meddles_of};

    /// None.
    #[inline(always)]
    pub fn none() -> Meddles
        ensures { meddles_of result ≡ [] }
    {
        let nothing = Meddle {
            step: 0,
            value: zero(),
        };
        Meddles {
            count: 0,
            items: [nothing; 8],
        }
    }

    /// Those that count.
    #[inline(always)]
    pub fn listed(&self) -> &[Meddle]
        ensures { result.now ≡ meddles_of self.now }
    {
        &self.items[..self.count as usize]
    }

    /// Puts one more at the end.
    pub(crate) fn push(&mut self, meddle: Meddle)
        requires { self.old.count < 8 }
        ensures count { self.new.count ≡ self.old.count + 1 }
        ensures items { meddles_of self.new ≡ meddles_of self.old ++ meddle ∷ [] }
    {
        self.items[self.count as usize] = meddle;
        self.count += 1;
    }
}

/// One event of a schedule.
#[derive(Drop)]
pub enum Event {
    /// One request is asked of the offered snapshot.
    Ask {
        meddles: Meddles,
        stop: Stop,
        offer: Offer,
        request: Bytes,
    },
    /// Several requests are asked under one commit: the pieces of the text between bytes TAB.
    Batch {
        meddles: Meddles,
        stop: Stop,
        offer: Offer,
        text: Bytes,
    },
    /// The open segment is closed.
    Checkpoint {
        meddles: Meddles,
        stop: Stop,
    },
    /// Power is lost and returns.
    Power,
    /// Others extend the register.
    Extend {
        value: Digest,
    },
}
