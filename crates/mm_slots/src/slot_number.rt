//! The number of a slot.

ghost use Rattle.std.specs.Prelude.{◌≡◌, ◌++◌, OnOk};
ghost use Rattle.std.specs.Fmt.{decimal};

use mm_bytes::{Bytes, Memory, put_decimal};
use std::marker::Model;

/// The number of a slot of a platform. Contracts see it as a number.
#[derive(Clone, Copy, PartialEq, Eq)]
pub struct SlotNumber {
    place: usize,
}

impl Model for SlotNumber {
    ghost use Rattle.std.specs.Prelude.{ℕ};

    ghost Value = { ℕ };

    ghost view = { λ it. it.place };

    ghost inverse = { λ number. record { place = number } };
}

impl SlotNumber {
    /// The number of the slot at this place among the slots.
    pub fn at(place: usize) -> SlotNumber
        ensures { result ≡ place }
    {
        SlotNumber { place }
    }

    /// The place of the slot with this number.
    pub fn place(self) -> usize
        ensures { result ≡ self }
    {
        self.place
    }

    /// Puts the number at the end, in decimal digits.
    pub fn put(self, into: &mut Bytes) -> Result<(), Memory>
        ensures { OnOk result (into.new ≡ into.old ++ decimal self) }
    {
        put_decimal(into, self.place as u64)
    }
}
