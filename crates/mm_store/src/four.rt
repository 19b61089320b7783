//! Four of a kind.

use std::marker::Model;

/// Four of a kind, numbered from 0 to 3.
#[derive(Drop)]
pub struct Four<T> {
    zero: T,
    one: T,
    two: T,
    three: T,
}

impl<T> Model for Four<T> {
    ghost use Rattle.mm_store.specs.StoreStanding.{Four};

    ghost Value = { Four T };

    ghost view = { λ f. record { zero = f.zero; one = f.one; two = f.two; three = f.three } };
}

impl<T> Four<T> {
    ghost use Rattle.std.specs.Prelude.{◌≡◌};
    ghost use Rattle.std.specs.Borrow.{Lends, sem};
    ghost use Rattle.mm_store.specs.StoreStanding.{item_at, four_with};
    ghost use Rattle.mm_store.specs.contracts.four.Four.{the_row};

    /// These four.
    pub fn new(zero: T, one: T, two: T, three: T) -> Four<T>
        ensures { result ≡ record { zero = zero; one = one; two = two; three = three } }
    {
        Four {
            zero,
            one,
            two,
            three,
        }
    }

    /// The one with this number, of numbers above 3 the last.
    pub fn get(&self, number: u8) -> &T
        ensures { result.now ≡ item_at self.now number }
    {
        match number {
            0 => &self.zero,
            1 => &self.one,
            2 => &self.two,
            _ => &self.three,
        }
    }

    /// The one with this number, of numbers above 3 the last, to be changed.
    pub fn get_mut(&mut self, number: u8) -> &mut T
        ensures* writes_back { sem 𝓛 (Lends (the_row T.row) T.row self.entry result
            (four_with self.old number)) }
        ensures value { result.now ≡ item_at self.old number }
    {
        match number {
            0 => &mut self.zero,
            1 => &mut self.one,
            2 => &mut self.two,
            _ => &mut self.three,
        }
    }
}
