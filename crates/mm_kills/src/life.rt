//! How long a program lives: each call of its devices takes from it, and the last one is cut.

use std::cell::Cell;

/// What the call at which a program is killed leaves of its effect.
#[derive(Clone, Copy, PartialEq, Eq)]
pub enum Leaves {
    Nothing,
    Half,
    All,
}

/// Where a program is killed: at this call of its devices, from 1, of which so much is left.
#[derive(Clone, Copy)]
pub struct Cut {
    pub call: u64,
    pub leaves: Leaves,
}

/// At no call that a program here comes to.
pub const NEVER: Cut = Cut {
    call: u64::MAX,
    leaves: Leaves::All,
};

/// A program's life, which all of its devices share: how many calls it makes yet, and what the last
/// of them leaves.
#[derive(Drop)]
pub struct Life {
    left: Cell<u64>,
    leaves: Leaves,
}

impl Life {
    /// Up to there.
    pub fn until(cut: Cut) -> Life {
        Life {
            left: Cell::new(cut.call),
            leaves: cut.leaves,
        }
    }

    /// How many calls are left.
    pub fn left(&self) -> u64 {
        self.left.get()
    }

    /// One call: what it leaves of its effect. From the last one on it fails, and behind that it
    /// leaves nothing.
    pub fn call(&self) -> (bool, Leaves) {
        let left = self.left.get();
        self.left.set(left.saturating_sub(1));
        match left {
            0 => (false, Leaves::Nothing),
            1 => (false, self.leaves),
            _ => (true, Leaves::All),
        }
    }
}

/// Of bytes that are written the first, as many as a call leaves.
pub fn front_left(bytes: &[u8], leaves: Leaves) -> &[u8] {
    let count = match leaves {
        Leaves::Nothing => 0,
        Leaves::Half => bytes.len() / 2,
        Leaves::All => bytes.len(),
    };
    bytes.split_at(count).0
}

/// Leaves that much of these bytes in a range.
pub fn leave(range: &mut [u8], bytes: &[u8], leaves: Leaves) {
    let given = front_left(bytes, leaves);
    let count = given.len().min(range.len());
    let (front, _) = range.split_at_mut(count);
    let (given, _) = given.split_at(count);
    front.copy_from_slice(given);
}
