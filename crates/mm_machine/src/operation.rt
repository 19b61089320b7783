//! What an operation sees and finds.

ghost use Rattle.std.specs.Prelude.{◌≡◌, ◌≤◌, ℕ};
ghost use Rattle.mm_machine.specs.OpSteps.{OpMeaning};

use crate::change::Change;
use mm_bytes::CELL_LENGTH;
use mm_digest::Digest;
use mm_seal::{Cell, KeptKey};

/// What is to be done, from this step on, and the answer that is handed out once it is done.
#[derive(Drop)]
pub struct ReadyChange<A> {
    pub change: Change,
    pub answer: A,
}

/// What an operation finds.
#[derive(Drop)]
pub enum OpFinding<A> {
    /// Nothing is to be done: this is the answer.
    Repeat(A),
    /// Something is.
    Change(ReadyChange<A>),
}

/// What an operation sees in the cell.
#[derive(Drop)]
pub enum Sight<A> {
    /// All that it needs.
    Found(OpFinding<A>),
    /// A cell; it wants the register too.
    Cell(Cell),
}

/// What a platform is asked. It sees the cell, finds what is to be done where it wants the register
/// too, and knows the position up to which its last step commits.
pub trait Operation {
    /// What is answered.
    type Answer: Drop;

    /// Why it is refused.
    type Refusal: Drop;

    /// What it sees in a cell's bytes; what it finds in a cell, with a value of the register; and
    /// the position that an answer tells.
    ghost asked: { Self → OpMeaning Self.Answer Self.Refusal };

    /// The number of a step that writes the cell.
    ghost writes: { Self → ℕ };

    /// Sees the cell's 104 bytes.
    fn see(
        &self,
        bytes: &[u8; CELL_LENGTH],
        keys: &mut KeptKey,
    ) -> Result<Sight<Self::Answer>, Self::Refusal>
        ensures { (asked self.now).sees bytes.now result };

    /// Finds what is to be done.
    fn find(
        &self,
        cell: &Cell,
        register: &Digest,
        keys: &mut KeptKey,
    ) -> Result<OpFinding<Self::Answer>, Self::Refusal>
        ensures { (asked self.now).finds cell.now register.now.bytes result };

    /// The position up to which the last step commits, where this is answered.
    fn position(&self, answer: &Self::Answer) -> u64
        ensures { result ≡ (asked self.now).position answer.now };

    /// The number, from 1, of a step that writes the cell: at most 5.
    fn write_step(&self) -> u8
        ensures is { result ≡ writes self.now }
        ensures few { result ≤ 5 };
}
