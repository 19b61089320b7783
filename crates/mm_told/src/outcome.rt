//! What a call comes to with the steps that were made.

use crate::step::HostStep;

/// What a call comes to with the steps that were made.
#[derive(Drop)]
pub enum StepsOutcome<A> {
    /// It is over, and gives this.
    Ended(A),
    /// It makes this step next.
    Next(HostStep),
    /// It makes other steps than those that were made, or fewer.
    Differs,
    /// Want of memory: nothing is known.
    Memory,
}
