//! A law of a world that moves, the contract of a function that calls what it needs.

ghost use Rattle.mm_worlds.specs.Journey.{OneMoveMeetsPremises};

use mm_outcome::premises_are_met;

/// What is asked of a world can be met: by a request that is answered on one platform, and a move
/// to another, under all keys, with no premise but the start.
pub fn one_move_meets_premises()
    ensures { OneMoveMeetsPremises }
{
    premises_are_met();
}
