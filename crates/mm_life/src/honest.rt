//! Laws of a life over one honest store, each the contract of a function that does nothing.

ghost use Rattle.mm_life.specs.HonestLife.{BasicLifeGoesOn, OptLifeGoesOn};

/// Basic: over the store of a first start, where each program starts over what the one before it
/// left, each stop is resumed. What waits is the next request of the one list or the last; it is
/// told first, and each line once; and a session is refused by a device's fault alone, or as Full
/// where every position is used up.
pub fn basic_life_goes_on()
    ensures { BasicLifeGoesOn }
{}

/// Opt: the same, unless power is lost within a segment, or others extend the register, and then
/// the refusal tells which.
pub fn opt_life_goes_on()
    ensures { OptLifeGoesOn }
{}
