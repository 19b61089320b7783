//! Laws of a life in which programs are killed, each the contract of a function that calls what it
//! needs.

ghost use Rattle.mm_moments.specs.MortalLaws.{BasicMortalLifeGoesOn, BasicMortalLifeIsOne, BasicMortalLivesWriteOnce, MortalLivesKeepPromises, MortalLivesTell, OptMortalLifeGoesOn, OptMortalLifeIsOne, OptMortalLivesWriteOnce};
ghost use Rattle.mm_moments.specs.MortalLives.{KilledOfferSlots, MortalLivesEnd};

use crate::moments::session_stops_anywhere;
use mm_life::{
    basic_life_goes_on, basic_life_is_one, lives_keep_promises, lives_tell_what_was_said,
    lives_write_once, opt_life_goes_on, opt_life_is_one, sessions_offer_slots,
};

/// A life in which programs are killed is one in which each of them ended where it was killed: the
/// same calls were made and told, and the same is left.
pub fn mortal_lives_end()
    ensures { MortalLivesEnd }
{
    session_stops_anywhere();
}

/// What a killed session offered first is what its slots showed.
pub fn killed_sessions_offer_slots()
    ensures { KilledOfferSlots }
{
    session_stops_anywhere();
    sessions_offer_slots();
}

/// So there is one list of requests, and all that was told are steps on it, whatever programs are
/// killed, and at whatever moments.
pub fn mortal_lives_are_one()
    ensures basic { BasicMortalLifeIsOne }
    ensures opt { OptMortalLifeIsOne }
{
    mortal_lives_end();
    basic_life_is_one();
    opt_life_is_one();
}

/// What was told says what the module said; what it promises holds; and the cell is written, in
/// Basic once for each request that was told for the first time, in Opt once for each segment that
/// was opened or closed, and at most once for what was in hand at each stop or kill.
pub fn mortal_lives_keep_promises()
    ensures tells { MortalLivesTell }
    ensures promises { MortalLivesKeepPromises }
    ensures basic { BasicMortalLivesWriteOnce }
    ensures opt { OptMortalLivesWriteOnce }
{
    lives_tell_what_was_said();
    lives_keep_promises();
    lives_write_once();
}

/// Over one honest store each kill is resumed: what waits is the next request of the one list or
/// the last, it is told first, and each line once.
pub fn mortal_lives_go_on()
    ensures basic { BasicMortalLifeGoesOn }
    ensures opt { OptMortalLifeGoesOn }
{
    mortal_lives_end();
    basic_life_goes_on();
    opt_life_goes_on();
}
