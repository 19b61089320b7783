//! The laws of a world in which programs are killed, each the contract of a function that calls
//! what it needs.

ghost use Rattle.mm_mortal_worlds.specs.MortalWorldLaws.{BasicMortalWorldIsOne, MortalWorldIsOneOrEvidence, MortalWorldsKeepPromises, OptMortalWorldIsOne, OptMortalWorldIsOneOrEvidence};
ghost use Rattle.mm_mortal_worlds.specs.MortalWorlds.{MortalWorldsEnd};
ghost use Rattle.mm_mortal_worlds.specs.OverStores.{BasicMortalWorldGoesOn, MortalWorldGoesOnOrEvidence, OptMortalWorldGoesOn, OptMortalWorldGoesOnOrEvidence};

use mm_honest_worlds::{
    basic_world_goes_on, opt_world_goes_on, opt_world_goes_on_or_evidence,
    world_goes_on_or_evidence,
};
use mm_moments::mortal_lives_end;
use mm_worlds::{
    basic_world_is_one, opt_world_is_one, opt_world_is_one_or_evidence, world_is_one_or_evidence,
    worlds_keep_promises,
};

/// A world in which programs are killed is one in which each of them ended where it was killed: the
/// same calls were made and told, and the same is left on each platform.
pub fn mortal_worlds_end()
    ensures { MortalWorldsEnd }
{
    mortal_lives_end();
}

/// Basic: so there is one list of requests, and all that programs tell are steps on it, whichever
/// of them are killed, on whatever platforms and at whatever moments; and the module is on one
/// platform, or on its way.
pub fn basic_mortal_world_is_one()
    ensures { BasicMortalWorldIsOne }
{
    mortal_worlds_end();
    basic_world_is_one();
}

/// Opt: the same, from a register that others had extended.
pub fn opt_mortal_world_is_one()
    ensures { OptMortalWorldIsOne }
{
    mortal_worlds_end();
    opt_world_is_one();
}

/// With no premise but the start: it is one world, or one holds evidence in hand.
pub fn mortal_world_is_one_or_evidence()
    ensures { MortalWorldIsOneOrEvidence }
{
    mortal_worlds_end();
    world_is_one_or_evidence();
}

/// Opt: the same, where registers are told where tickets are offered.
pub fn opt_mortal_world_is_one_or_evidence()
    ensures { OptMortalWorldIsOneOrEvidence }
{
    mortal_worlds_end();
    opt_world_is_one_or_evidence();
}

/// What a module promises of one run holds over all platforms together, whatever is killed there.
pub fn mortal_worlds_keep_promises()
    ensures { MortalWorldsKeepPromises }
{
    worlds_keep_promises();
}

/// Over honest stores each kill is resumed, on whichever platform the module is: a session goes on
/// where the one list stands, what waits there is told first, and each line once.
pub fn mortal_worlds_go_on()
    ensures basic { BasicMortalWorldGoesOn }
    ensures opt { OptMortalWorldGoesOn }
{
    mortal_worlds_end();
    basic_world_goes_on();
    opt_world_goes_on();
}

/// With no premise but the start, and what the stores show where the module is: it is gone on with
/// so, or one holds evidence in hand.
pub fn mortal_worlds_go_on_or_evidence()
    ensures basic { MortalWorldGoesOnOrEvidence }
    ensures opt { OptMortalWorldGoesOnOrEvidence }
{
    mortal_worlds_end();
    world_goes_on_or_evidence();
    opt_world_goes_on_or_evidence();
}
