//! The laws of a world over honest stores, each the contract of a function that calls what it
//! needs.

ghost use Rattle.mm_honest_worlds.specs.GoingOn.{BasicWorldGoesOn, OptWorldGoesOn};
ghost use Rattle.mm_honest_worlds.specs.Laws.{OptWorldGoesOnOrEvidence, WorldGoesOnOrEvidence};

use mm_life::parts_are_refused_elsewhere;

/// Basic: behind a first start on one platform, where each program starts over what the one before
/// it left there, or over what the host put there when the module arrived, each session goes on
/// where the one list of requests stands. What waits is the next request of it or the last; it is
/// told first, and each line once; and a session is refused by a device's fault alone, or as Full
/// where every position is used up.
pub fn basic_world_goes_on()
    ensures { BasicWorldGoesOn }
{
    parts_are_refused_elsewhere();
}

/// Opt: the same, from a register that others had extended. A session may be refused besides as
/// the history tells: as Lost where power was lost inside an open segment, and as Stale where a
/// value of others is in the register.
pub fn opt_world_goes_on()
    ensures { OptWorldGoesOn }
{
    parts_are_refused_elsewhere();
}

/// With no premise but the start, and what the stores show where the module is: it goes on so, or
/// one holds evidence in hand, a clash of two messages, or a part that breaks something.
pub fn world_goes_on_or_evidence()
    ensures { WorldGoesOnOrEvidence }
{
    basic_world_goes_on();
}

/// Opt: with no premise but the start, what the stores show where the module is, and registers that
/// are told where tickets are offered: it goes on so, or one holds evidence in hand.
pub fn opt_world_goes_on_or_evidence()
    ensures { OptWorldGoesOnOrEvidence }
{
    opt_world_goes_on();
}
