//! Laws of a life, each the contract of a function that does nothing, or calls what it needs.

ghost use Rattle.mm_life.specs.Deeds.{CyclesAreDeeds, ReadsAreDeeds, BatchCallsAreDeeds, CallsInPartsAreDeeds};
ghost use Rattle.mm_life.specs.Premises.{BasicDeedsStay, OptDeedsStay, PartsAreRefusedElsewhere};
ghost use Rattle.mm_life.specs.OneStore.{OneRequestMeetsPremises, OptRequestMeetsPremises};
ghost use Rattle.mm_life.specs.LifeWrites.{BasicLivesWriteOnce, OptLivesWriteOnce};
ghost use Rattle.mm_life.specs.Laws.{BasicLifeIsOne, LivesKeepPromises, LivesTellWhatWasSaid, NextMayStart, OptLifeIsOne, SessionsOfferSlots};

use mm_outcome::premises_are_met;
use mm_recovery::nothing_is_done_elsewhere;
use mm_schedule::laws::{runs_keep_promises, tells_what_was_said};

/// Basic: whatever is done to a platform behind its first start, there is one list of requests, and
/// all that programs tell are steps on it.
pub fn basic_life_is_one()
    ensures { BasicLifeIsOne }
{}

/// Opt: the same, where the messages by which items went into the register share no digest with
/// these, and no value of others is a guard.
pub fn opt_life_is_one()
    ensures { OptLifeIsOne }
{}

/// What is asked of a life can be met: by a session of one request over the slots of a first start,
/// under every key; in Opt with the barrier of each world, where nobody else extends the register.
pub fn one_request_meets_premises()
    ensures basic { OneRequestMeetsPremises }
    ensures opt { OptRequestMeetsPremises }
{
    premises_are_met();
    sessions_offer_slots();
}

/// What a session offers first is what its slots show.
pub fn sessions_offer_slots()
    ensures { SessionsOfferSlots }
{}

/// Behind any life the next session may start, from the life's history on.
pub fn next_may_start()
    ensures { NextMayStart }
{}

/// What a deed that is no call leaves: an extension of the register by others, a loss of power, a
/// checkpoint. The platform stands for a history with the same requests.
pub fn deeds_stay()
    ensures basic { BasicDeedsStay }
    ensures opt { OptDeedsStay }
{}

/// A part of a life over a platform on which the module doesn't live: each of its calls is refused,
/// and the cell is as before. So a session on a platform that the module has left, or hasn't
/// reached, tells nothing and changes nothing.
pub fn parts_are_refused_elsewhere()
    ensures { PartsAreRefusedElsewhere }
{}

/// A call for a batch is a deed, whoever makes it; and so is one that is made in parts, whole or
/// broken off at any of its steps.
pub fn batch_calls_are_deeds()
    ensures calls { BatchCallsAreDeeds }
    ensures parts { CallsInPartsAreDeeds }
{
    nothing_is_done_elsewhere();
}

/// A read of the cell, and a loss of power that was called for, are deeds.
pub fn device_calls_are_deeds()
    ensures reads { ReadsAreDeeds }
    ensures cycles { CyclesAreDeeds }
{}

/// Each line that programs told over a life says what the module said when its request was run.
pub fn lives_tell_what_was_said()
    ensures { LivesTellWhatWasSaid }
{
    tells_what_was_said();
}

/// What a module promises of one run holds over a life: a limiter gives no more wrong guesses than
/// it has tries between two `set` or `open`, and a dispenser tells no place twice.
pub fn lives_keep_promises()
    ensures { LivesKeepPromises }
{
    runs_keep_promises();
}

/// How often the cell is written over a life: in Basic once for each request that was told for the
/// first time, and in Opt once for each segment that was opened or closed; and at most once for
/// what was in hand at each stop.
pub fn lives_write_once()
    ensures basic { BasicLivesWriteOnce }
    ensures opt { OptLivesWriteOnce }
{}
