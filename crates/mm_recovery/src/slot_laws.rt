//! Laws of the slots, each the contract of a function that does nothing.

ghost use Rattle.mm_recovery.specs.SlotLaws.{KeepsFitting, FittingAreGenuine, StaysGenuine, FirstStartsCanGoOn};

/// Slots that fit a history fit it after each move that commits nothing, with the same request
/// waiting.
pub fn slots_keep_fitting()
    ensures { KeepsFitting }
{}

/// What slots that fit a history offer first is genuine for it, and for each history that moves
/// lead to: so it is in an old copy of them.
pub fn old_slots_stay_genuine()
    ensures fitting { FittingAreGenuine }
    ensures stays { StaysGenuine }
{}

/// From what a first start leaves, a recovery can go on, and nothing waits.
pub fn first_starts_can_go_on()
    ensures { FirstStartsCanGoOn }
{}
