//! What a dispenser promises of a whole run.

ghost use Rattle.mm_dispenser.specs.Promise.{PlacesAreToldOnce};

/// Of two outputs that tell places the later one's begin at or behind the end of the earlier one's.
pub fn places_are_told_once()
    ensures { PlacesAreToldOnce }
{}
