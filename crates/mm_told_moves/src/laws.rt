//! Laws of moves whose steps a host makes, each the contract of a function that does nothing.

ghost use Rattle.mm_told_moves.specs.ToldMovePromise.{ToldAcceptancesAreAcceptances, ToldInvitationsAreInvitations, ToldRetirementsAreRetirements};

/// What a move tells by the steps that were made, and what their devices answered, is the move on
/// each platform on which they were made: whole where it is over, and broken off where it makes a
/// step next.
pub fn told_moves_are_moves()
    ensures invitations { ToldInvitationsAreInvitations }
    ensures retirements { ToldRetirementsAreRetirements }
    ensures acceptances { ToldAcceptancesAreAcceptances }
{}
