//! The laws of spelling, each the contract of a function that does nothing.

ghost use Rattle.mm_move.specs.Cells.{CellsAreRead};
ghost use Rattle.mm_move.specs.Tickets.{TicketsAreRead};

/// A cell is read exactly where its bytes spell it.
pub fn cells_are_read()
    ensures { CellsAreRead }
{}

/// A ticket is read exactly where its bytes spell it, and it is for the module.
pub fn tickets_are_read()
    ensures { TicketsAreRead }
{}
