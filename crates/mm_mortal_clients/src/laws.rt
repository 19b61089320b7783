//! Laws of a client whose sessions are killed, each the contract of a function that calls what it
//! needs.

ghost use Rattle.mm_mortal_clients.specs.MortalClient.{BasicMortalClientsAreServedOnce, OptMortalClientsAreServedOnce};

use mm_client::{basic_clients_are_served_once, opt_clients_are_served_once};
use mm_moments::session_stops_anywhere;

/// Basic: a client who alone asks, over one honest store, is served once, at whatever moments his
/// sessions are killed: the requests that are run are the first of his, in order.
pub fn basic_mortal_clients_are_served_once()
    ensures { BasicMortalClientsAreServedOnce }
{
    session_stops_anywhere();
    basic_clients_are_served_once();
}

/// Opt: the same.
pub fn opt_mortal_clients_are_served_once()
    ensures { OptMortalClientsAreServedOnce }
{
    session_stops_anywhere();
    opt_clients_are_served_once();
}
