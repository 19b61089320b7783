//! Laws of a client, each the contract of a function that does nothing, or calls what it needs.

ghost use Rattle.mm_client.specs.ClientLife.{AskingTells, OwnOutputsTell, RepliesTellRequests, SessionsSendReplies, WholeSessionsTellAll};
ghost use Rattle.mm_client.specs.Careful.{CarefulClientsRunOnce, BasicTurnsAreServedOnce, OptTurnsAreServedOnce};
ghost use Rattle.mm_client.specs.Laws.{BasicClientsAreServedOnce, OptClientsAreServedOnce};

use mm_life::{basic_life_goes_on, opt_life_goes_on};

/// Basic: a client who alone asks, over one honest store, is served once: whatever stops a session
/// or cuts what he sends or hears, the requests that are run are the first of his, in order.
pub fn basic_clients_are_served_once()
    ensures { BasicClientsAreServedOnce }
{
    basic_life_goes_on();
}

/// Opt: the same.
pub fn opt_clients_are_served_once()
    ensures { OptClientsAreServedOnce }
{
    opt_life_goes_on();
}

/// Basic: behind anything that anybody asked, a client who is told a position by a session without
/// a line, and from there on alone asks, is served once from there.
pub fn basic_turns_are_served_once()
    ensures { BasicTurnsAreServedOnce }
{
    basic_life_goes_on();
}

/// Opt: the same.
pub fn opt_turns_are_served_once()
    ensures { OptTurnsAreServedOnce }
{
    opt_life_goes_on();
}

/// Whatever is done: the request of each reply that was told stands at its position.
pub fn replies_tell_requests()
    ensures { RepliesTellRequests }
{}

/// Where the module says an output to no other request of the list, as a receipt, it tells whose
/// request stands there.
pub fn own_outputs_tell()
    ensures { OwnOutputsTell }
{}

/// Whatever is done: a session without a line that told a position tells the number of requests; so
/// where it is no more than was known, none was run since, and where it is one more, the one that
/// was told.
pub fn asking_tells()
    ensures { AskingTells }
{}

/// A session that ended with Ok over all of one's lines told each, behind at most one other reply.
pub fn whole_sessions_tell_all()
    ensures { WholeSessionsTellAll }
{}

/// What a session wrote are the lines of the replies that it told, and behind them its last bytes.
pub fn sessions_send_replies()
    ensures { SessionsSendReplies }
{}

/// Whatever others do: of a client who takes for done only what he gave to a session that he heard
/// whole, and after any other sends nothing until he is told again the position that he was told
/// before, the lines of his inputs that are run are some of his, in order, each at most once.
pub fn careful_clients_run_once()
    ensures { CarefulClientsRunOnce }
{}
