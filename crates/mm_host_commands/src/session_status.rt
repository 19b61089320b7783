//! How the program ends by what came of a session.

ghost use Rattle.std.specs.Prelude.{◌≡◌};
ghost use Rattle.mm_host_commands.specs.Run.{refusal_status, session_fault_status, session_status};

use mm_host::{HostFault, SessionFault};
use mm_model::Refusal;
use mm_status::Status;

/// How the program ends by a session's answer.
pub fn of_session(answer: Result<(), SessionFault>) -> Status
    ensures { result ≡ session_status answer }
{
    match answer {
        Ok(()) => Status::Done,
        Err(fault) => at_session(fault),
    }
}

// How the program ends where a session stopped so.
fn at_session(fault: SessionFault) -> Status
    ensures { result ≡ session_fault_status fault }
{
    match fault {
        SessionFault::Host(HostFault::Memory) => Status::Memory,
        SessionFault::Host(HostFault::Store) => Status::StoreFault,
        SessionFault::Host(HostFault::Refused(why)) => at_refusal(why),
        SessionFault::Lines(fault) => Status::of(fault),
    }
}

// How the program ends where a call was refused so.
fn at_refusal(why: Refusal) -> Status
    ensures { result ≡ refusal_status why }
{
    match why {
        Refusal::Memory => Status::Memory,
        Refusal::Device(_) => Status::PlatformFault,
        Refusal::Blank => Status::Blank,
        Refusal::Cell => Status::Cell,
        Refusal::Lost => Status::Lost,
        _ => Status::Refused(why),
    }
}
