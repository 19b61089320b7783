//! Why the program stopped: a line for people on standard error. Where all was done there is one
//! behind `init` alone, of what it wrote over.

use crate::bad_line::say_bad_line;
use crate::kept::KeptText;
use crate::usage::say_usage;
use mm_files::Reason;
use mm_model::Refusal;
use mm_status::Status;
use std::io;

/// Why the last call of each device that failed did.
#[derive(Drop)]
pub struct Reasons {
    pub platform: Option<Reason>,
    pub store: Option<Reason>,
    pub input: Option<Reason>,
    pub entropy: Option<Reason>,
    pub output: Option<Reason>,
}

/// Says why the program stopped. Where that can't be written nothing more is done.
pub fn say(rt: &HostRuntime, words: &[&str], status: Status, reasons: &Reasons, input: &KeptText) {
    let command = words.first().copied().unwrap_or("");
    let _ = match status {
        Status::Done if command == "init" => {
            eprint!(rt; "made in this folder; what slot0 to slot3 held is written over\n")
        }
        Status::Done => Ok(()),
        Status::PlatformFault => say_reason(rt, &reasons.platform),
        Status::StoreFault => say_reason(rt, &reasons.store),
        Status::ReadFault if command == "init" => say_reason(rt, &reasons.entropy),
        Status::ReadFault => say_reason(rt, &reasons.input),
        Status::WriteFault => say_reason(rt, &reasons.output),
        Status::Short { got } => eprint!(rt; "entropy has {got} bytes, not 64\n"),
        Status::BadLine { line } => say_line(rt, command, line, input),
        Status::LineLong { line } => {
            let most = longest_line(command);
            eprint!(rt; "line {line} has more than {most} bytes\n")
        }
        Status::Usage => say_usage(rt, words),
        Status::Refused(why) => eprint!(rt; "{}\n", refused(why)),
        _ => eprint!(rt; "{}\n", stopped(status)),
    };
}

// Says what failed. A device whose failure ended the program has a reason.
fn say_reason(rt: &HostRuntime, reason: &Option<Reason>) -> io::Result<()> {
    match reason {
        Some(reason) => eprint!(rt; "{reason}\n"),
        None => Ok(()),
    }
}

// Says of a line what is wrong with it, or what was expected.
fn say_line(rt: &HostRuntime, command: &str, line: u32, input: &KeptText) -> io::Result<()> {
    if say_bad_line(rt, command, line, input)? {
        return Ok(());
    }
    let what = expected(command, line);
    eprint!(rt; "line {line}: expected {what}, ended by a line feed\n")
}

// What was expected of a line of a command's input.
fn expected(command: &str, line: u32) -> &'static str {
    match command {
        "replay" | "check" if line == 1 => "the header `memoir 1 VARIANT MODULE`",
        "slots" if line == 1 => "the header `memoir slots 1 N`",
        "transfer" if line == 1 => "the header `memoir transfer 1 VARIANT MODULE`",
        "check" => "an event, or behind `replies` a recorded line",
        "slots" => "a slot's `VARIANT MODULE`, or behind those its event",
        "transfer" => "a platform's event or move",
        "receipts" if line % 2 == 1 => "`P REQUEST`",
        "receipts" => "an output",
        "run" => "a request",
        _ => "an event",
    }
}

// How many bytes a line of a command's input may have.
fn longest_line(command: &str) -> u32 {
    match command {
        "run" => 4096,
        _ => 8400,
    }
}

// What to look for where the snapshot was refused.
fn refused(why: Refusal) -> &'static str {
    match why {
        Refusal::Stale => {
            "the slots' snapshot isn't the newest: were slots put back or removed, nv put back, or register extended?"
        }
        Refusal::Form => "what the slots hold is no snapshot: were slots removed, cut or replaced?",
        Refusal::Kind | Refusal::State | Refusal::Tag => {
            "the slots' snapshot is none of the instance in nv: are slots another's, or altered?"
        }
        Refusal::Full => "no position is left",
        _ => "the slots hold a request that can't be run: were they written by others?",
    }
}

// What to look for where the program stopped otherwise.
fn stopped(status: Status) -> &'static str {
    match status {
        Status::Blank => {
            "nv holds no instance: is this its folder? `memoir init` starts one, and writes over slots"
        }
        Status::Already => "nv holds an instance already: `memoir run` asks it",
        Status::Cell => "nv holds nothing that can go on here: was it written by others?",
        Status::Lost => {
            "power was lost inside an open segment, for good: was `memoir power` called, or register replaced?"
        }
        Status::Kind => "nv holds an instance of Basic, which has no segments",
        Status::TooMuch => "the input has more lines, events or bytes than one may have",
        _ => "out of memory",
    }
}
