//! The callers over the counter and a platform in memory.

use mm_ask::{Secrets, provision};
use mm_bytes::Memory;
use mm_call::Provisioned;
use mm_callers::closing::ask_close_repeat;
use mm_callers::{basic, opt};
use mm_digest::Variant;
use mm_model::{Answer, Refusal};
use mm_module::Counter;
use mm_platform::{MemPlatform, Stop};
use std::alloc::Global;
use std::test::Fail;

// Whether a request was answered so.
fn is_answer(came: &Result<Answer, Refusal>, again: bool, position: u64, output: &[u8]) -> bool {
    match came {
        Ok(answer) => {
            answer.again == again
                && answer.position == position
                && answer.output.as_slice() == output
        }
        Err(_) => false,
    }
}

// The snapshot of an answer.
fn snapshot_in(came: &Result<Answer, Refusal>) -> &[u8] {
    match came {
        Ok(answer) => answer.snapshot.as_slice(),
        Err(_) => &[],
    }
}

// A write fails in the step that commits, with its effect made or not.
fn failing(step: u8, done: bool) -> Stop {
    Stop::Fail { step, done }
}

// Whether a request whose write fails is committed once.
fn commits_once(
    alloc: Global,
    platform: &mut MemPlatform,
    first: &[u8],
    done: bool,
) -> Result<bool, Memory> {
    platform.plan(failing(2, done), &[])?;
    let came = basic::ask_again(alloc, &Counter, platform, first, b"add 5");
    Ok(is_answer(&came, done, 1, b"5"))
}

// Whether two requests go on from the first snapshot.
fn commits_two(alloc: Global, platform: &mut MemPlatform, first: &[u8]) -> bool {
    let came = basic::ask_twice(alloc, &Counter, platform, first, b"add 5", b"add 2");
    is_answer(&came, false, 2, b"7")
}

// Whether a request is committed once where the write that opens a segment fails, and another one
// goes on inside it.
fn opens(
    alloc: Global,
    platform: &mut MemPlatform,
    first: &[u8],
    done: bool,
) -> Result<bool, Memory> {
    platform.plan(failing(5, done), &[])?;
    let came = opt::ask_after_fault(alloc, &Counter, platform, first, b"add 5");
    Ok(is_answer(&came, done, 1, b"5") && adds(alloc, platform, snapshot_in(&came)))
}

fn adds(alloc: Global, platform: &mut MemPlatform, offer: &[u8]) -> bool {
    let came = opt::ask_in_memory(alloc, &Counter, platform, offer, b"add 3");
    is_answer(&came, false, 2, b"8")
}

// Whether two requests open a segment, and a third one is repeated behind a checkpoint.
fn closes(alloc: Global, platform: &mut MemPlatform, first: &[u8]) -> bool {
    let came = opt::ask_twice(alloc, &Counter, platform, first, b"add 5", b"add 2");
    is_answer(&came, false, 2, b"7") && repeats(alloc, platform, snapshot_in(&came))
}

fn repeats(alloc: Global, platform: &mut MemPlatform, offer: &[u8]) -> bool {
    match ask_close_repeat(alloc, &Counter, platform, offer, b"add 4") {
        Ok(replies) => is_answer(&Ok(replies.second), true, 3, b"11"),
        Err(_) => false,
    }
}

// Tries the caller of this name.
fn tried_on(
    alloc: Global,
    name: &str,
    platform: &mut MemPlatform,
    first: &[u8],
) -> Result<bool, Memory> {
    match name {
        "basic-undone" => commits_once(alloc, platform, first, false),
        "basic-done" => commits_once(alloc, platform, first, true),
        "basic-two" => Ok(commits_two(alloc, platform, first)),
        "opt-undone" => opens(alloc, platform, first, false),
        "opt-done" => opens(alloc, platform, first, true),
        _ => Ok(closes(alloc, platform, first)),
    }
}

// The same over a new platform.
fn tried_anew(alloc: Global, name: &str, made: &Provisioned) -> Result<bool, Memory> {
    let mut platform = MemPlatform::new(alloc, &made.cell);
    tried_on(alloc, name, &mut platform, made.snapshot.as_slice())
}

// The cell and the first snapshot, of the variant that the name begins with.
fn provisioned(alloc: Global, name: &str) -> Result<Provisioned, Memory> {
    let variant = if name.starts_with("basic") {
        Variant::Basic
    } else {
        Variant::Opt
    };
    let secrets = Secrets {
        key: [7; 32],
        barrier: [9; 32],
    };
    provision(alloc, variant, &Counter, &secrets)
}

fn tried(alloc: Global, name: &str) -> Result<bool, Memory> {
    let made = provisioned(alloc, name)?;
    tried_anew(alloc, name, &made)
}

#[test]
fn a_request_is_committed_once(rt: HostRuntime) -> Result<(), Fail> {
    for name in "basic-undone basic-done basic-two".split(" ") {
        assert!(rt; tried(rt.alloc(), name)?, "{name}");
    }
    Ok(())
}

#[test]
fn requests_open_a_segment(rt: HostRuntime) -> Result<(), Fail> {
    for name in "opt-undone opt-done opt-two".split(" ") {
        assert!(rt; tried(rt.alloc(), name)?, "{name}");
    }
    Ok(())
}
