//! The longest ledger.

use mm_bytes::{Bytes, Memory};
use mm_module::{Module, is_line};
use mm_quota::Accounts;
use std::alloc::Global;
use std::test::Fail;

// Whether a ledger says this to a request; then the state is the next.
fn says<M: Module>(
    alloc: Global,
    ledger: &M,
    state: &mut Bytes,
    request: &[u8],
    said: &[u8],
) -> Result<bool, Memory> {
    if !is_line(request) || !ledger.state_is_spelled(state.as_slice()) {
        return Ok(false);
    }
    let stepped = ledger.step(alloc, state.as_slice(), request)?;
    let is_said = stepped.output.as_slice() == said;
    *state = stepped.state;
    Ok(is_said)
}

// Puts an account of this number at the end of a state, with a limit of 3 of which 1 is used.
fn put(state: &mut Bytes, alloc: Global, number: u16) -> Result<(), Memory> {
    let name = format!(in alloc; "\u{5}{number:05}")?;
    state.append(name.as_bytes())?;
    state.append(&3u64.to_be_bytes())?;
    state.append(&1u64.to_be_bytes())
}

// Puts 16,384 accounts.
fn fill(state: &mut Bytes, alloc: Global) -> Result<(), Memory> {
    state.append(&16384u16.to_be_bytes())?;
    for number in 0..16384u16 {
        put(state, alloc, number)?;
    }
    Ok(())
}

fn is_full(alloc: Global, state: &mut Bytes) -> Result<bool, Memory> {
    let ledger = Accounts::<16384>;
    fill(state, alloc)?;
    let first = says(alloc, &ledger, state, b"sum", b"sum 16384")?;
    let used = says(alloc, &ledger, state, b"use 16383 2", b"used 3")?;
    let opened = says(alloc, &ledger, state, b"open 16384 1", b"full")?;
    let last = says(alloc, &ledger, state, b"sum", b"sum 16386")?;
    Ok(first && used && opened && last)
}

#[test]
fn the_wide_ledger_holds_16384_accounts(rt: HostRuntime) -> Result<(), Fail> {
    let mut state = Bytes::new(rt.alloc());
    assert!(rt; is_full(rt.alloc(), &mut state)?);
    assert!(rt; !Accounts::<256>.state_is_spelled(state.as_slice()));
    Ok(())
}
