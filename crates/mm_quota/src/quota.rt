//! The quota ledger as a module.

ghost use Rattle.std.specs.Prelude.{◌≡◌, ◌≤◌, ◌+◌, ◌++◌, Some, true, min, is_some, if◌then◌else◌, length, IfOk, OnOk, IsTrue};
ghost use Rattle.mm_quota.specs.Table.{On, is_name, account_bytes, count_bytes, spelling_of, is_state, ledger_of, outcome_of, outcome_of_bytes, text_of};
ghost use Rattle.mm_quota.specs.Views.{as_account, as_action, as_says, IsSpelled};
ghost use Rattle.mm_quota.specs.LedgerLaws.{IsAction};
ghost use Rattle.mm_quota.specs.LedgerListings.{OthersStay, small_ledger, small_ledger_is_lawful, small_ledger_is_short, wide_ledger};
ghost use Rattle.mm_quota.specs.LedgerListings.{wide_ledger_is_lawful};

use crate::account::{Account, put_account};
use crate::place::{AccountPlace, parts, state_is_spelled, sum_of};
use crate::request::{Output, QuotaAction, Request, decision, read_request, text};
use mm_bytes::{Bytes, Memory};
use mm_module::{Module, Short, Stepped};
use std::alloc::Global;

/// A ledger of at most N accounts, which requests open, use and free.
///
/// A state is the number of accounts (2 bytes) and then, in the order of their names, each account:
/// the length of its name (1 byte, 1 to 32), the name, its limit and what is used of it (8 bytes
/// each). Numbers are big-endian.
#[derive(Clone, Copy, PartialEq, Eq)]
pub struct Accounts<const N: u16>;

/// The ledger of 256 accounts: a state has at most 12,546 bytes.
pub type Quota = Accounts<256>;

/// The ledger of 16,384 accounts: a state has at most 802,818 bytes.
pub type Ledger = Accounts<16384>;

#[tactic(auto, unfolding(crate::specs::Table::count_bytes))]
fn put_count(into: &mut Bytes, count: u16) -> Result<(), Memory>
    ensures { OnOk result (into.new ≡ into.old ++ count_bytes count) }
{
    into.append(&count.to_be_bytes())
}

/// The state of so many accounts, with this account at its place.
fn with_account(
    alloc: Global,
    capacity: usize,
    count: u16,
    place: &AccountPlace<'_>,
    account: &Account<'_>,
) -> Result<Bytes, Memory>
    requires { length account.now.name.now ≤ 255 }
    ensures { IfOk result
        (λ state. state ≡ count_bytes count ++ (place.now.front.now
        ++ (account_bytes (as_account account.now) ++ place.now.back.now))) }
{
    let mut state = Bytes::with_capacity(alloc, capacity)?;
    put_count(&mut state, count)?;
    state.append(place.front)?;
    put_account(&mut state, account)?;
    state.append(place.back)?;
    Ok(state)
}

/// The same state, and what is said.
fn told(alloc: Global, state: &[u8], says: Output) -> Result<Stepped, Memory>
    requires { IsSpelled state.now }
    ensures state { IfOk result (λ stepped. stepped.state ≡ spelling_of (ledger_of state.now)) }
    ensures output { IfOk result (λ stepped. stepped.output ≡ text_of (as_says says)) }
{
    Ok(Stepped {
        state: Bytes::copy_of(alloc, state)?,
        output: text(alloc, says)?,
    })
}

/// The number of accounts once one stands at this place.
fn count_with(count: u16, place: &AccountPlace<'_>) -> u16
    ensures { result ≡ (if is_some place.now.found then count else min (count + 1) 65535) }
{
    match place.found {
        Some(_) => count,
        None => count.saturating_add(1),
    }
}

/// What an action on one account does.
fn acted(
    most: u16,
    alloc: Global,
    state: &[u8],
    name: &[u8],
    action: QuotaAction,
) -> Result<Stepped, Memory>
    requires spelled { IsSpelled state.now }
    requires few { length (ledger_of state.now) ≤ most }
    requires named { is_name name.now ≡ true }
    requires action { IsAction (as_action action) }
    ensures state { IfOk result (λ stepped. stepped.state
        ≡ spelling_of
        (outcome_of most (ledger_of state.now) (Some (On name.now (as_action action)))).0) }
    ensures output { IfOk result (λ stepped. stepped.output
        ≡ text_of
        (outcome_of most (ledger_of state.now) (Some (On name.now (as_action action)))).1) }
{
    let (count, _body) = parts(state);
    let place = AccountPlace::of(state, name);
    let (change, says) = decision(count >= most, name, place.found, action);
    match change {
        None => told(alloc, state, says),
        Some(account) => {
            let count = count_with(count, &place);
            let state = with_account(alloc, state.len() + 49, count, &place, &account)?;
            let output = text(alloc, says)?;
            Ok(Stepped { state, output })
        }
    }
}

/// What a request does to the ledger of a state.
#[tactic(auto, unfolding(crate::specs::Table::outcome_of_bytes))]
fn step(most: u16, alloc: Global, state: &[u8], request: &[u8]) -> Result<Stepped, Memory>
    requires { IsTrue (is_state most state.now) }
    ensures state { IfOk result (λ after. after.state
        ≡ spelling_of (outcome_of_bytes most state.now request.now).0) }
    ensures output { IfOk result (λ after. after.output
        ≡ text_of (outcome_of_bytes most state.now request.now).1) }
{
    match read_request(request) {
        None => told(alloc, state, Output::Bad),
        Some(Request::Sum) => told(alloc, state, Output::Sum(sum_of(state))),
        Some(Request::On(name, action)) => acted(most, alloc, state, name, action),
    }
}

impl Module for Accounts<256> {
    ghost meaning = { λ _. small_ledger };

    ghost is_lawful = { λ _. small_ledger_is_lawful };

    fn id(&self) -> u8 {
        3
    }

    fn first_state(&self, alloc: Global) -> Result<Bytes, Memory> {
        Bytes::copy_of(alloc, &[0, 0])
    }

    fn state_is_spelled(&self, state: &[u8]) -> bool {
        state_is_spelled(256, state)
    }

    fn step(&self, alloc: Global, state: &[u8], request: &[u8]) -> Result<Stepped, Memory>
        requires { IsTrue (is_state 256 state.now) }
        ensures state { IfOk result (λ after. after.state
            ≡ small_ledger.next state.now request.now) }
        ensures output { IfOk result (λ after. after.output
            ≡ small_ledger.says state.now request.now) }
        ensures others { IfOk result (λ after. OthersStay state.now request.now after.state) }
    {
        step(256, alloc, state, request)
    }
}

impl Short for Accounts<256> {
    ghost is_short = { λ _. small_ledger_is_short };
}

impl Module for Accounts<16384> {
    ghost meaning = { λ _. wide_ledger };

    ghost is_lawful = { λ _. wide_ledger_is_lawful };

    fn id(&self) -> u8 {
        128
    }

    fn first_state(&self, alloc: Global) -> Result<Bytes, Memory> {
        Bytes::copy_of(alloc, &[0, 0])
    }

    fn state_is_spelled(&self, state: &[u8]) -> bool {
        state_is_spelled(16384, state)
    }

    fn step(&self, alloc: Global, state: &[u8], request: &[u8]) -> Result<Stepped, Memory>
        requires { IsTrue (is_state 16384 state.now) }
        ensures state { IfOk result (λ after. after.state
            ≡ wide_ledger.next state.now request.now) }
        ensures output { IfOk result (λ after. after.output
            ≡ wide_ledger.says state.now request.now) }
        ensures others { IfOk result (λ after. OthersStay state.now request.now after.state) }
    {
        step(16384, alloc, state, request)
    }
}
