//! Going through the accounts of a state.

ghost use Rattle.std.specs.Prelude.{◌≡◌, ◌≤◌, ◌-◌, [], length, take, drop};
ghost use Rattle.std.specs.Ordering.{is_lt};
ghost use Rattle.mm_quota.specs.Table.{order_of, used_total, ledger_of, is_state, accounts_from, count_of_bytes};
ghost use Rattle.mm_quota.specs.Views.{IsSpelled, has_rising_from};

use crate::account::{Account, account_is_formed, split_account};
use std::cmp::Ordering;

/// Where a name stands among the accounts of a state: the bytes before, the account of the name,
/// where there is one, and the bytes behind.
#[derive(Clone, Copy)]
pub struct AccountPlace<'a> {
    pub front: &'a [u8],
    pub found: Option<Account<'a>>,
    pub back: &'a [u8],
}

/// The number of accounts that stands at the front of a state.
#[tactic(auto, unfolding(crate::specs::Table::count_of_bytes))]
fn count_at(bytes: &[u8; 2]) -> u16
    ensures { result ≡ count_of_bytes bytes.now }
{
    u16::from_be_bytes(*bytes)
}

/// Whether a name comes before another.
fn comes_before(name: &[u8], other: &[u8]) -> bool
    ensures { result ≡ is_lt (order_of name.now other.now) }
{
    name.cmp(&other).is_lt()
}

/// Whether these are so many accounts, in the order of their names, and nothing behind them.
fn accounts_are_spelled(count: u16, body: &[u8]) -> bool
    ensures { result ≡ has_rising_from [] (accounts_from count body.now) }
{
    let mut previous: &[u8] = &[];
    let mut rest = body;
    'accounts: for _number in 0..count {
        let Some((account, others)) = split_account(rest) else {
            return false;
        };
        if !account_is_formed(&account) {
            return false;
        }
        if !comes_before(previous, account.name) {
            return false;
        }
        previous = account.name;
        rest = others;
    }
    rest.is_empty()
}

/// Whether the bytes are a state of at most so many accounts.
pub fn state_is_spelled(most: u16, state: &[u8]) -> bool
    ensures { result ≡ is_state most state.now }
{
    let Some((count, body)) = state.split_first_chunk::<2>() else {
        return false;
    };
    let count = count_at(count);
    count <= most && accounts_are_spelled(count, body)
}

/// The number of accounts of a state, and their bytes.
pub fn parts(state: &[u8]) -> (u16, &[u8])
    requires { 2 ≤ length state.now }
    ensures count { result.0 ≡ count_of_bytes (take 2 state.now) }
    ensures body { result.1.now ≡ drop 2 state.now }
{
    match state.split_first_chunk::<2>() {
        Some((count, body)) => (count_at(count), body),
        None => unreachable!(),
    }
}

/// What stands in front of the rest.
fn front_of<'a>(body: &'a [u8], rest: &[u8]) -> &'a [u8]
    requires { length rest.now ≤ length body.now }
    ensures { result.now ≡ take (length body.now - length rest.now) body.now }
{
    let len = body.len() - rest.len();
    &body[..len]
}

/// What is used of all accounts of a state.
pub fn sum_of(state: &[u8]) -> u64
    requires { IsSpelled state.now }
    ensures { result ≡ used_total (ledger_of state.now) }
{
    let (count, body) = parts(state);
    let mut rest = body;
    let mut total = 0;
    'accounts: for _number in 0..count {
        match split_account(rest) {
            None => unreachable!(),
            Some((account, others)) => {
                total += account.used;
                rest = others;
            }
        }
    }
    total
}

impl<'a> AccountPlace<'a> {
    ghost use Rattle.std.specs.Prelude.{◌≡◌};
    ghost use Rattle.mm_quota.specs.Table.{ledger_of};
    ghost use Rattle.mm_quota.specs.Views.{IsSpelled, IsAccountPlace};

    /// The place of a name in a state.
    pub fn of(state: &'a [u8], name: &[u8]) -> AccountPlace<'a>
        requires { IsSpelled state.now }
        ensures { IsAccountPlace name.now (ledger_of state.now) result }
    {
        let (count, body) = parts(state);
        let mut rest = body;
        'accounts: for _number in 0..count {
            match split_account(rest) {
                None => unreachable!(),
                Some((account, others)) => match name.cmp(&account.name) {
                    Ordering::Greater => rest = others,
                    Ordering::Equal => {
                        return AccountPlace {
                            front: front_of(body, rest),
                            found: Some(account),
                            back: others,
                        };
                    }
                    Ordering::Less => {
                        return AccountPlace {
                            front: front_of(body, rest),
                            found: None,
                            back: rest,
                        };
                    }
                },
            }
        }
        AccountPlace {
            front: front_of(body, rest),
            found: None,
            back: rest,
        }
    }
}
