//! Requests to a ledger, and what it says.

ghost use Rattle.std.specs.Prelude.{◌≡◌, ◌≤◌, [], ◌∷◌, IfOk, option_map};
ghost use Rattle.std.specs.Option.{ForSome};
ghost use Rattle.mm_module.specs.Meaning.{words_of};
ghost use Rattle.mm_quota.specs.Table.{action_of, request_of, decision_of, text_of, IsUsed, greatest_limit};
ghost use Rattle.mm_quota.specs.Views.{as_account, as_action, as_request, as_says};

use crate::account::{Account, GREATEST_LIMIT, name_is_formed};
use mm_bytes::{Bytes, Memory, read_decimal};
use mm_module::{Words, text_and_number};
use std::alloc::Global;

/// What a request does with the account that it names.
#[derive(Clone, Copy)]
pub enum QuotaAction {
    Open(u64),
    Use(u64),
    Free(u64),
    Left,
}

/// A request to a ledger.
#[derive(Clone, Copy)]
pub enum Request<'a> {
    Sum,
    On(&'a [u8], QuotaAction),
}

/// What a ledger says.
#[derive(Clone, Copy)]
pub enum Output {
    Opened,
    Exists,
    Full,
    None,
    Used(u64),
    Over(u64),
    Under(u64),
    Left(u64),
    Sum(u64),
    Bad,
}

/// The action of a word with a number.
fn read_action(word: &[u8], number: u64) -> Option<QuotaAction>
    ensures { option_map as_action result ≡ action_of word.now number }
{
    if word == b"open".as_slice() {
        return if number <= GREATEST_LIMIT {
            Some(QuotaAction::Open(number))
        } else {
            None
        };
    }
    if word == b"use".as_slice() {
        return Some(QuotaAction::Use(number));
    }
    if word == b"free".as_slice() {
        return Some(QuotaAction::Free(number));
    }
    None
}

/// The request that these bytes are, where they are one.
#[tactic(auto, unfolding(crate::specs::Table::request_of))]
pub fn read_request(bytes: &[u8]) -> Option<Request<'_>>
    ensures { option_map as_request result ≡ request_of (words_of bytes.now) }
{
    match Words::of(bytes) {
        Words::One(word) if word == b"sum".as_slice() => Some(Request::Sum),
        Words::Two(word, name) if word == b"left".as_slice() && name_is_formed(name) => {
            Some(Request::On(name, QuotaAction::Left))
        }
        Words::Three(word, name, number) => read_three(word, name, number),
        _ => None,
    }
}

/// The request of three words.
#[tactic(auto, unfolding(crate::specs::Table::request_of))]
#[inline(always)]
fn read_three<'a>(word: &[u8], name: &'a [u8], number: &[u8]) -> Option<Request<'a>>
    ensures { option_map as_request result
        ≡ request_of (word.now ∷ name.now ∷ number.now ∷ []) }
{
    if !name_is_formed(name) {
        return None;
    }
    let action = read_action(word, read_decimal(number)?)?;
    Some(Request::On(name, action))
}

/// The account that an action puts, where it puts one, and what is said: from whether the ledger is
/// full, and the account of the name, where there is one.
pub fn decision<'a>(
    full: bool,
    name: &'a [u8],
    found: Option<Account<'a>>,
    action: QuotaAction,
) -> (Option<Account<'a>>, Output)
    requires { ForSome found (λ account. (account.used ≤ account.limit)
        × (account.limit ≤ greatest_limit)) }
    ensures { (option_map as_account result.0, as_says result.1)
        ≡ decision_of full name.now (option_map as_account found.entry) (as_action action) }
{
    let Some(account) = found else {
        return opening(full, name, action);
    };
    let left = account.limit - account.used;
    match action {
        QuotaAction::Open(_) => (None, Output::Exists),
        QuotaAction::Use(number) if number <= left => used(account, account.used + number),
        QuotaAction::Use(_) => (None, Output::Over(left)),
        QuotaAction::Free(number) if number <= account.used => used(account, account.used - number),
        QuotaAction::Free(_) => (None, Output::Under(account.used)),
        QuotaAction::Left => (None, Output::Left(left)),
    }
}

/// What an action does where there is no such account.
fn opening(full: bool, name: &[u8], action: QuotaAction) -> (Option<Account<'_>>, Output)
    ensures { (option_map as_account result.0, as_says result.1)
        ≡ decision_of full name.now None (as_action action) }
{
    match action {
        QuotaAction::Open(_) if full => (None, Output::Full),
        QuotaAction::Open(limit) => {
            let account = Account {
                name,
                limit,
                used: 0,
            };
            (Some(account), Output::Opened)
        }
        _ => (None, Output::None),
    }
}

/// The account with another use, and what is said.
fn used(account: Account<'_>, amount: u64) -> (Option<Account<'_>>, Output)
    ensures account { option_map as_account result.0
        ≡ Some (record (as_account account.entry) { used = amount }) }
    ensures says { as_says result.1 ≡ IsUsed amount }
{
    let account = Account {
        name: account.name,
        limit: account.limit,
        used: amount,
    };
    (Some(account), Output::Used(amount))
}

/// The text of what is said.
pub fn text(alloc: Global, says: Output) -> Result<Bytes, Memory>
    ensures { IfOk result (λ text. text ≡ text_of (as_says says)) }
{
    match says {
        Output::Opened => Bytes::copy_of(alloc, b"opened"),
        Output::Exists => Bytes::copy_of(alloc, b"exists"),
        Output::Full => Bytes::copy_of(alloc, b"full"),
        Output::None => Bytes::copy_of(alloc, b"none"),
        Output::Used(used) => text_and_number(alloc, b"used ", used),
        Output::Over(left) => text_and_number(alloc, b"over ", left),
        Output::Under(used) => text_and_number(alloc, b"under ", used),
        Output::Left(left) => text_and_number(alloc, b"left ", left),
        Output::Sum(sum) => text_and_number(alloc, b"sum ", sum),
        Output::Bad => Bytes::copy_of(alloc, b"bad"),
    }
}
