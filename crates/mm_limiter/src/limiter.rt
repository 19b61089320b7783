//! The limiter as a module.

ghost use Rattle.std.specs.Prelude.{◌≡◌, None, if◌then◌else◌, IfOk, IsTrue, is_some, length, option_map, option_and_then};
ghost use Rattle.mm_module.specs.Meaning.{words_of};
ghost use Rattle.mm_limiter.specs.Table.{IsShortSecret, is_secret, is_tries, is_guard, request_of, state_of, outcome_of, text_of, spelling_of, limiter};
ghost use Rattle.mm_limiter.specs.LimiterListing.{as_state, as_request, as_says};
ghost use Rattle.mm_limiter.specs.LimiterLaws.{limiter_is_lawful, limiter_is_short};

use mm_bytes::{Bytes, Memory, read_decimal};
use mm_module::{Module, Short, Stepped, Words, are_visible, text_and_number};
use std::alloc::Global;

/// A secret of 1 to 64 bytes from 0x21 to 0x7e, and the number of wrong guesses in a row, 1 to 100,
/// after which it is locked for good.
///
/// A state is the byte 00 before a secret is set, and from then on 01, the number of guesses, those
/// left, the length of the secret (1 byte each) and the secret.
#[derive(Clone, Copy)]
pub struct Limiter;

/// What a limiter keeps.
#[derive(Clone, Copy)]
enum State<'a> {
    Unset,
    Guarded {
        tries: u8,
        left: u8,
        secret: &'a [u8],
    },
}

/// A request to a limiter.
#[derive(Clone, Copy)]
enum Request<'a> {
    Guard { secret: &'a [u8], tries: u8 },
    Guess(&'a [u8]),
    Left,
}

/// What a limiter says.
#[derive(Clone, Copy)]
enum Output {
    Set,
    Taken,
    Unset,
    Locked,
    Open,
    Wrong(u8),
    Left(u8),
    Bad,
}

/// Whether these bytes are a secret.
#[tactic(auto, unfolding(crate::specs::Table::is_secret))]
fn secret_is_formed(bytes: &[u8]) -> bool
    ensures { result ≡ is_secret bytes.now }
{
    1 <= bytes.len() && bytes.len() <= 64 && are_visible(bytes)
}

/// The number of guesses, where it is 1 to 100.
fn tries_of(number: u64) -> Option<u8>
    ensures { result ≡ (if is_tries number then Some number else None) }
{
    if 1 <= number && number <= 100 {
        Some(number as u8)
    } else {
        None
    }
}

/// The request that these bytes are, where they are one.
#[tactic(auto, unfolding(crate::specs::Table::request_of))]
fn read_request(bytes: &[u8]) -> Option<Request<'_>>
    ensures { option_map as_request result ≡ request_of (words_of bytes.now) }
{
    match Words::of(bytes) {
        Words::One(word) if word == b"left".as_slice() => Some(Request::Left),
        Words::Two(word, secret) if word == b"guess".as_slice() && secret_is_formed(secret) => {
            Some(Request::Guess(secret))
        }
        Words::Three(word, secret, number)
            if word == b"set".as_slice() && secret_is_formed(secret) => {
            let tries = tries_of(read_decimal(number)?)?;
            Some(Request::Guard { secret, tries })
        }
        _ => None,
    }
}

/// Whether a secret with its counts is one.
#[tactic(auto, unfolding(crate::specs::Table::is_guard))]
fn guard_is_formed(tries: u8, left: u8, count: u8, secret: &[u8]) -> bool
    ensures { result ≡ is_guard tries left count secret.now }
{
    1 <= tries
        && tries <= 100
        && left <= tries
        && count as usize == secret.len()
        && secret_is_formed(secret)
}

/// The state that these bytes spell, where they spell one.
#[tactic(auto, unfolding(crate::specs::Table::state_of))]
fn read_state(bytes: &[u8]) -> Option<State<'_>>
    ensures { option_map as_state result ≡ state_of bytes.now }
{
    match bytes {
        [0] => Some(State::Unset),
        [1, tries, left, count, secret @ ..] if guard_is_formed(*tries, *left, *count, secret) => {
            Some(State::Guarded {
                tries: *tries,
                left: *left,
                secret,
            })
        }
        _ => None,
    }
}

/// What a request does, and what is said.
fn outcome<'a>(state: State<'a>, request: Option<Request<'a>>) -> (State<'a>, Output)
    ensures { (as_state result.0, as_says result.1)
        ≡ outcome_of (as_state state.entry) (option_map as_request request.entry) }
{
    let Some(request) = request else {
        return (state, Output::Bad);
    };
    match (state, request) {
        (State::Unset, Request::Guard { secret, tries }) => {
            let set = State::Guarded {
                tries,
                left: tries,
                secret,
            };
            (set, Output::Set)
        }
        (State::Unset, _) => (state, Output::Unset),
        (State::Guarded { .. }, Request::Guard { .. }) => (state, Output::Taken),
        (State::Guarded { left, .. }, Request::Left) => (state, Output::Left(left)),
        (State::Guarded { left: 0, .. }, Request::Guess(_)) => (state, Output::Locked),
        (
            State::Guarded {
                tries,
                left,
                secret,
            },
            Request::Guess(guess),
        ) => {
            if guess == secret {
                let open = State::Guarded {
                    tries,
                    left: tries,
                    secret,
                };
                (open, Output::Open)
            } else {
                let left = left - 1;
                let wrong = State::Guarded {
                    tries,
                    left,
                    secret,
                };
                (wrong, Output::Wrong(left))
            }
        }
    }
}

/// The text of what is said.
fn text(alloc: Global, says: Output) -> Result<Bytes, Memory>
    ensures { IfOk result (λ text. text ≡ text_of (as_says says)) }
{
    match says {
        Output::Set => Bytes::copy_of(alloc, b"set"),
        Output::Taken => Bytes::copy_of(alloc, b"taken"),
        Output::Unset => Bytes::copy_of(alloc, b"unset"),
        Output::Locked => Bytes::copy_of(alloc, b"locked"),
        Output::Open => Bytes::copy_of(alloc, b"open"),
        Output::Wrong(left) => text_and_number(alloc, b"wrong ", u64::from(left)),
        Output::Left(left) => text_and_number(alloc, b"left ", u64::from(left)),
        Output::Bad => Bytes::copy_of(alloc, b"bad"),
    }
}

/// The bytes of a state.
fn spelled(alloc: Global, state: State<'_>) -> Result<Bytes, Memory>
    requires { IsShortSecret (as_state state) }
    ensures { IfOk result (λ bytes. bytes ≡ spelling_of (as_state state.entry)) }
{
    match state {
        State::Unset => Bytes::copy_of(alloc, &[0]),
        State::Guarded {
            tries,
            left,
            secret,
        } => {
            let mut bytes = Bytes::copy_of(alloc, &[1, tries, left, secret.len() as u8])?;
            bytes.append(secret)?;
            Ok(bytes)
        }
    }
}

#[tactic(auto, unfolding(crate::specs::Table::outcome_of_bytes, crate::specs::Table::is_state))]
impl Module for Limiter {
    ghost meaning = { λ _. limiter };

    ghost is_lawful = { λ _. limiter_is_lawful };

    fn id(&self) -> u8 {
        2
    }

    fn first_state(&self, alloc: Global) -> Result<Bytes, Memory> {
        Bytes::copy_of(alloc, &[0])
    }

    fn state_is_spelled(&self, state: &[u8]) -> bool {
        read_state(state).is_some()
    }

    fn step(&self, alloc: Global, state: &[u8], request: &[u8]) -> Result<Stepped, Memory> {
        let state = read_state(state).unwrap_or(State::Unset);
        let (state, says) = outcome(state, read_request(request));
        Ok(Stepped {
            state: spelled(alloc, state)?,
            output: text(alloc, says)?,
        })
    }
}

impl Short for Limiter {
    ghost is_short = { λ _. limiter_is_short };
}
