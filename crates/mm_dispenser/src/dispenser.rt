//! The dispenser as a module.

ghost use Rattle.std.specs.Prelude.{◌≡◌, ◌+◌, ◌≤◌, None, if◌then◌else◌, IfOk, IsTrue, length};
ghost use Rattle.mm_module.specs.Meaning.{words_of};
ghost use Rattle.mm_dispenser.specs.Table.{IsDrawn, draw_of, request_of, state_at_place, seeded_state_of, state_of, outcome_of, outcome_of_draw, text_of, spelling_of, dispenser};
ghost use Rattle.mm_dispenser.specs.DispenserLaws.{dispenser_is_lawful};

use crate::draws::draw;
use mm_bytes::{Bytes, LAST_POSITION, Memory, bytes_of_u64, read_decimal};
use mm_module::{Module, Stepped, Words, u64_of_bytes, value_in};
use std::alloc::Global;

/// Random words: those of ChaCha20 under a seed of 32 bytes, from place 0 on.
///
/// A state is the byte 00 before a seed is set, and from then on 01, the seed (32 bytes) and the
/// place of the next word (8 bytes, the greatest first), at most 2^48.
///
/// `seed HEX`, of 64 hexadecimal digits, sets the seed once. `draw N`, N from 1 to 16, says the
/// place and N words, each in eight lower-case digits, and moves on by N.
#[derive(Clone, Copy)]
pub struct Dispenser;

/// What a dispenser keeps.
#[derive(Clone, Copy)]
enum State {
    Unset,
    Seeded { seed: [u8; 32], place: u64 },
}

/// A request to a dispenser.
#[derive(Clone, Copy)]
enum Request {
    Seed([u8; 32]),
    Draw(u8),
}

/// What a dispenser says.
#[derive(Clone, Copy)]
enum Output {
    Seeded,
    Taken,
    Unset,
    Full,
    Words {
        seed: [u8; 32],
        place: u64,
        count: u8,
    },
    Bad,
}

/// The request for this many words, where they are 1 to 16.
fn drawing(number: u64) -> Option<Request>
    ensures { result ≡ draw_of number }
{
    if 1 <= number && number <= 16 {
        Some(Request::Draw(number as u8))
    } else {
        None
    }
}

/// The request that these bytes are, where they are one.
#[tactic(auto, unfolding(crate::specs::Table::request_of))]
fn read_request(bytes: &[u8]) -> Option<Request>
    ensures { result ≡ request_of (words_of bytes.now) }
{
    match Words::of(bytes) {
        Words::Two(word, seed) if word == b"seed".as_slice() => value_in(seed).map(Request::Seed),
        Words::Two(word, number) if word == b"draw".as_slice() => drawing(read_decimal(number)?),
        _ => None,
    }
}

/// The state of a seed and a place, where there is such a place.
fn seeded(bytes: &[u8], place: u64) -> Option<State>
    requires { length bytes.now ≡ 32 }
    ensures { result ≡ state_at_place bytes.now place }
{
    if place > LAST_POSITION {
        return None;
    }
    let mut seed = [0; 32];
    seed.copy_from_slice(bytes);
    Some(State::Seeded { seed, place })
}

/// The state of these bytes, where they are a seed and a place.
fn read_seeded(bytes: &[u8]) -> Option<State>
    ensures { result ≡ seeded_state_of bytes.now }
{
    if bytes.len() != 40 {
        return None;
    }
    let (seed, place) = bytes.split_at(32);
    seeded(seed, u64_of_bytes(place))
}

/// The state that these bytes spell, where they spell one.
#[tactic(auto, unfolding(crate::specs::Table::state_of))]
fn read_state(bytes: &[u8]) -> Option<State>
    ensures { result ≡ state_of bytes.now }
{
    match bytes {
        [0] => Some(State::Unset),
        [1, _, ..] => read_seeded(&bytes[1..]),
        _ => None,
    }
}

/// What a draw does to a seeded state.
fn drawn(seed: [u8; 32], place: u64, count: u8) -> (State, Output)
    ensures { result ≡ outcome_of_draw seed place count }
{
    match place.checked_add(u64::from(count)) {
        Some(next) if next <= LAST_POSITION => {
            let state = State::Seeded { seed, place: next };
            (state, Output::Words { seed, place, count })
        }
        _ => (State::Seeded { seed, place }, Output::Full),
    }
}

/// What a request does, and what is said.
fn outcome(state: State, request: Option<Request>) -> (State, Output)
    ensures { result ≡ outcome_of state request }
{
    let Some(request) = request else {
        return (state, Output::Bad);
    };
    match (state, request) {
        (State::Unset, Request::Seed(seed)) => (State::Seeded { seed, place: 0 }, Output::Seeded),
        (State::Unset, Request::Draw(_)) => (state, Output::Unset),
        (State::Seeded { .. }, Request::Seed(_)) => (state, Output::Taken),
        (State::Seeded { seed, place }, Request::Draw(count)) => drawn(seed, place, count),
    }
}

/// The text of what is said.
fn text(alloc: Global, says: Output) -> Result<Bytes, Memory>
    requires { IsDrawn says }
    ensures { IfOk result (λ text. text ≡ text_of says) }
{
    match says {
        Output::Seeded => Bytes::copy_of(alloc, b"seeded"),
        Output::Taken => Bytes::copy_of(alloc, b"taken"),
        Output::Unset => Bytes::copy_of(alloc, b"unset"),
        Output::Full => Bytes::copy_of(alloc, b"full"),
        Output::Words { seed, place, count } => draw(alloc, &seed, place, count),
        Output::Bad => Bytes::copy_of(alloc, b"bad"),
    }
}

/// The bytes of a state.
fn spelled(alloc: Global, state: State) -> Result<Bytes, Memory>
    ensures { IfOk result (λ bytes. bytes ≡ spelling_of state) }
{
    match state {
        State::Unset => Bytes::copy_of(alloc, &[0]),
        State::Seeded { seed, place } => {
            let mut bytes = Bytes::with_capacity(alloc, 41)?;
            bytes.push(1)?;
            bytes.append(&seed)?;
            bytes.append(&bytes_of_u64(place))?;
            Ok(bytes)
        }
    }
}

#[tactic(auto, unfolding(crate::specs::Table::outcome_of_bytes))]
impl Module for Dispenser {
    ghost meaning = { λ _. dispenser };

    ghost is_lawful = { λ _. dispenser_is_lawful };

    fn id(&self) -> u8 {
        4
    }

    fn first_state(&self, alloc: Global) -> Result<Bytes, Memory> {
        Bytes::copy_of(alloc, &[0])
    }

    fn state_is_spelled(&self, state: &[u8]) -> bool {
        read_state(state).is_some()
    }

    fn step(&self, alloc: Global, state: &[u8], request: &[u8]) -> Result<Stepped, Memory> {
        let state = read_state(state).unwrap_or(State::Unset);
        let (state, says) = outcome(state, read_request(request));
        Ok(Stepped {
            state: spelled(alloc, state)?,
            output: text(alloc, says)?,
        })
    }
}
