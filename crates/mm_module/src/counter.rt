//! The counter: a value of 64 bits that requests read and add to.

ghost use Rattle.std.specs.Prelude.{◌≡◌, IfOk, IsTrue};
ghost use Rattle.mm_module.specs.Meaning.{words_of, request_of, outcome_of, text_of, counter};
ghost use Rattle.mm_module.specs.RunLaws.{counter_is_lawful, counter_is_short};

use crate::modules::{Module, Short, Stepped};
use crate::texts::u64_of_bytes;
use crate::words::Words;
use mm_bytes::{Bytes, Memory, bytes_of_u64, put_decimal, read_decimal};
use std::alloc::Global;

/// A value of 64 bits, 0 at first. Its state is the value in 8 bytes, the greatest first.
///
/// `read` says the value. `add N` adds N and says the new value, or says `full` where that is over
/// 18446744073709551615 and leaves the value. Anything else says `bad` and leaves the value.
#[derive(Clone, Copy, PartialEq, Eq)]
pub struct Counter;

/// A request to a counter.
#[derive(Clone, Copy)]
enum Request {
    Read,
    Add(u64),
}

/// A value has at most so many digits.
const LONGEST_VALUE: usize = 20;

/// What a counter says.
#[derive(Clone, Copy)]
enum Output {
    Value(u64),
    Full,
    Bad,
}

/// The request that these bytes are, where they are one.
fn read_request(bytes: &[u8]) -> Option<Request>
    ensures { result ≡ request_of (words_of bytes.now) }
{
    match Words::of(bytes) {
        Words::One(word) if word == b"read".as_slice() => Some(Request::Read),
        Words::Two(word, number) if word == b"add".as_slice() => read_decimal(number).map(
            Request::Add,
        ),
        _ => None,
    }
}

/// The value after a request, and what the counter says.
fn outcome(value: u64, request: Option<Request>) -> (u64, Output)
    ensures { result ≡ outcome_of value request }
{
    match request {
        Some(Request::Read) => (value, Output::Value(value)),
        Some(Request::Add(number)) => match value.checked_add(number) {
            Some(sum) => (sum, Output::Value(sum)),
            None => (value, Output::Full),
        },
        None => (value, Output::Bad),
    }
}

/// The text of what is said.
fn text(alloc: Global, says: Output) -> Result<Bytes, Memory>
    ensures { IfOk result (λ text. text ≡ text_of says) }
{
    match says {
        Output::Value(value) => {
            let mut text = Bytes::with_capacity(alloc, LONGEST_VALUE)?;
            put_decimal(&mut text, value)?;
            Ok(text)
        }
        Output::Full => Bytes::copy_of(alloc, b"full"),
        Output::Bad => Bytes::copy_of(alloc, b"bad"),
    }
}

#[tactic(auto, unfolding(crate::specs::Meaning::outcome_of_bytes, crate::specs::Meaning::is_state))]
impl Module for Counter {
    ghost meaning = { λ _. counter };

    ghost is_lawful = { λ _. counter_is_lawful };

    fn id(&self) -> u8 {
        1
    }

    fn first_state(&self, alloc: Global) -> Result<Bytes, Memory> {
        Bytes::copy_of(alloc, &[0; 8])
    }

    fn state_is_spelled(&self, state: &[u8]) -> bool {
        state.len() == 8
    }

    fn step(&self, alloc: Global, state: &[u8], request: &[u8]) -> Result<Stepped, Memory> {
        let mut next = Bytes::new(alloc);
        let output = self.step_into(alloc, state, request, &mut next)?;
        Ok(Stepped {
            state: next,
            output,
        })
    }

    fn step_into(
        &self,
        alloc: Global,
        state: &[u8],
        request: &[u8],
        into: &mut Bytes,
    ) -> Result<Bytes, Memory> {
        let (value, says) = outcome(u64_of_bytes(state), read_request(request));
        into.append(&bytes_of_u64(value))?;
        text(alloc, says)
    }
}

impl Short for Counter {
    ghost is_short = { λ _. counter_is_short };
}
