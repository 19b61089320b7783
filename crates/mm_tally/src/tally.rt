//! The tally as a module.

ghost use Rattle.std.specs.Prelude.{◌≡◌, IsTrue};
ghost use Rattle.mm_tally.specs.Table.{count_after, count_in, is_mark, tally};
ghost use Rattle.mm_tally.specs.TallyLaws.{tally_is_lawful};

use mm_bytes::{Bytes, Memory, put_decimal};
use mm_module::{Module, Stepped};
use std::alloc::Global;

/// A count of marks, 0 at first and at most 255. Its state is the count in one byte.
///
/// `mark` counts one more, as far as 255. Each request says the count behind it.
#[derive(Clone, Copy, PartialEq, Eq)]
pub struct Tally;

/// The count of a state.
fn count_in(state: &[u8]) -> u8
    ensures { result ≡ count_in state.now }
{
    match state {
        [count, ..] => *count,
        [] => 0,
    }
}

/// The count after a request.
fn count_after(count: u8, request: &[u8]) -> u8
    ensures { result ≡ count_after count request.now }
{
    if request == b"mark".as_slice() {
        count.saturating_add(1)
    } else {
        count
    }
}

#[tactic(auto, unfolding(crate::specs::Table::is_state))]
impl Module for Tally {
    ghost meaning = { λ _. tally };

    ghost is_lawful = { λ _. tally_is_lawful };

    fn id(&self) -> u8 {
        5
    }

    fn first_state(&self, alloc: Global) -> Result<Bytes, Memory> {
        Bytes::copy_of(alloc, &[0])
    }

    fn state_is_spelled(&self, state: &[u8]) -> bool {
        state.len() == 1
    }

    fn step(&self, alloc: Global, state: &[u8], request: &[u8]) -> Result<Stepped, Memory> {
        let count = count_after(count_in(state), request);
        let mut output = Bytes::new(alloc);
        put_decimal(&mut output, u64::from(count))?;
        Ok(Stepped {
            state: Bytes::copy_of(alloc, &[count])?,
            output,
        })
    }
}
