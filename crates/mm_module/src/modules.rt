//! What a module is.

ghost use Rattle.std.specs.Prelude.{◌≡◌, ◌↔◌, ◌++◌, IfOk, OnOk, IsTrue};
ghost use Rattle.mm_module.specs.Meaning.{Meaning, IsLine, IsLawful, IsShort};

use mm_bytes::{Bytes, LONGEST_REQUEST, Memory};
use std::alloc::Global;

/// What one request gave: the state after it, and what the module says.
#[derive(Drop)]
pub struct Stepped {
    /// The state after the request.
    pub state: Bytes,
    /// What the module says, at most 4,096 bytes and no LF.
    pub output: Bytes,
}

/// A small program whose states, requests and outputs are byte lists.
///
/// A state has at most 65,536 bytes, or 1,048,576 where the id is 128 or more.
pub trait Module {
    /// The module as functions of byte lists: what each call below gives.
    ghost meaning: { Self → Meaning };

    /// The number under which cells and snapshots name the module.
    fn id(&self) -> u8
        ensures { result ≡ (meaning self.now).id };

    /// The state before every request.
    fn first_state(&self, alloc: Global) -> Result<Bytes, Memory>
        ensures { IfOk result (λ state. state ≡ (meaning self.now).first) };

    /// Whether these bytes are a state of the module. Takes no memory.
    fn state_is_spelled(&self, state: &[u8]) -> bool
        ensures { result ≡ (meaning self.now).is_spelled state.now };

    /// The state after a request of at most 4,096 bytes with no LF, and what the module says.
    fn step(&self, alloc: Global, state: &[u8], request: &[u8]) -> Result<Stepped, Memory>
        requires spelled { IsTrue ((meaning self.now).is_spelled state.now) }
        requires line { IsLine request.now }
        ensures state { IfOk result (λ stepped. stepped.state
            ≡ (meaning self.now).next state.now request.now) }
        ensures output { IfOk result (λ stepped. stepped.output
            ≡ (meaning self.now).says state.now request.now) };

    /// The same, with the state put at the end of these bytes, and what the module says. After want
    /// of memory nothing is said of what stands there.
    fn step_into(
        &self,
        alloc: Global,
        state: &[u8],
        request: &[u8],
        into: &mut Bytes,
    ) -> Result<Bytes, Memory>
        requires spelled { IsTrue ((meaning self.now).is_spelled state.now) }
        requires line { IsLine request.now }
        ensures state { OnOk result (into.new
            ≡ into.old ++ (meaning self.now).next state.now request.now) }
        ensures output { IfOk result (λ output. output
            ≡ (meaning self.now).says state.now request.now) }
    {
        let Stepped { state, output } = self.step(alloc, state, request)?;
        if into.as_slice().is_empty() {
            *into = state;
        } else {
            into.append(state.as_slice())?;
        }
        Ok(output)
    }

    /// The laws hold at every module.
    ghost is_lawful: { (it : Self) → IsLawful (meaning it) };
}

/// A module with short states and outputs.
pub trait Short: Module {
    /// A state has at most 65,000 bytes, and an output at most 256.
    ghost is_short: { (it : Self) → IsShort (Self.meaning it) };
}

/// Whether a module takes these bytes as a request: at most 4,096 bytes and no LF.
pub fn is_line(text: &[u8]) -> bool
    ensures { IsTrue result ↔ IsLine text.now }
{
    text.len() <= LONGEST_REQUEST && !text.contains(&b'\n')
}
