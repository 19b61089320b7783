//! The machine that a protected module stands for: one state, and no snapshots.

ghost use Rattle.std.specs.Prelude.{◌≡◌, [], ◌∷◌, ◌++◌, length, IfOk, IsTrue, OnOk, OnErr, MatchOption};
ghost use Rattle.mm_module.specs.Meaning.{IsLine, last_output_after};

use mm_bytes::{Bytes, Memory};
use mm_module::{Module, Stepped};
use std::alloc::Global;
use std::marker::Model;

/// A module that runs requests one after another, and keeps their list.
#[derive(Drop)]
pub struct Machine<M: Module + Drop> {
    alloc: Global,
    runner: M,
    requests: Vec<Bytes>,
    state: Bytes,
    output: Bytes,
}

impl<M: Module + Drop> Model for Machine<M> {
    ghost use Rattle.mm_reference.specs.Run.{Run, IsStateOfRun};

    ghost Value = { Run M };

    ghost view = { λ m. record { runner = m.runner; requests = m.requests.items } };

    ghost invariant = { λ m. IsStateOfRun (M.meaning m.runner) m.requests.items m.state m.output };
}

// What the module's step comes to, with a copy of what it says.
fn step<M: Module>(
    alloc: Global,
    runner: &M,
    state: &[u8],
    request: &[u8],
) -> Result<(Stepped, Bytes), Memory>
    requires spelled { IsTrue ((M.meaning runner.now).is_spelled state.now) }
    requires line { IsLine request.now }
    ensures state { IfOk result (λ came. came.0.state
        ≡ (M.meaning runner.now).next state.now request.now) }
    ensures output { IfOk result (λ came. came.0.output
        ≡ (M.meaning runner.now).says state.now request.now) }
    ensures said { IfOk result (λ came. came.1 ≡ came.0.output) }
{
    let stepped = runner.step(alloc, state, request)?;
    let said = Bytes::copy_of(alloc, stepped.output.as_slice())?;
    Ok((stepped, said))
}

// Puts a copy at the end.
fn push_copy(alloc: Global, list: &mut Vec<Bytes>, bytes: &[u8]) -> Result<(), Memory>
    ensures ok { OnOk result (list.new.items ≡ list.old.items ++ bytes.now ∷ []) }
    ensures err { OnErr result (list.new.items ≡ list.old.items) }
{
    let copy = Bytes::copy_of(alloc, bytes)?;
    list.push(copy)?;
    Ok(())
}

impl<M: Module + Drop> Machine<M> {
    /// A machine before every request.
    pub fn new(alloc: Global, runner: M) -> Result<Machine<M>, Memory>
        ensures { IfOk result (λ m. (m.runner ≡ runner) × (m.requests ≡ [])) }
    {
        let state = runner.first_state(alloc)?;
        Ok(Machine {
            alloc,
            runner,
            requests: Vec::new(alloc),
            state,
            output: Bytes::new(alloc),
        })
    }

    /// Runs a request of at most 4,096 bytes with no LF, and gives what the module says. After want
    /// of memory the machine is as before.
    pub fn accept(&mut self, request: &[u8]) -> Result<Bytes, Memory>
        requires { IsLine request.now }
        ensures same { self.new.runner ≡ self.old.runner }
        ensures requests { IfOk result
            (λ _. self.new.requests ≡ self.old.requests ++ request.now ∷ []) }
        ensures output { IfOk result
            (λ said. said ≡ last_output_after (M.meaning self.new.runner) self.new.requests) }
        ensures err { OnErr result (self.new.requests ≡ self.old.requests) }
    {
        let (stepped, said) = step(self.alloc, &self.runner, self.state.as_slice(), request)?;
        push_copy(self.alloc, &mut self.requests, request)?;
        self.state = stepped.state;
        self.output = stepped.output;
        Ok(said)
    }

    /// The number of requests run.
    pub fn len(&self) -> u64
        ensures { result ≡ length self.now.requests }
    {
        self.requests.len() as u64
    }

    /// What the module said to the last request, None where there was none.
    pub fn last_output(&self) -> Option<&[u8]>
        ensures { MatchOption result (self.now.requests ≡ [])
            (λ said. said.now ≡ last_output_after (M.meaning self.now.runner) self.now.requests) }
    {
        if self.requests.is_empty() {
            None
        } else {
            Some(self.output.as_slice())
        }
    }
}
