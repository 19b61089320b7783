//! What a batch said.

ghost use Rattle.std.specs.Prelude.{◌≡◌, [], ◌∷◌, ◌++◌, ◌==◌, length, slice_get, option_copied, OnOk, OnErr};

use mm_bytes::{Bytes, Memory};
use std::alloc::Global;
use std::marker::Model;
use std::mem;

/// Outputs: one, which takes no memory besides its own, or a list.
#[derive(Drop)]
enum OutputItems {
    One(Bytes),
    Many(Vec<Bytes>),
}

/// The outputs of the members of a batch, in order. Contracts see the list of their byte lists.
#[derive(Drop)]
pub struct Outputs {
    alloc: Global,
    items: OutputItems,
}

impl Model for Outputs {
    ghost use Rattle.std.specs.Prelude.{List, ℕ};
    ghost use Rattle.mm_module.specs.Meaning.{listed_outputs};

    ghost Value = { List (List ℕ) };

    ghost view = { λ outputs. listed_outputs outputs.items };
}

impl Outputs {
    /// No outputs. Takes no memory.
    pub fn new(alloc: Global) -> Outputs
        ensures { result ≡ [] }
    {
        Outputs {
            alloc,
            items: OutputItems::Many(Vec::new(alloc)),
        }
    }

    /// One output. Takes no memory.
    pub fn one(alloc: Global, output: Bytes) -> Outputs
        ensures { result ≡ output ∷ [] }
    {
        Outputs {
            alloc,
            items: OutputItems::One(output),
        }
    }

    /// Puts one output at the end.
    pub fn push(&mut self, output: Bytes) -> Result<(), Memory>
        ensures ok { OnOk result (self.new ≡ self.old ++ output ∷ []) }
        ensures err { OnErr result (self.new ≡ self.old) }
    {
        match &mut self.items {
            OutputItems::Many(items) => {
                items.push(output)?;
                Ok(())
            }
            OutputItems::One(first) => {
                let mut items = Vec::with_capacity(self.alloc, 2)?;
                items.push_reserved(mem::replace(first, Bytes::new(self.alloc)));
                items.push_reserved(output);
                self.items = OutputItems::Many(items);
                Ok(())
            }
        }
    }

    /// The number of outputs.
    pub fn len(&self) -> usize
        ensures { result ≡ length self.now }
    {
        match &self.items {
            OutputItems::One(_) => 1,
            OutputItems::Many(items) => items.len(),
        }
    }

    /// Whether there is none.
    pub fn is_empty(&self) -> bool
        ensures { result ≡ (length self.now == 0) }
    {
        match &self.items {
            OutputItems::One(_) => false,
            OutputItems::Many(items) => items.is_empty(),
        }
    }

    /// The output at this index, None from `len` on. Takes no memory.
    pub fn get(&self, i: usize) -> Option<&[u8]>
        ensures { option_copied result ≡ slice_get self.now i }
    {
        let output = match &self.items {
            OutputItems::One(output) if i == 0 => output,
            OutputItems::One(_) => return None,
            OutputItems::Many(items) => items.get(i)?,
        };
        Some(output.as_slice())
    }

    /// The only output. Takes no memory.
    pub fn into_one(self) -> Bytes
        requires { length self ≡ 1 }
        ensures { self ≡ result ∷ [] }
    {
        let Outputs { items, .. } = self;
        match items {
            OutputItems::One(output) => output,
            OutputItems::Many(mut items) => match items.pop() {
                Some(output) => output,
                None => unreachable!(),
            },
        }
    }
}
