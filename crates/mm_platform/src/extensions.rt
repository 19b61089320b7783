//! The extensions of a register, and the value that they make.

ghost use Rattle.std.specs.Prelude.{◌≡◌, ◌+◌, ◌<◌, ◌≤◌, [], ◌∷◌, ◌++◌, OnOk, OnErr, vec_len, vec_capacity, count_by};
ghost use Rattle.mm_platform.specs.Standing.{item_values, register_after};
ghost use Rattle.mm_platform.specs.Memory.{item_of, items_of, is_own};

use mm_bytes::Memory;
use mm_digest::{Digest, extended, zero};
use std::alloc::Global;

/// One extension: by the platform's own program, or by others.
#[derive(Clone, Copy)]
pub struct Entry {
    pub own: bool,
    pub value: Digest,
}

/// The extensions since the register was zero, with the register's value.
#[derive(Drop)]
pub struct Extensions {
    pub entries: Vec<Entry>,
    pub value: Digest,
    ghost folded: { value.bytes ≡ register_after (item_values (items_of entries.items)) },
}

impl Extensions {
    pub fn new(alloc: Global) -> Extensions
        ensures { result.entries.items ≡ [] }
    {
        Extensions {
            entries: Vec::new(alloc),
            value: zero(),
        }
    }

    /// Makes room for that many more.
    #[inline(always)]
    pub fn reserve(&mut self, additional: usize) -> Result<(), Memory>
        ensures entries { self.new.entries.items ≡ self.old.entries.items }
        ensures len { vec_len self.new.entries ≡ vec_len self.old.entries }
        ensures room { OnOk result (vec_len self.new.entries + additional
            ≤ vec_capacity self.new.entries) }
        ensures kept { vec_capacity self.old.entries ≤ vec_capacity self.new.entries }
    {
        self.entries.reserve(additional)?;
        Ok(())
    }

    #[inline(always)]
    pub fn push(&mut self, entry: Entry)
        requires { vec_len self.old.entries < vec_capacity self.old.entries }
        ensures entries { self.new.entries.items ≡ self.old.entries.items ++ entry ∷ [] }
        ensures len { vec_len self.new.entries ≡ vec_len self.old.entries + 1 }
        ensures kept { vec_capacity self.new.entries ≡ vec_capacity self.old.entries }
    {
        self.value = extended(&self.value, &entry.value);
        self.entries.push_reserved(entry);
    }

    #[inline(always)]
    pub fn clear(&mut self)
        ensures entries { self.new.entries.items ≡ [] }
        ensures len { vec_len self.new.entries ≡ 0 }
        ensures kept { vec_capacity self.new.entries ≡ vec_capacity self.old.entries }
    {
        self.value = zero();
        self.entries.clear();
    }

    pub fn count_own(&self) -> usize
        ensures { result ≡ count_by is_own (items_of self.now.entries.items) }
    {
        self.entries.iter().filter(|entry| entry.own).count()
    }
}
