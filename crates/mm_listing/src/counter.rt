//! The counter in the list of modules.

ghost use Rattle.mm_listing.specs.CounterListing.{counter_listing, counter_is_listed};

use crate::listed::Listed;
use mm_bytes::{Bytes, Memory, put_numbered};
use mm_module::Counter;

impl Listed for Counter {
    ghost listing = { λ _. counter_listing };

    ghost is_listed = { λ _. counter_is_listed };

    fn is_named(&self, name: &[u8]) -> bool {
        name == b"counter".as_slice()
    }

    fn put_name(&self, into: &mut Bytes) -> Result<(), Memory> {
        into.append(b"counter")
    }

    fn put_request(&self, into: &mut Bytes, choice: u32) -> Result<(), Memory> {
        match choice % 4 {
            0 => into.append(b"read"),
            _ => put_numbered(into, b"add ", u64::from(choice / 4 % 1000)),
        }
    }
}
