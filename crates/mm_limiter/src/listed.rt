//! The limiter in the list of modules.

ghost use Rattle.mm_limiter.specs.LimiterListing.{limiter_listing, limiter_is_listed};

use crate::limiter::Limiter;
use mm_bytes::{Bytes, Memory, put_numbered};
use mm_listing::Listed;

impl Listed for Limiter {
    ghost listing = { λ _. limiter_listing };

    ghost is_listed = { λ _. limiter_is_listed };

    fn is_named(&self, name: &[u8]) -> bool {
        name == b"limiter".as_slice()
    }

    fn put_name(&self, into: &mut Bytes) -> Result<(), Memory> {
        into.append(b"limiter")
    }

    fn put_request(&self, into: &mut Bytes, choice: u32) -> Result<(), Memory> {
        match choice % 8 {
            0 => into.append(b"set pw 50"),
            1 => into.append(b"left"),
            2 => into.append(b"guess pw"),
            _ => put_numbered(into, b"guess ", u64::from(choice / 8 % 100)),
        }
    }
}
