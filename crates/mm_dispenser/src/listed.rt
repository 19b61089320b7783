//! The dispenser in the list of modules.

ghost use Rattle.mm_dispenser.specs.DispenserListing.{dispenser_listing, dispenser_is_listed};

use crate::dispenser::Dispenser;
use mm_bytes::{Bytes, Memory, put_numbered};
use mm_listing::Listed;

impl Listed for Dispenser {
    ghost listing = { λ _. dispenser_listing };

    ghost is_listed = { λ _. dispenser_is_listed };

    fn is_named(&self, name: &[u8]) -> bool {
        name == b"dispenser".as_slice()
    }

    fn put_name(&self, into: &mut Bytes) -> Result<(), Memory> {
        into.append(b"dispenser")
    }

    fn put_request(&self, into: &mut Bytes, choice: u32) -> Result<(), Memory> {
        match choice % 4 {
            0 => into.append(
                b"seed 0000000000000000000000000000000000000000000000000000000000000000",
            ),
            _ => put_numbered(into, b"draw ", u64::from(choice / 4 % 16 + 1)),
        }
    }
}
