//! The tally as the list of modules takes it.

ghost use Rattle.mm_tally.specs.TallyListing.{tally_listing, tally_is_listed};

use crate::tally::Tally;
use mm_bytes::{Bytes, Memory};
use mm_listing::Listed;

impl Listed for Tally {
    ghost listing = { λ _. tally_listing };

    ghost is_listed = { λ _. tally_is_listed };

    fn is_named(&self, name: &[u8]) -> bool {
        name == b"tally".as_slice()
    }

    fn put_name(&self, into: &mut Bytes) -> Result<(), Memory> {
        into.append(b"tally")
    }

    fn put_request(&self, into: &mut Bytes, choice: u32) -> Result<(), Memory> {
        match choice % 4 {
            0 => into.append(b"read"),
            _ => into.append(b"mark"),
        }
    }
}
