//! A module that gives receipts, in the list of modules.

ghost use Rattle.mm_receipted.specs.ReceiptListing.{receipt_listing, receipt_is_listed};

use crate::receipted::Receipted;
use mm_bytes::{Bytes, Memory};
use mm_listing::Listed;
use mm_module::Short;

impl<M: Short + Listed> Listed for Receipted<M> {
    ghost listing = { λ it. receipt_listing (M.listing it.inner) };

    ghost is_listed = { λ it. receipt_is_listed (M.meaning it.inner) (M.listing it.inner)
        (M.is_listed it.inner) (M.is_short it.inner) };

    fn is_named(&self, name: &[u8]) -> bool {
        match name.strip_prefix(b"receipt-") {
            None => false,
            Some(rest) => self.inner.is_named(rest),
        }
    }

    fn put_name(&self, into: &mut Bytes) -> Result<(), Memory> {
        into.append(b"receipt-")?;
        self.inner.put_name(into)
    }

    fn put_request(&self, into: &mut Bytes, choice: u32) -> Result<(), Memory> {
        self.inner.put_request(into, choice)
    }
}
