//! Pages of bytes.

ghost use Rattle.std.specs.Prelude.{◌≡◌, ◌≤◌};
ghost use Rattle.mm_pages.specs.Rows.{page_of, page_count};

/// The bytes of a page.
pub const PAGE: usize = 256;

/// The 256 bytes of a page; those past the end are zero.
pub fn page_of(bytes: &[u8], page: u16) -> [u8; 256]
    ensures { result ≡ page_of bytes.now page }
{
    let mut padded = [0; 256];
    let (_, rest) = bytes.split_at((PAGE * usize::from(page)).min(bytes.len()));
    let (part, _) = rest.split_at(rest.len().min(PAGE));
    let (front, _) = padded.split_at_mut(part.len());
    front.copy_from_slice(part);
    padded
}

/// How many pages that many bytes fill.
pub fn page_count(length: usize) -> u16
    requires { length ≤ 1100032 }
    ensures { result ≡ page_count length }
{
    length.div_ceil(PAGE) as u16
}
