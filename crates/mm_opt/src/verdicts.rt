//! The verdict on an offered place, by digests.

ghost use Rattle.std.specs.Prelude.{◌≡◌, false};
ghost use Rattle.std.specs.List.{list_any};
ghost use Rattle.std.specs.Str.{bytes_eq};
ghost use Rattle.mm_digest.specs.Messages.{zero_bytes};
ghost use Rattle.mm_model.specs.Verdicts.{forms_of, is_fresh_form, is_repeat_form, opt_verdict};
ghost use Rattle.mm_opt.specs.Answers.{point, has_lost_power};

use mm_digest::{Digest, anchored, extended, zero};
use mm_model::Verdict;
use mm_seal::Cell;

/// The verdict on the place with this anchor and extension, by the cell, the register's value and
/// that of the batch.
pub fn verdict(
    cell: &Cell,
    register: &Digest,
    anchor: &Digest,
    extension: &Digest,
    value: &Digest,
) -> Verdict
    ensures { result ≡ opt_verdict cell.now.flag cell.now.summary.bytes register.now.bytes
        (forms_of anchor.now.bytes extension.now.bytes) value.now.bytes }
{
    if has_lost_power(cell, register) {
        return Verdict::Lost;
    }
    if is_fresh(cell, register, anchor, extension) {
        return Verdict::Fresh;
    }
    if is_again(cell, register, anchor, extension, value) {
        return Verdict::Again;
    }
    Verdict::Stale
}

/// Whether power was lost inside an open segment: the flag is set and the register reads zero.
pub fn has_lost_power(cell: &Cell, register: &Digest) -> bool
    ensures { result ≡ has_lost_power cell.now register.now.bytes }
{
    cell.flag && is_zero(register)
}

/// Whether a digest is zero.
pub fn is_zero(digest: &Digest) -> bool
    ensures { result ≡ bytes_eq digest.now.bytes zero_bytes }
{
    *digest == zero()
}

// Whether a form of the place fits as fresh. The place that a closed segment led to is at an
// anchor, where none is open.
fn is_fresh(cell: &Cell, register: &Digest, anchor: &Digest, extension: &Digest) -> bool
    requires { has_lost_power cell.now register.now.bytes ≡ false }
    ensures { result ≡ list_any
        (is_fresh_form cell.now.flag cell.now.summary.bytes register.now.bytes)
        (forms_of anchor.now.bytes extension.now.bytes) }
{
    fits_fresh(cell, register, anchor, extension)
        || !cell.flag && !is_zero(extension) && anchored(anchor, extension) == cell.summary
}

// Whether a form of the place fits as a repeat.
fn is_again(
    cell: &Cell,
    register: &Digest,
    anchor: &Digest,
    extension: &Digest,
    value: &Digest,
) -> bool
    ensures { result ≡ list_any
        (is_repeat_form cell.now.flag cell.now.summary.bytes register.now.bytes value.now.bytes)
        (forms_of anchor.now.bytes extension.now.bytes) }
{
    fits_again(cell, register, anchor, extension, value)
        || !is_zero(extension)
            && fits_again(cell, register, &anchored(anchor, extension), &zero(), value)
}

// Whether this form is where the platform stands.
fn fits_fresh(cell: &Cell, register: &Digest, anchor: &Digest, extension: &Digest) -> bool
    ensures { result ≡ is_fresh_form cell.now.flag cell.now.summary.bytes register.now.bytes
        (point anchor.now.bytes extension.now.bytes) }
{
    if *anchor != cell.summary {
        return false;
    }
    if cell.flag {
        return extension == register;
    }
    is_zero(extension)
}

// Whether the batch leads from this form to where the platform stands.
fn fits_again(
    cell: &Cell,
    register: &Digest,
    anchor: &Digest,
    extension: &Digest,
    value: &Digest,
) -> bool
    ensures { result ≡ is_repeat_form cell.now.flag cell.now.summary.bytes register.now.bytes
        value.now.bytes (point anchor.now.bytes extension.now.bytes) }
{
    if cell.flag {
        return *anchor == cell.summary && extended(extension, value) == *register;
    }
    anchored(anchor, &extended(extension, value)) == cell.summary
}
