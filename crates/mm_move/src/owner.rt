//! Whose a cell is.

ghost use Rattle.std.specs.Prelude.{◌≡◌};
ghost use Rattle.mm_move.specs.Orders.{barrier_of, is_barred, is_other};

use crate::link::Link;
use mm_digest::{Variant, zero};

/// The barrier of a module that moves over the link. Basic has none.
pub fn barrier_of(variant: Variant, link: &Link) -> [u8; 32]
    ensures { result ≡ barrier_of variant link.now }
{
    match variant {
        Variant::Basic => zero().bytes,
        Variant::Opt => link.barrier,
    }
}

/// Whether a cell of this variant has another barrier than the link. In Basic it counts for
/// nothing.
pub fn is_barred(variant: Variant, barrier: &[u8; 32], link: &Link) -> bool
    ensures { result ≡ is_barred variant barrier.now link.now }
{
    match variant {
        Variant::Basic => false,
        Variant::Opt => *barrier != link.barrier,
    }
}

/// Whether a cell with this variant and module is another's.
pub fn is_other(variant: Variant, id: u8, its_variant: Variant, its_id: u8) -> bool
    ensures { result ≡ is_other variant id its_variant its_id }
{
    !(its_variant == variant && its_id == id)
}
