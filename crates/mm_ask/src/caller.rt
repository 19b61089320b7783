//! Who asks.

use mm_digest::Variant;
use std::alloc::Global;

/// A module in a variant, and the allocator of what is done for it.
#[derive(Drop)]
pub struct Caller<'a, M> {
    pub alloc: Global,
    pub variant: Variant,
    pub module: &'a M,
}
