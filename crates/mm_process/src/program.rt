//! What a process runs.

use mm_base::{Sink, Source};
use mm_platform::Platform;
use mm_status::Status;
use mm_store::Store;
use std::alloc::Global;

/// A program over devices, whatever they are.
pub trait Program {
    /// Does what the words after the program's name say.
    fn carry_out<P: Platform, T: Store, S: Source, E: Source, K: Sink>(
        &self,
        alloc: Global,
        words: &[&str],
        platform: &mut P,
        store: &mut T,
        input: &mut S,
        entropy: &mut E,
        out: &mut K,
    ) -> Status;
}
