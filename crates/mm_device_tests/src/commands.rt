//! Single commands over a platform and a store in memory.

use crate::limits::Repeated;
use mm_app::memoir;
use mm_base::{Sink, Source};
use mm_platform::{MemPlatform, Platform};
use mm_store::{MemStore, Store};
use std::alloc::Global;

/// Does what the words say over these objects, and answers the exit status. The entropy gives 64
/// bytes.
pub fn command<P: Platform, T: Store, S: Source, K: Sink>(
    alloc: Global,
    words: &[&str],
    platform: &mut P,
    store: &mut T,
    input: &mut S,
    out: &mut K,
) -> u8 {
    let mut entropy = Repeated {
        next: &[7; 64],
        again: &[],
        times: 0,
    };
    memoir(alloc, words, platform, store, input, &mut entropy, out).code()
}

/// Does what a word says over a blank platform and an empty store, and answers the exit status.
pub fn play<S: Source, K: Sink>(alloc: Global, word: &str, input: &mut S, out: &mut K) -> u8 {
    let mut platform = MemPlatform::new(alloc, &[0; 104]);
    let mut store = MemStore::new(alloc);
    command(alloc, &[word], &mut platform, &mut store, input, out)
}

/// Replays an input, and answers the exit status.
pub fn replay<S: Source, K: Sink>(alloc: Global, input: &mut S, out: &mut K) -> u8 {
    play(alloc, "replay", input, out)
}
