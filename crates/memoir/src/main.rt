//! The program: the process over what the words of its command line do.
#![tactic(auto)]

use mm_app::{Status, memoir};
use mm_base::{Sink, Source};
use mm_platform::Platform;
use mm_process::{Program, exit_status};
use mm_store::Store;
use std::alloc::Global;
use std::process::ExitCode;

struct Memoir;

impl Program for Memoir {
    fn carry_out<P: Platform, T: Store, S: Source, E: Source, K: Sink>(
        &self,
        alloc: Global,
        words: &[&str],
        platform: &mut P,
        store: &mut T,
        input: &mut S,
        entropy: &mut E,
        out: &mut K,
    ) -> Status {
        memoir(alloc, words, platform, store, input, entropy, out)
    }
}

fn main(rt: HostRuntime) -> ExitCode {
    ExitCode::from(exit_status(&rt, &Memoir))
}
