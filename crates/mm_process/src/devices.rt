//! The devices of the process: files of the current directory, and its input and output. Each
//! function makes some of them, and hands them on.

use crate::bad_line::is_read_by_words;
use crate::kept::KeptSource;
use crate::numbers::taken_numbers;
use crate::program::Program;
use crate::reasons::{Reasons, say};
use crate::streams::{Stream, are_of_instance};
use crate::words::words_after_name;
use mm_bytes::Memory;
use mm_files::{FilePages, FilePlatform, FileSource, StdSink, StdSource};
use mm_pages::PageStore;
use mm_status::Status;
use mm_twocell::TwoCell;
use std::io;
use std::io::ErrorKind;

/// Runs the program, says on standard error why it stopped where not all was done, and answers the
/// exit status. Before a file is opened the numbers of closed streams are taken.
pub fn exit_status<G: Program>(rt: &HostRuntime, program: &G) -> u8 {
    let _taken = taken_numbers(rt);
    match carry_out(rt, program) {
        Ok(status) => status.code(),
        Err(_) => {
            let _ = print!(rt; "stop memory\n");
            let _ = eprint!(rt; "out of memory\n");
            Status::Memory.code()
        }
    }
}

fn carry_out<G: Program>(rt: &HostRuntime, program: &G) -> io::Result<Status> {
    let texts = words_after_name(rt)?;
    with_words(rt, program, texts.as_slice())
}

fn with_words<G: Program>(rt: &HostRuntime, program: &G, texts: &[String]) -> io::Result<Status> {
    let mut words: Vec<&str> = Vec::new(rt.alloc());
    for text in texts.iter() {
        words.push(text.as_str())?;
    }
    with_store(rt, program, &words)
}

fn with_store<G: Program>(rt: &HostRuntime, program: &G, words: &[&str]) -> io::Result<Status> {
    if is_over_files(words) && are_of_instance(rt) {
        return Ok(with_no_streams(rt));
    }
    match store_in_files(rt) {
        Ok(mut store) => Ok(with_platform(rt, program, words, &mut store)),
        Err(_) => Err(io::Error::from(ErrorKind::OutOfMemory)),
    }
}

// Whether the command is one over the files of an instance.
fn is_over_files(words: &[&str]) -> bool {
    matches!(
        words.first().copied(),
        Some("init" | "run" | "checkpoint" | "power")
    )
}

// A stream is a file of the instance: nothing is done, and nothing is written to it.
fn with_no_streams(rt: &HostRuntime) -> Status {
    if !Stream::Error.is_of_instance(rt) {
        let _ = eprint!(rt; "a standard stream is a file of the instance\n");
    }
    Status::WriteFault
}

// The store in the slots' files.
fn store_in_files(rt: &HostRuntime) -> Result<PageStore<FilePages<'_, HostRuntime>>, Memory> {
    PageStore::new(rt.alloc(), FilePages::new(rt.alloc(), rt)?)
}

fn with_platform<G: Program>(
    rt: &HostRuntime,
    program: &G,
    words: &[&str],
    store: &mut PageStore<FilePages<'_, HostRuntime>>,
) -> Status {
    with_streams(
        rt,
        program,
        words,
        &mut TwoCell::new(platform_for(rt, words)),
        store,
    )
}

// The platform for these words: `init` alone makes `nv`.
fn platform_for<'a>(rt: &'a HostRuntime, words: &[&str]) -> FilePlatform<'a, HostRuntime> {
    if words.first().copied() == Some("init") {
        FilePlatform::new(rt)
    } else {
        FilePlatform::existing(rt)
    }
}

fn with_streams<G: Program>(
    rt: &HostRuntime,
    program: &G,
    words: &[&str],
    platform: &mut TwoCell<FilePlatform<'_, HostRuntime>>,
    store: &mut PageStore<FilePages<'_, HostRuntime>>,
) -> Status {
    let mut input = KeptSource::new(
        rt.alloc(),
        StdSource::new(rt.reader()),
        is_read_by_words(words),
    );
    let mut entropy = FileSource::new(rt, "entropy");
    let mut out = StdSink::new(io::writer(rt));
    let status = program.carry_out(
        rt.alloc(),
        words,
        platform,
        store,
        &mut input,
        &mut entropy,
        &mut out,
    );
    let reasons = Reasons {
        platform: platform.raw().last_reason(),
        store: store.device().last_reason(),
        input: input.source.last_reason(),
        entropy: entropy.last_reason(),
        output: out.last_reason(),
    };
    say(rt, words, status, &reasons, &input.text);
    status
}
