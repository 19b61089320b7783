//! What the adapters over files do to the files of a folder. The input has parts, each for adapters
//! of their own over the same files: behind a line `== KIND` a line for each call. Each is written
//! with the calls on files that the adapter makes, as they come, and what it answers. slots.rt and
//! memory.rt say what the words ask.
#![tactic(auto)]

mod line;
mod memory;
mod mount;
mod slots;
mod watched;

use crate::memory::{remember_existing, remember_over};
use crate::mount::Mount;
use crate::slots::keep_over;
use crate::watched::WatchedFolder;
use std::io;

// Plays the calls of one part.
fn play_part(mount: &Mount<'_>, kind: &str, lines: &str) -> io::Result<()> {
    match kind {
        "slots" => keep_over(mount, lines),
        "memory" => remember_over(mount, lines),
        "existing" => remember_existing(mount, lines),
        _ => Ok(()),
    }
}

// Plays the parts of a text.
fn play_parts(mount: &Mount<'_>, text: &str) -> io::Result<()> {
    for part in text.split("== ") {
        if let Some((kind, lines)) = part.split_once('\n') {
            mount.0.tell_part(kind)?;
            play_part(mount, kind, lines)?;
        }
    }
    Ok(())
}

fn main(rt: HostRuntime) -> io::Result<()> {
    let text = io::read_to_string(rt.alloc(), rt.reader())?;
    let watched = WatchedFolder::new(&rt)?;
    play_parts(&Mount(&watched), text.as_str())?;
    watched.end()
}
