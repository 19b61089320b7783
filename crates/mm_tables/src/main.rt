//! Plays the tables of the files that its arguments name, of commands over devices in memory. It
//! writes each title with the number of cases that came out as they stand in the table, and each
//! case that didn't; and then what faults say.
#![tactic(auto)]

mod broken;
mod cores;
mod devices;
mod failing;
mod faults;
mod lines;
mod notes;
mod offers;
mod scene;
mod setup;
mod steps;
mod table;
mod ways;

use crate::faults::put_faults;
use crate::notes::TableNotes;
use crate::table::play_tables;
use mm_bytes::Memory;
use std::alloc::AllocError;
use std::io::Write;
use std::{env, fs, io};

// The text of a file. `⇥` stands for a tabulator in it, `␣` for a space at a line's end, and `␡`
// for the byte 127.
fn text_of(rt: &HostRuntime, name: &str) -> io::Result<String> {
    let text = fs::read_to_string(rt, name)?;
    let text = text.as_str().replace(rt.alloc(), "⇥", "\t")?;
    let text = text.as_str().replace(rt.alloc(), "␡", "\u{7f}")?;
    Ok(text.as_str().replace(rt.alloc(), "␣", " ")?)
}

// The names of the files.
fn names(rt: &HostRuntime) -> io::Result<Vec<String>> {
    let mut words = env::args(rt)?;
    let _ = words.next();
    Ok(words.collect(rt.alloc())?)
}

// Plays the tables of a file.
fn play_file(rt: &HostRuntime, notes: &mut TableNotes, name: &str) -> io::Result<()> {
    let text = text_of(rt, name)?;
    match play_tables(notes, text.as_str()) {
        Ok(()) => Ok(()),
        Err(Memory) => Err(io::Error::from(AllocError)),
    }
}

// Plays the tables of each file, and writes what came of them.
fn tell_tables(rt: &HostRuntime, notes: &mut TableNotes) -> io::Result<()> {
    let names = names(rt)?;
    for name in names.iter() {
        play_file(rt, notes, name.as_str())?;
    }
    io::writer(rt).write_all(notes.text())
}

// Writes what faults say.
fn tell_faults(rt: &HostRuntime) -> io::Result<()> {
    let mut text = String::new(rt.alloc());
    put_faults(&mut text)?;
    print!(rt; "{text}")
}

fn main(rt: HostRuntime) -> io::Result<()> {
    let mut notes = TableNotes::new(rt.alloc());
    tell_tables(&rt, &mut notes)?;
    tell_faults(&rt)
}
