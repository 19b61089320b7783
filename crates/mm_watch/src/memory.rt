//! Calls on the memory and the register, each with a number. `cell I` writes 104 bytes 7 from place
//! I on, `pick` writes the selector, `byte I` reads the byte there, `extend V` extends the register
//! by 32 bytes V, `reset` and `power` empty it, `shown I` reads its byte I, `fail K` lets the K-th
//! call on files fail. Others let a file have N bytes 5 by `nv N`, `register N` and `register.new
//! N`, put another `nv` of N in its place by `swap N`, another `register` by `turn N`, and in the
//! place of `nv` a device by `device`, and nothing by `remove`; in the place of `register.new` a
//! link to `nv` by `link`; they give `register` another name by `second`, put a link to that in its
//! place by `lead`, and take the name away by `alone`; and they lock `nv` by `hold`, and let it go
//! by `leave`.

use crate::line::{WatchCommand, byte_in, done, read_line};
use crate::mount::Mount;
use mm_digest::Digest;
use mm_files::FilePlatform;
use mm_platform::{RawNv, Register};
use std::io;

/// Plays these lines over the files of the memory and the register.
pub fn remember_over(mount: &Mount<'_>, lines: &str) -> io::Result<()> {
    let mut platform = FilePlatform::new(mount);
    remember_lines(mount, &mut platform, lines)
}

/// Does so where `nv` is never made.
pub fn remember_existing(mount: &Mount<'_>, lines: &str) -> io::Result<()> {
    let mut platform = FilePlatform::existing(mount);
    remember_lines(mount, &mut platform, lines)
}

fn remember_lines<P: RawNv + Register>(
    mount: &Mount<'_>,
    platform: &mut P,
    lines: &str,
) -> io::Result<()> {
    for line in lines.lines() {
        mount.0.tell_asked(line)?;
        let answer = answer(mount, platform, &read_line(line));
        mount.0.tell_answer(answer)?;
    }
    Ok(())
}

// Does what a line asks.
fn answer<P: RawNv + Register>(
    mount: &Mount<'_>,
    platform: &mut P,
    asked: &WatchCommand<'_>,
) -> Option<u64> {
    match asked.word {
        "cell" | "pick" | "byte" => on_memory(platform, asked),
        "extend" | "reset" | "power" | "shown" => on_register(platform, asked),
        _ => meddle(mount, asked),
    }
}

// A call on the memory.
fn on_memory<P: RawNv>(platform: &mut P, asked: &WatchCommand<'_>) -> Option<u64> {
    match asked.word {
        "cell" => done(platform.raw_write(asked.first.min(105), &[7; 104])),
        "pick" => done(platform.raw_write(208, &[1])),
        _ => byte_of(platform, asked.first),
    }
}

fn byte_of<P: RawNv>(platform: &mut P, at: u16) -> Option<u64> {
    let mut there = [0];
    match platform.raw_read(at.min(208), &mut there) {
        Ok(()) => Some(u64::from(there[0])),
        Err(_) => None,
    }
}

// A call on the register.
fn on_register<P: RawNv + Register>(platform: &mut P, asked: &WatchCommand<'_>) -> Option<u64> {
    match asked.word {
        "extend" => extend(platform, asked.first),
        "reset" => done(platform.reg_reset()),
        "power" => done(platform.raw_cycle()),
        _ => shown(platform, asked.first),
    }
}

fn extend<P: Register>(platform: &mut P, byte: u16) -> Option<u64> {
    let bytes = [byte.min(255) as u8; 32];
    match platform.reg_ready() {
        Ok(()) => done(platform.reg_extend(&Digest { bytes })),
        Err(_) => None,
    }
}

fn shown<P: Register>(platform: &mut P, at: u16) -> Option<u64> {
    match platform.reg_read() {
        Ok(value) => Some(byte_in(&value.bytes, at)),
        Err(_) => None,
    }
}

// What is done beside the platform.
fn meddle(mount: &Mount<'_>, asked: &WatchCommand<'_>) -> Option<u64> {
    match asked.word {
        "swap" => done(mount.0.swap("nv", asked.first)),
        "turn" => done(mount.0.swap("register", asked.first)),
        "device" => done(mount.0.put_device("nv")),
        "remove" => done(mount.0.remove("nv")),
        "link" => done(mount.0.put_link("register.new", "nv")),
        "second" => done(mount.0.put_second("other/register", "register")),
        "lead" => done(mount.0.put_link("register", "other/register")),
        "alone" => done(mount.0.remove("other/register")),
        "hold" => Some(mount.0.hold("nv")),
        "leave" => Some(mount.0.leave()),
        "fail" => Some(mount.0.fail_at(asked.first)),
        name => done(mount.0.put(name, asked.first)),
    }
}
