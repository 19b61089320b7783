//! Calls on the four slots, each with a slot and up to two numbers. `page S P N` writes page P
//! with N bytes 7 in front, `byte S P I` reads byte I of page P, `length S`, `set S N`, `sync S`
//! and `renew S` are the calls of these names, `fail K` lets the K-th call on files fail. Others
//! let the file have N bytes 5 by `fill S N`, put another one of N in its place by `swap S N`, a
//! device by `device S`, and nothing by `remove S`; a link to `other/slotS` by `link S`, where
//! `behind S N` puts a file of N bytes; and by `same S T` and `second S T` a link to a file, and
//! that file by another name: slot T below 4, `nv` for 4, `register` for 5, `register.new` for 6.
//! By `hold S` they lock the file, and let it go by `leave`.

use crate::line::{WatchCommand, byte_in, done, read_line};
use crate::mount::Mount;
use mm_bytes::{Failed, Memory};
use mm_files::FilePages;
use mm_pages::PageDevice;
use std::io;

/// Plays these lines over the slots' files.
pub fn keep_over(mount: &Mount<'_>, lines: &str) -> io::Result<()> {
    mount.0.tell_asked("new")?;
    match FilePages::new(mount.0.alloc(), mount) {
        Ok(mut pages) => keep_lines(mount, &mut pages, lines),
        Err(Memory) => mount.0.tell_answer(None),
    }
}

fn keep_lines<D: PageDevice>(mount: &Mount<'_>, pages: &mut D, lines: &str) -> io::Result<()> {
    mount.0.tell_answer(Some(0))?;
    for line in lines.lines() {
        mount.0.tell_asked(line)?;
        let answer = answer(mount, pages, &read_line(line));
        mount.0.tell_answer(answer)?;
    }
    Ok(())
}

// Does what a line asks.
fn answer<D: PageDevice>(
    mount: &Mount<'_>,
    pages: &mut D,
    asked: &WatchCommand<'_>,
) -> Option<u64> {
    match asked.word {
        "page" | "byte" => on_page(pages, asked),
        "length" | "set" | "sync" | "renew" => on_slot(pages, asked),
        _ => meddle(mount, asked),
    }
}

// A call on a page.
fn on_page<D: PageDevice>(pages: &mut D, asked: &WatchCommand<'_>) -> Option<u64> {
    let slot = asked.first.min(3) as u8;
    let page = asked.second.min(4296);
    if asked.word == "page" {
        return done(pages.write_page(slot, page, &page_of(asked.third)));
    }
    let mut there = page_of(256);
    match pages.read_page(slot, page, &mut there) {
        Ok(()) => Some(byte_in(&there, asked.third)),
        Err(Failed) => None,
    }
}

// A page with so many bytes 7 in front.
fn page_of(count: u16) -> [u8; 256] {
    let mut page = [0; 256];
    let (front, _) = page.split_at_mut(usize::from(count).min(256));
    front.fill(7);
    page
}

// A call on a whole slot.
fn on_slot<D: PageDevice>(pages: &mut D, asked: &WatchCommand<'_>) -> Option<u64> {
    let slot = asked.first.min(3) as u8;
    match asked.word {
        "set" => done(pages.set_length(slot, u32::from(asked.second))),
        "sync" => done(pages.sync(slot)),
        "renew" => done(pages.renew(slot)),
        _ => length_of(pages, asked),
    }
}

fn length_of<D: PageDevice>(pages: &mut D, asked: &WatchCommand<'_>) -> Option<u64> {
    match pages.length(asked.first.min(3) as u8) {
        Ok(length) => Some(u64::from(length)),
        Err(Failed) => None,
    }
}

// What others do.
fn meddle(mount: &Mount<'_>, asked: &WatchCommand<'_>) -> Option<u64> {
    let name = name_of(asked.first);
    match asked.word {
        "fill" => done(mount.0.put(name, asked.second)),
        "swap" => done(mount.0.swap(name, asked.second)),
        "device" => done(mount.0.put_device(name)),
        "remove" => done(mount.0.remove(name)),
        "fail" => Some(mount.0.fail_at(asked.first)),
        "hold" => Some(mount.0.hold(name)),
        "leave" => Some(mount.0.leave()),
        _ => link(mount, asked),
    }
}

// What others do by links.
fn link(mount: &Mount<'_>, asked: &WatchCommand<'_>) -> Option<u64> {
    let name = name_of(asked.first);
    match asked.word {
        "link" => done(mount.0.put_link(name, name_behind(asked.first))),
        "behind" => done(mount.0.put(name_behind(asked.first), asked.second)),
        "second" => done(mount.0.put_second(name, name_of(asked.second))),
        _ => done(mount.0.put_link(name, name_of(asked.second))),
    }
}

fn name_of(number: u16) -> &'static str {
    match number {
        0 => "slot0",
        1 => "slot1",
        2 => "slot2",
        3 => "slot3",
        4 => "nv",
        5 => "register",
        _ => "register.new",
    }
}

fn name_behind(slot: u16) -> &'static str {
    match slot {
        0 => "other/slot0",
        1 => "other/slot1",
        2 => "other/slot2",
        _ => "other/slot3",
    }
}
