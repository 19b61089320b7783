//! Lines of an input that fails, or that has longer ones.

use mm_base::{LineFault, LineReader, MemSource, Read};
use mm_bytes::{Bytes, Memory, read_decimal};
use std::alloc::Global;
use std::test::Fail;

const CONTENT: &[u8] = b"one\n\ntwo three\nend";

/// The bytes that a call gives, and those that a line may have; and what six lines are, where the
/// second call fails.
const LINES: &str = "\
1 9 => FAULT|one||two three|TAIL|TAIL|
2 9 => FAULT|one||two three|TAIL|TAIL|
7 9 => one||FAULT|two three|TAIL|TAIL|
4096 9 => one||two three|FAULT|TAIL|TAIL|
4096 8 => one||LONG|LONG|LONG|LONG|
1 2 => FAULT|LONG|LONG|LONG|LONG|LONG|
";

// A word for what was read: the line itself, or the name of the answer.
fn word<'a>(read: Result<Read<'a>, LineFault>) -> &'a [u8] {
    match read {
        Ok(Read::Line(line)) => line,
        Ok(Read::Tail) => b"TAIL",
        Ok(Read::End) => b"END",
        Err(LineFault::ReadFault) => b"FAULT",
        Err(LineFault::LineLong) => b"LONG",
    }
}

// Puts a word for the next line.
fn put_next(
    words: &mut Bytes,
    reader: &mut LineReader,
    source: &mut MemSource,
    limit: usize,
) -> Result<(), Memory> {
    words.append(word(reader.next(source, limit.min(8400))))?;
    words.push(b'|')
}

fn put_six(
    words: &mut Bytes,
    reader: &mut LineReader,
    source: &mut MemSource,
    limit: usize,
) -> Result<(), Memory> {
    for _ in 0..6u8 {
        put_next(words, reader, source, limit)?;
    }
    Ok(())
}

fn put_lines(
    words: &mut Bytes,
    source: &mut MemSource,
    limit: usize,
    alloc: Global,
) -> Result<(), Memory> {
    let mut reader = LineReader::new(alloc)?;
    put_six(words, &mut reader, source, limit)
}

fn put_in_pieces(
    words: &mut Bytes,
    piece: usize,
    limit: usize,
    alloc: Global,
) -> Result<(), Memory> {
    let mut source = MemSource::in_pieces(alloc, CONTENT, &[2], piece.max(1))?;
    put_lines(words, &mut source, limit, alloc)
}

fn number_of(word: &str) -> usize {
    read_decimal(word.as_bytes()).unwrap_or(0) as usize
}

fn is_so(alloc: Global, asked: &str, told: &str) -> Result<bool, Memory> {
    let (piece, limit) = asked.split_once(' ').unwrap_or((asked, ""));
    let mut words = Bytes::new(alloc);
    put_in_pieces(&mut words, number_of(piece), number_of(limit), alloc)?;
    Ok(words.as_slice() == told.as_bytes())
}

#[test]
fn lines_come_whole_in_any_pieces(rt: HostRuntime) -> Result<(), Fail> {
    for line in LINES.lines() {
        let (asked, told) = line.split_once(" => ").ok_or("no row")?;
        assert!(rt; is_so(rt.alloc(), asked, told)?, "{line}");
    }
    Ok(())
}
