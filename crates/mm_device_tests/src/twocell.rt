//! Writes that tear, and a register below two cells.

use mm_bytes::{CELL_LENGTH, Memory};
use mm_digest::{Digest, extended, zero};
use mm_platform::{Nv, Platform, RawNv, Register, StepFault};
use mm_twocell::{MemRaw, TwoCell};
use std::alloc::Global;
use std::test::Fail;

const OLD: [u8; CELL_LENGTH] = [1; CELL_LENGTH];

const NEW: [u8; CELL_LENGTH] = [2; CELL_LENGTH];

/// The call of the memory that fails, 0 for none, and what it leaves: so many bytes of this value;
/// and whether the new cell is read then, or the old one.
///
/// The first write takes the memory's calls 1 to 3, and the second one 4 to 6: it reads the
/// selector, writes the first cell, and writes the selector.
const WRITES: &str = "\
0 nothing => new
4 nothing => old
5 nothing => old
5 nines => old
5 new => old
6 nothing => old
6 even => new
6 odd => old
6 zero => new
";

fn call_of(word: &str) -> u64 {
    match word {
        "4" => 4,
        "5" => 5,
        "6" => 6,
        _ => 0,
    }
}

fn leaves_of(word: &str) -> &'static [u8] {
    match word {
        "nines" => &[9; 50],
        "new" => &[2; 120],
        "even" => &[0xfe, 7],
        "odd" => &[0x7f],
        "zero" => &[0],
        _ => &[],
    }
}

// Whether the second cell has the bytes of the first write, and the selector says so.
fn is_second(bytes: &[u8; 209]) -> bool {
    let (front, selector) = bytes.split_at(208);
    let (_, second) = front.split_at(104);
    second == OLD.as_slice() && selector == [1].as_slice()
}

// What is read.
fn read(cell: &mut TwoCell<MemRaw>) -> &'static str {
    let mut read = [0; CELL_LENGTH];
    let came = cell.nv_read(&mut read);
    if came.is_err() {
        return "fault";
    }
    if read == NEW {
        return "new";
    }
    if read == OLD { "old" } else { "none" }
}

// Writes the old cell and the new one, of which the second write fails or not, as is told, and says
// what is read then.
fn read_behind(cell: &mut TwoCell<MemRaw>, is_failing: bool) -> &'static str {
    let first = cell.nv_write(&OLD);
    if first.is_err() || !is_second(cell.raw().bytes()) {
        return "no write";
    }
    let second = cell.nv_write(&NEW);
    if second.is_err() != is_failing {
        return "no fault";
    }
    read(cell)
}

// The same of new cells, where this call fails.
fn read_torn(alloc: Global, call: u64, leaves: &[u8]) -> Result<&'static str, Memory> {
    let mut memory = MemRaw::new(alloc);
    memory.stop_at(call, leaves)?;
    let mut cell = TwoCell::new(memory);
    Ok(read_behind(&mut cell, call > 0))
}

#[test]
fn a_torn_write_leaves_the_old_cell_or_the_new_one(rt: HostRuntime) -> Result<(), Fail> {
    for line in WRITES.lines() {
        let (asked, said) = line.split_once(" => ").ok_or("no row")?;
        let (call, leaves) = asked.split_once(' ').ok_or("no call")?;
        let read = read_torn(rt.alloc(), call_of(call), leaves_of(leaves))?;
        assert_eq!(rt; read, said, "{line}");
    }
    Ok(())
}

// Whether a value extends the register.
fn is_extended(cell: &mut TwoCell<MemRaw>, value: &Digest) -> Result<bool, Memory> {
    cell.reg_ready()?;
    Ok(cell.reg_extend(value).is_ok() && cell.reg_read() == Ok(extended(&zero(), value)))
}

// Whether power is lost, at this call well or not, and the register reads this then.
fn is_cycled(cell: &mut TwoCell<MemRaw>, is_well: bool, value: &Digest) -> bool {
    cell.cycle().is_ok() == is_well && cell.reg_read() == Ok(*value)
}

// Whether the register is extended, and emptied by a loss of power; and by the second one, which
// fails, is not.
fn is_handed_on(cell: &mut TwoCell<MemRaw>) -> Result<bool, Memory> {
    let value = Digest { bytes: [7; 32] };
    let first = is_extended(cell, &value)? && is_cycled(cell, true, &zero());
    let second = is_extended(cell, &value)? && is_cycled(cell, false, &extended(&zero(), &value));
    Ok(first && second && cell.reg_reset().is_ok() && cell.reg_read() == Ok(zero()))
}

fn is_handed_on_anew(alloc: Global) -> Result<bool, Memory> {
    let mut memory = MemRaw::new(alloc);
    memory.stop_at(2, &[])?;
    let mut cell = TwoCell::new(memory);
    is_handed_on(&mut cell)
}

#[test]
fn the_register_is_handed_on(rt: HostRuntime) -> Result<(), Fail> {
    assert!(rt; is_handed_on_anew(rt.alloc())?);
    Ok(())
}

// Whether a read fails and leaves what it is to fill.
fn reads_nothing(memory: &mut MemRaw) -> bool {
    let mut read = [9; 3];
    memory.raw_read(200, &mut read) == Err(StepFault::Failed) && read == [9; 3]
}

// Whether three bytes are read.
fn reads(memory: &mut MemRaw, bytes: [u8; 3]) -> bool {
    let mut read = [9; 3];
    memory.raw_read(199, &mut read).is_ok() && read == bytes
}

// Whether bytes are written, the next read fails, and the one behind it gives them.
fn fails_once(memory: &mut MemRaw) -> Result<bool, Memory> {
    let is_written = memory.raw_write(200, &[1, 2, 3]).is_ok();
    memory.stop_at(1, &[])?;
    Ok(is_written && reads_nothing(memory) && reads(memory, [0, 1, 2]))
}

// Whether a cell isn't read, and what it is to fill is left.
fn reads_no_cell(cell: &mut TwoCell<MemRaw>) -> bool {
    let mut read = [9; CELL_LENGTH];
    cell.nv_read(&mut read) == Err(StepFault::Failed) && read == [9; CELL_LENGTH]
}

fn no_cell_is_read(alloc: Global) -> Result<bool, Memory> {
    let mut memory = MemRaw::new(alloc);
    memory.stop_at(2, &[])?;
    let mut cell = TwoCell::new(memory);
    Ok(reads_no_cell(&mut cell))
}

#[test]
fn a_failed_read_gives_nothing(rt: HostRuntime) -> Result<(), Fail> {
    let mut memory = MemRaw::new(rt.alloc());
    assert!(rt; fails_once(&mut memory)?);
    assert!(rt; no_cell_is_read(rt.alloc())?);
    Ok(())
}
