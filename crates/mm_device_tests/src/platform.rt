//! A caller of several steps, proved over any platform, and run over the one in memory.

ghost use Rattle.std.specs.Prelude.{◌≡◌, ◌≤◌, Some};
ghost use Rattle.std.specs.Result.{result_err};
ghost use Rattle.mm_platform.specs.Standing.{Plan, read_extend_write, ActsAsTold, ActsUntold};

use mm_bytes::CELL_LENGTH;
use mm_digest::{Digest, zero};
use mm_platform::{MemPlatform, Nv, Platform, Register, StepFault, Stop};
use std::alloc::Global;
use std::test::Fail;

// Reads the cell, extends the register and writes the cell, up to the first fault.
fn read_extend_write<P: Platform>(
    platform: &mut P,
    value: &Digest,
    bytes: &[u8; CELL_LENGTH],
) -> Result<(), StepFault>
    requires { 1 ≤ (P.standing platform.old).spare }
    ensures told { (plan : Plan) → (P.standing platform.old).plan ≡ Some plan
        → ActsAsTold (read_extend_write value.now.bytes bytes.now) (P.standing platform.old)
        (P.standing platform.new) (result_err result) }
    ensures untold { ActsUntold value.now.bytes bytes.now (P.standing platform.old)
        (P.standing platform.new) (result_err result) }
{
    let mut cell = [0; CELL_LENGTH];
    if let Err(fault) = platform.nv_read(&mut cell) {
        return Err(fault);
    }
    if let Err(fault) = platform.reg_extend(value) {
        return Err(fault);
    }
    platform.nv_write(bytes)
}

/// A stop and its step; what the caller answers, whether the cell is written, how many own items
/// the register has, and whether the platform is on.
const STOPS: &str = "\
quiet 0 => ok yes 1 on
cut 1 => off no 0 off
cut 2 => off no 1 off
cut 3 => off yes 1 off
cut 4 => ok yes 1 on
drop 1 => off no 0 on
drop 2 => off no 1 on
drop 3 => off yes 1 on
undone 1 => failed no 0 on
done 1 => failed no 0 on
undone 2 => failed no 0 on
done 2 => failed no 1 on
undone 3 => failed no 1 on
done 3 => failed yes 1 on
";

/// A line of the table.
#[derive(Clone, Copy)]
struct StopCase<'a> {
    stop: Stop,
    answer: &'a str,
    is_written: bool,
    own: usize,
    is_on: bool,
}

fn row_of(line: &str) -> Option<StopCase<'_>> {
    let (planned, told) = line.split_once(" => ")?;
    let (word, step) = planned.split_once(' ')?;
    let (answer, rest) = told.split_once(' ')?;
    let (written, rest) = rest.split_once(' ')?;
    let (own, on) = rest.split_once(' ')?;
    Some(StopCase {
        stop: stop_of(word, step_of(step)),
        answer,
        is_written: written == "yes",
        own: if own == "1" { 1 } else { 0 },
        is_on: on == "on",
    })
}

fn step_of(word: &str) -> u8 {
    match word {
        "1" => 1,
        "2" => 2,
        "3" => 3,
        "4" => 4,
        _ => 0,
    }
}

fn stop_of(word: &str, step: u8) -> Stop {
    match word {
        "cut" => Stop::Cut(step),
        "drop" => Stop::Drop(step),
        "done" => Stop::Fail { step, done: true },
        "undone" => Stop::Fail { step, done: false },
        _ => Stop::Quiet,
    }
}

fn name_of(came: Result<(), StepFault>) -> &'static str {
    match came {
        Ok(()) => "ok",
        Err(StepFault::Off) => "off",
        Err(StepFault::Failed) => "failed",
    }
}

// Calls a platform that stops as a row says.
fn call(platform: &mut MemPlatform, stop: Stop) -> Result<&'static str, Fail> {
    platform.reg_ready()?;
    platform.plan(stop, &[])?;
    let came = read_extend_write(platform, &Digest { bytes: [7; 32] }, &[1; CELL_LENGTH]);
    platform.end_plan();
    Ok(name_of(came))
}

fn is_left(platform: &MemPlatform, row: &StopCase<'_>) -> bool {
    let faults = if row.answer == "ok" { 0 } else { 1 };
    (platform.cell()[0] == 1) == row.is_written
        && platform.own_items() == row.own
        && platform.faults() == faults
}

// Whether a platform is on or off as is told, and is on after a loss of power, which empties the
// register alone.
fn goes_on(platform: &mut MemPlatform, row: &StopCase<'_>) -> bool {
    let is_on = platform.reg_reset().is_ok();
    let is_cycled = platform.cycle().is_ok();
    let register = platform.reg_read();
    is_on == row.is_on
        && is_cycled
        && register == Ok(zero())
        && (platform.cell()[0] == 1) == row.is_written
}

fn is_so(platform: &mut MemPlatform, row: &StopCase<'_>) -> Result<bool, Fail> {
    let answer = call(platform, row.stop)?;
    Ok(answer == row.answer && is_left(platform, row) && goes_on(platform, row))
}

fn is_so_anew(alloc: Global, row: &StopCase<'_>) -> Result<bool, Fail> {
    let mut platform = MemPlatform::new(alloc, &[0; CELL_LENGTH]);
    is_so(&mut platform, row)
}

#[test]
fn a_caller_is_stopped_at_each_step(rt: HostRuntime) -> Result<(), Fail> {
    for line in STOPS.lines() {
        let row = row_of(line).ok_or("no row")?;
        assert!(rt; is_so_anew(rt.alloc(), &row)?, "{line}");
    }
    Ok(())
}
