//! Calls of a core over a platform in memory, one after another, by the counter.

use crate::notes::TableNotes;
use crate::offers::{BARRIER, KEY, batch_of, cell_of, offer_of};
use crate::ways::{ask_in_parts, ask_in_turns, ask_many, ask_one, close_in_turns};
use mm_ask::{Secrets, provision};
use mm_bytes::{Bytes, CELL_LENGTH, Memory, put_decimal, read_decimal};
use mm_digest::{Digest, Variant};
use mm_model::{Answer, BatchAnswer, Refusal};
use mm_module::{Batch, Counter, Outputs};
use mm_opt::{CheckpointRefusal, Checkpointed, checkpoint};
use mm_platform::{Meddle, MemPlatform, Platform, Stop};
use std::alloc::Global;

const FOREIGN: Digest = Digest { bytes: [255; 32] };

/// A platform, the snapshots that were handed out, by number, and what is said of the last call.
#[derive(Drop)]
struct Host {
    alloc: Global,
    variant: Variant,
    platform: MemPlatform,
    snapshots: Vec<Bytes>,
    said: Bytes,
}

/// A line of a table: the stop or the extension by others that is planned; what is done, with which
/// snapshot, and the request; and what comes of it.
#[derive(Clone, Copy)]
struct CoreCase<'a> {
    plan: &'a str,
    word: &'a str,
    number: usize,
    text: &'a str,
    said: &'a str,
}

fn row_of(line: &str) -> Option<CoreCase<'_>> {
    let (asked, said) = line.split_once(" => ")?;
    let (plan, asked) = asked.split_once(" ")?;
    let (word, asked) = asked.split_once(" ")?;
    let (number, text) = asked.split_once(" ")?;
    let number = read_decimal(number.as_bytes())? as usize;
    Some(CoreCase {
        plan,
        word,
        number,
        text,
        said,
    })
}

// The step behind a dash, 0 where there is none.
fn step_in(plan: &str) -> u8 {
    match plan.split_once("-") {
        Some((_, "1")) => 1,
        Some((_, "2")) => 2,
        Some((_, "3")) => 3,
        Some((_, "4")) => 4,
        Some((_, "5")) => 5,
        Some((_, "9")) => 9,
        _ => 0,
    }
}

fn stop_of(plan: &str) -> Stop {
    let step = step_in(plan);
    match plan.split_once("-") {
        Some(("cut", _)) => Stop::Cut(step),
        Some(("drop", _)) => Stop::Drop(step),
        Some(("done", _)) => Stop::Fail { step, done: true },
        Some(("undone", _)) => Stop::Fail { step, done: false },
        _ => Stop::Quiet,
    }
}

fn meddle_of(plan: &str) -> Meddle {
    let step = if plan.starts_with("meddle-") {
        step_in(plan)
    } else {
        0
    };
    Meddle {
        step,
        value: FOREIGN,
    }
}

// Puts what is said of a call behind which the core refused.
fn put_refusal(said: &mut Bytes, refusal: Refusal) -> Result<(), Memory> {
    said.append(b"no ")?;
    put_decimal(said, u64::from(refusal.code()))
}

// Puts whether a request is repeated, and its position.
fn put_front(said: &mut Bytes, again: bool, position: u64) -> Result<(), Memory> {
    said.append(if again {
        b"again ".as_slice()
    } else {
        b"ok ".as_slice()
    })?;
    put_decimal(said, position)
}

// Puts an output with a space before.
fn put_output(said: &mut Bytes, output: &[u8]) -> Result<(), Memory> {
    said.push(b' ')?;
    said.append(output)
}

fn put_outputs(said: &mut Bytes, outputs: &Outputs) -> Result<(), Memory> {
    for i in 0..outputs.len() {
        if let Some(output) = outputs.get(i) {
            put_output(said, output)?;
        }
    }
    Ok(())
}

// Says what came of one request, and keeps the snapshot.
fn keep_one(host: &mut Host, came: Result<Answer, Refusal>) -> Result<(), Memory> {
    match came {
        Err(refusal) => put_refusal(&mut host.said, refusal),
        Ok(answer) => {
            put_front(&mut host.said, answer.again, answer.position)?;
            put_output(&mut host.said, answer.output.as_slice())?;
            Ok(host.snapshots.push(answer.snapshot)?)
        }
    }
}

// The same of a batch.
fn keep_many(host: &mut Host, came: Result<BatchAnswer, Refusal>) -> Result<(), Memory> {
    match came {
        Err(refusal) => put_refusal(&mut host.said, refusal),
        Ok(answer) => {
            put_front(&mut host.said, answer.again, answer.position)?;
            put_outputs(&mut host.said, &answer.outputs)?;
            Ok(host.snapshots.push(answer.snapshot)?)
        }
    }
}

// Puts what came of a checkpoint.
fn put_closed(
    alloc: Global,
    said: &mut Bytes,
    came: Result<Checkpointed, CheckpointRefusal>,
) -> Result<(), Memory> {
    match came {
        Ok(Checkpointed::Done) => said.append(b"checkpointed"),
        Ok(Checkpointed::NoSegment) => said.append(b"no segment"),
        Err(refusal) => {
            let text = format!(in alloc; "no {refusal}")?;
            said.append(text.as_bytes())
        }
    }
}

// Another platform, and its first snapshot.
fn begin(host: &mut Host) -> Result<(), Memory> {
    let secrets = Secrets {
        key: KEY,
        barrier: BARRIER,
    };
    let made = provision(host.alloc, host.variant, &Counter, &secrets)?;
    host.platform = MemPlatform::new(host.alloc, &made.cell);
    host.snapshots.clear();
    Ok(host.snapshots.push(made.snapshot)?)
}

// Another platform, with the cell of this name; `own` is that of a first start.
fn set(host: &mut Host, cell: &str) -> Result<(), Memory> {
    if cell == "own" {
        return begin(host);
    }
    host.platform = MemPlatform::new(host.alloc, &cell_of(cell));
    Ok(())
}

fn set_alone(host: &mut Host, cell: &str) -> Result<(), Memory> {
    set(host, cell)?;
    host.said.append(b"set")
}

// Others extend the register.
fn extend(host: &mut Host) -> Result<(), Memory> {
    host.platform.foreign(&FOREIGN)?;
    host.said.append(b"extended")
}

// Asks with the offer and the request of these names on the cell of this name, and says how many
// steps failed.
fn ask_refused(host: &mut Host, text: &str) -> Result<(), Memory> {
    let (cell, asked) = text.split_once(" ").unwrap_or((text, ""));
    let (offer, request) = asked.split_once(" ").unwrap_or((asked, ""));
    set(host, cell)?;
    let offer = offer_of(host.alloc, host.variant, offer)?;
    let offer = offer.as_slice();
    let batch = batch_of(request);
    let came = ask_many(host.alloc, host.variant, &mut host.platform, offer, batch);
    keep_many(host, came)?;
    host.said.append(b" and ")?;
    put_decimal(&mut host.said, host.platform.faults())?;
    host.said.append(b" faults")
}

// Offers the snapshot of this number with a request, in the way of this name.
fn ask(host: &mut Host, row: &CoreCase<'_>) -> Result<(), Memory> {
    let Some(offer) = host.snapshots.get(row.number) else {
        return host.said.append(b"no snapshot");
    };
    let offer = offer.as_slice();
    let request = row.text.as_bytes();
    let came = match row.word {
        "batch" => ask_many(
            host.alloc,
            host.variant,
            &mut host.platform,
            offer,
            Batch::Many(request),
        ),
        _ => ask_in_parts(host.alloc, host.variant, &mut host.platform, offer, request),
    };
    keep_many(host, came)
}

// The same of one request.
fn ask_alone(host: &mut Host, row: &CoreCase<'_>) -> Result<(), Memory> {
    let Some(offer) = host.snapshots.get(row.number) else {
        return host.said.append(b"no snapshot");
    };
    let came = ask_one(
        host.alloc,
        host.variant,
        &mut host.platform,
        offer.as_slice(),
        row.text.as_bytes(),
    );
    keep_one(host, came)
}

// The request of a row; `longer` stands for one that is too long.
fn request_in(text: &str) -> Batch<'_> {
    match text {
        "longer" => batch_of(text),
        _ => Batch::One(text.as_bytes()),
    }
}

// The same step by step, with the digits of the steps.
fn ask_by_steps(host: &mut Host, row: &CoreCase<'_>) -> Result<(), Memory> {
    let Some(offer) = host.snapshots.get(row.number) else {
        return host.said.append(b"no snapshot");
    };
    let mut steps = 0;
    let came = ask_in_turns(
        &mut steps,
        host.alloc,
        host.variant,
        &mut host.platform,
        offer.as_slice(),
        request_in(row.text),
    );
    put_decimal(&mut host.said, steps)?;
    host.said.push(b' ')?;
    keep_many(host, came)
}

fn close(host: &mut Host) -> Result<(), Memory> {
    let came = checkpoint(&mut host.platform);
    put_closed(host.alloc, &mut host.said, came)
}

// A checkpoint step by step, with the digits of its steps.
fn close_by_steps(host: &mut Host) -> Result<(), Memory> {
    let mut steps = 0;
    let came = close_in_turns(&mut steps, &mut host.platform);
    put_decimal(&mut host.said, steps)?;
    host.said.push(b' ')?;
    put_closed(host.alloc, &mut host.said, came)
}

// Does what a row says, and says what came of it.
fn call(host: &mut Host, row: &CoreCase<'_>) -> Result<(), Memory> {
    host.said = Bytes::new(host.alloc);
    match row.word {
        "cell" => set_alone(host, row.text),
        "extend" => extend(host),
        "checkpoint" => close(host),
        "closing" => close_by_steps(host),
        "refused" => ask_refused(host, row.text),
        "turns" => ask_by_steps(host, row),
        "ask" => ask_alone(host, row),
        _ => ask(host, row),
    }
}

// The same under what is planned; and then the power is back, which Basic loses after each call.
// Where memory was wanting nothing has changed, so the call is made once more.
fn call_planned(host: &mut Host, row: &CoreCase<'_>) -> Result<(), Memory> {
    host.platform
        .plan(stop_of(row.plan), &[meddle_of(row.plan)])?;
    call(host, row)?;
    if host.said.as_slice() == b"no 1".as_slice() {
        call(host, row)?;
    }
    host.platform.end_plan();
    if host.variant == Variant::Basic || row.plan.starts_with("cut") {
        let _ = host.platform.cycle();
    }
    Ok(())
}

// Whether what comes of a row is what it says, with how often the cell was to be written by then.
fn is_so(host: &mut Host, line: &str) -> Result<bool, Memory> {
    let Some(row) = row_of(line) else {
        return Ok(false);
    };
    call_planned(host, &row)?;
    host.said.append(b", ")?;
    put_decimal(&mut host.said, host.platform.nv_writes())?;
    Ok(host.said.as_slice() == row.said.as_bytes())
}

// Plays a line, and notes whether what comes of it is what it says.
fn play_line(notes: &mut TableNotes, host: &mut Host, line: &str) -> Result<(), Memory> {
    match line {
        "" => Ok(()),
        "new" => begin(host),
        "power" => {
            let _ = host.platform.cycle();
            Ok(())
        }
        _ => {
            let is_so = is_so(host, line)?;
            notes.write(host.said.as_slice())?;
            notes.tell(is_so, line, 0)?;
            notes.count(is_so, line)
        }
    }
}

fn play_lines(notes: &mut TableNotes, host: &mut Host, lines: &str) -> Result<(), Memory> {
    for line in lines.lines() {
        play_line(notes, host, line)?;
    }
    Ok(())
}

/// Plays the lines of a table by the core of a variant. At `new` there is another platform, and
/// power is lost at `power`.
pub fn play_core(notes: &mut TableNotes, variant: Variant, lines: &str) -> Result<(), Memory> {
    let alloc = notes.alloc;
    let mut host = Host {
        alloc,
        variant,
        platform: MemPlatform::new(alloc, &[0; CELL_LENGTH]),
        snapshots: Vec::new(alloc),
        said: Bytes::new(alloc),
    };
    play_lines(notes, &mut host, lines)
}
