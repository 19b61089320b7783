//! Lines of a generated schedule.

ghost use Rattle.std.specs.Prelude.{◌≡◌, ◌++◌, ◌∷◌, [], OnOk};
ghost use Rattle.std.specs.Fmt.{decimal};
ghost use Rattle.mm_gen.specs.Schedules.{line_text, snapshot_text, stop_text, chosen_request};

use mm_bytes::{Bytes, Memory, put_decimal, put_numbered};
use mm_listing::Listed;
use mm_modules::AnyModule;
use mm_platform::Stop;

/// The snapshot that a line offers.
#[derive(Clone, Copy)]
pub enum SnapshotChoice {
    /// The one with the highest number.
    Last,
    /// The one with this number.
    Number(u32),
    /// The one with this number, with a bit of this byte turned.
    Flip { number: u32, byte: u32 },
}

/// One event line, but for its request.
#[derive(Clone, Copy)]
pub enum Line {
    /// A request is asked of a snapshot.
    Ask {
        stop: Stop,
        snapshot: SnapshotChoice,
    },
    /// The open segment is closed.
    Checkpoint,
    /// Power is lost and returns.
    Power,
}

/// Puts the line with its LF at the end, its request chosen by a number.
pub fn put_line(into: &mut Bytes, line: &Line, module: AnyModule, choice: u32) -> Result<(), Memory>
    ensures { OnOk result
        (into.new ≡ into.old ++ line_text (chosen_request «module» choice) line.now ++ 10 ∷ []) }
{
    match line {
        Line::Ask { stop, snapshot } => {
            put_stop(into, *stop)?;
            into.append(b"ask ")?;
            put_snapshot(into, *snapshot)?;
            into.append(b" ")?;
            module.put_request(into, choice)?;
            into.append(b"\n")
        }
        Line::Checkpoint => into.append(b"checkpoint\n"),
        Line::Power => into.append(b"power\n"),
    }
}

/// Puts what ends a call, and a space, where something does.
fn put_stop(into: &mut Bytes, stop: Stop) -> Result<(), Memory>
    ensures { OnOk result (into.new ≡ into.old ++ stop_text stop) }
{
    match stop {
        Stop::Quiet => Ok(()),
        Stop::Cut(step) => put_step(into, b"cut ", step, b" "),
        Stop::Drop(step) => put_step(into, b"drop ", step, b" "),
        Stop::Fail { step, done: true } => put_step(into, b"fail ", step, b" done "),
        Stop::Fail { step, done: false } => put_step(into, b"fail ", step, b" undone "),
    }
}

/// Puts a step's number between two texts.
fn put_step(into: &mut Bytes, before: &[u8], step: u8, behind: &[u8]) -> Result<(), Memory>
    ensures { OnOk result (into.new ≡ into.old ++ before.now ++ decimal step ++ behind.now) }
{
    put_numbered(into, before, u64::from(step))?;
    into.append(behind)
}

fn put_snapshot(into: &mut Bytes, snapshot: SnapshotChoice) -> Result<(), Memory>
    ensures { OnOk result (into.new ≡ into.old ++ snapshot_text snapshot) }
{
    match snapshot {
        SnapshotChoice::Last => into.append(b"last"),
        SnapshotChoice::Number(number) => put_decimal(into, u64::from(number)),
        SnapshotChoice::Flip { number, byte } => {
            put_numbered(into, b"flip ", u64::from(number))?;
            put_numbered(into, b" ", u64::from(byte))
        }
    }
}
