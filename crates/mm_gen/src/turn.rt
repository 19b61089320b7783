//! The lines that a turn gives.

ghost use Rattle.std.specs.Prelude.{◌≡◌, ◌<◌, ℕ, List, [], ◌∷◌, ◌++◌, length, take, OnOk, IfOk};
ghost use Rattle.std.specs.Fmt.{decimal};
ghost use Rattle.mm_base.specs.Input.{joined_lines};
ghost use Rattle.mm_platform.specs.declared.plan.Stop.TheVariants.{Quiet};
ghost use Rattle.mm_gen.specs.Schedules.{lines_of_turn, stop_text, cut_word, chosen_request, row_14, row_15, turn_lines};
ghost use Rattle.mm_gen.specs.declared.line.Line.TheVariants.{Ask};
ghost use Rattle.mm_gen.specs.declared.line.SnapshotChoice.TheVariants.{Last};
ghost use Rattle.mm_gen.specs.declared.turn.TurnLines.TheVariants.{Pair};

use crate::line::{Line, SnapshotChoice, put_line};
use crate::words::TurnWords;
use mm_bytes::{Bytes, Memory};
use mm_digest::Variant;
use mm_platform::Stop;
use mm_schedule::Header;

/// The lines of a turn.
#[derive(Clone, Copy)]
pub enum TurnLines {
    One(Line),
    Pair(Line, Line),
}

/// The lines that these words give, where the first is the event line with this number.
#[tactic(auto, unfolding(crate::specs::Schedules::turn_lines))]
fn turn_of(header: &Header, first: u32, words: &TurnWords) -> TurnLines
    requires { 0 < first }
    ensures { lines_of_turn (chosen_request header.now.module words.now.request) result
        ≡ turn_lines header.now first words.now }
{
    let step = 1 + (words.number % 5) as u8;
    let number = words.number % first;
    match words.row % 16 {
        0..=8 => TurnLines::One(asking(SnapshotChoice::Last)),
        9 => TurnLines::One(asking(SnapshotChoice::Number(number))),
        10 => TurnLines::One(asking(SnapshotChoice::Flip {
            number,
            byte: words.detail % 128,
        })),
        11 => stopped(cut_of(header.variant, step)),
        12 => stopped(Stop::Drop(step)),
        13 => stopped(Stop::Fail {
            step,
            done: words.detail % 2 == 0,
        }),
        14 => row_14_of(header.variant),
        _ => row_15_of(header.variant),
    }
}

/// A request asked of a snapshot in a call that nothing ends.
fn asking(snapshot: SnapshotChoice) -> Line
    ensures { result ≡ Ask Quiet snapshot }
{
    Line::Ask {
        stop: Stop::Quiet,
        snapshot,
    }
}

/// A request asked of the last snapshot in a call that is stopped, and then once more.
fn stopped(stop: Stop) -> TurnLines
    ensures { result ≡ Pair (Ask stop Last) (Ask Quiet Last) }
{
    TurnLines::Pair(
        Line::Ask {
            stop,
            snapshot: SnapshotChoice::Last,
        },
        asking(SnapshotChoice::Last),
    )
}

/// A cut, or in Opt, where it would lose an open segment, a drop.
fn cut_of(variant: Variant, step: u8) -> Stop
    ensures { stop_text result ≡ cut_word variant ++ decimal step ++ 32 ∷ [] }
{
    match variant {
        Variant::Basic => Stop::Cut(step),
        Variant::Opt => Stop::Drop(step),
    }
}

fn row_14_of(variant: Variant) -> TurnLines
    ensures { (request : List ℕ) → lines_of_turn request result ≡ row_14 variant }
{
    match variant {
        Variant::Basic => TurnLines::One(Line::Power),
        Variant::Opt => TurnLines::Pair(Line::Checkpoint, Line::Power),
    }
}

fn row_15_of(variant: Variant) -> TurnLines
    ensures { (request : List ℕ) → lines_of_turn request result ≡ row_15 variant }
{
    match variant {
        Variant::Basic => TurnLines::One(Line::Power),
        Variant::Opt => TurnLines::One(Line::Checkpoint),
    }
}

/// Puts the lines of a turn with their LFs at the end, at most so many of them, and answers how
/// many these are.
pub fn put_turn(
    into: &mut Bytes,
    header: &Header,
    first: u32,
    left: u32,
    words: &TurnWords,
) -> Result<u32, Memory>
    requires first { 0 < first }
    requires left { 0 < left }
    ensures lines { OnOk result
        (into.new ≡ into.old ++ joined_lines (take left (turn_lines header.now first words.now))) }
    ensures count { IfOk result
        (λ count. count ≡ length (take left (turn_lines header.now first words.now))) }
    ensures some { IfOk result (λ count. 0 < count) }
{
    match turn_of(header, first, words) {
        TurnLines::One(line) => {
            put_line(into, &line, header.module, words.request)?;
            Ok(1)
        }
        TurnLines::Pair(line, next) => {
            put_line(into, &line, header.module, words.request)?;
            if left == 1 {
                return Ok(1);
            }
            put_line(into, &next, header.module, words.request)?;
            Ok(2)
        }
    }
}
