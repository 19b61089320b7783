//! Tables: a title; a line that says what each part is played over, and the first line of each; and
//! the parts.

use crate::broken::play_broken;
use crate::cores::play_core;
use crate::devices::{
    over_counted, over_failing, over_memory, over_pages, over_set, over_stopped, over_stopping,
};
use crate::lines::range_in;
use crate::notes::TableNotes;
use crate::steps::over_slot;
use mm_bytes::Memory;
use mm_digest::Variant;

/// What a call that fails may leave.
const ANY: &str = "none half all even odd";

// A cell of Basic with an id that no module has.
fn unknown_cell() -> [u8; 104] {
    let mut cell = [0; 104];
    let (front, _) = cell.split_at_mut(8);
    front.copy_from_slice(b"MMN1\x01\x00\x00\x00");
    cell
}

// Plays a scene over such devices, and says whether it comes to what is told.
fn plays_over(
    notes: &mut TableNotes,
    devices: &str,
    text: &str,
    scene: &str,
    row: &str,
) -> Result<bool, Memory> {
    match devices {
        "memory" => over_memory(notes, &[0; 104], scene, row),
        "ones" => over_memory(notes, &[1; 104], scene, row),
        "unknown" => over_memory(notes, &unknown_cell(), scene, row),
        "pages" => over_pages(notes, scene, row),
        "stopping" => over_stopping(notes, text, scene, row),
        "stopped" => over_stopped(notes, text, scene, row),
        "set" => over_set(notes, scene),
        "failing" => over_failing(notes, text, scene, row),
        "counted" => over_counted(notes, scene, row),
        "slot" => over_slot(notes, scene, row),
        _ => notes.tell(false, devices, 0),
    }
}

// A table's part that is played: over what, its first line, and its scene.
#[derive(Clone, Copy)]
struct Part<'a> {
    devices: &'a str,
    head: &'a str,
    scene: &'a str,
}

// A scene without the mark of its first command.
fn begun(scene: &str) -> &str {
    scene.strip_prefix("\n$ ").unwrap_or(scene)
}

// Plays a part with this text in the place of each star.
fn play_with(notes: &mut TableNotes, part: &Part<'_>, text: &str, row: &str) -> Result<(), Memory> {
    let head = part.head;
    let scene = part.scene.replace(notes.alloc, "*", text)?;
    let scene = format!(in notes.alloc; "{head}\n{scene}")?;
    let is_so = plays_over(notes, part.devices, text, begun(scene.as_str()), row)?;
    notes.count(is_so, row)
}

// Plays a part with each number of a range.
fn play_range(
    notes: &mut TableNotes,
    part: &Part<'_>,
    first: u64,
    end: u64,
    row: &str,
) -> Result<(), Memory> {
    for number in first..end {
        let text = format!(in notes.alloc; "{number}")?;
        play_with(notes, part, text.as_str(), row)?;
    }
    Ok(())
}

// Plays a part with a call and each thing that it may leave.
fn play_any(notes: &mut TableNotes, part: &Part<'_>, call: &str, row: &str) -> Result<(), Memory> {
    for leaves in ANY.split(" ") {
        let text = format!(in notes.alloc; "{call} {leaves}")?;
        play_with(notes, part, text.as_str(), row)?;
    }
    Ok(())
}

// Plays a part with a text, or with each that it stands for.
fn play_text(notes: &mut TableNotes, part: &Part<'_>, text: &str, row: &str) -> Result<(), Memory> {
    if let Some((first, end)) = range_in(text) {
        return play_range(notes, part, first, end, row);
    }
    match text.strip_suffix(" any") {
        Some(call) => play_any(notes, part, call, row),
        None => play_with(notes, part, text, row),
    }
}

// Plays a part with each text of its rows.
fn play_rows(notes: &mut TableNotes, part: &Part<'_>, rows: &str) -> Result<(), Memory> {
    for line in rows.lines() {
        let (texts, row) = line.split_once(" | ").unwrap_or((line, "no row"));
        for text in texts.split("|") {
            play_text(notes, part, text, row)?;
        }
    }
    Ok(())
}

// Plays a part as it stands.
fn play_alone(notes: &mut TableNotes, part: &Part<'_>) -> Result<(), Memory> {
    let head = part.head;
    let scene = part.scene;
    let scene = format!(in notes.alloc; "{head}\n{scene}")?;
    match part.devices {
        "broken" => return play_broken(notes, scene.as_str()),
        "basic-core" => return play_core(notes, Variant::Basic, scene.as_str()),
        "opt-core" => return play_core(notes, Variant::Opt, scene.as_str()),
        _ => {}
    }
    let is_so = plays_over(notes, part.devices, "", begun(scene.as_str()), "")?;
    notes.count(is_so, scene.as_str())
}

// Plays a part over such devices.
fn play_part(notes: &mut TableNotes, devices: &str, head: &str, text: &str) -> Result<(), Memory> {
    let (scene, rows) = text.split_once("\nwith\n").unwrap_or((text, ""));
    let part = Part {
        devices,
        head,
        scene,
    };
    if rows.is_empty() {
        play_alone(notes, &part)
    } else {
        play_rows(notes, &part, rows)
    }
}

// Plays a table, which has a line with its devices; else it is a heading. Notes how many of
// its cases came out as they stand.
fn play_table(notes: &mut TableNotes, table: &str) -> Result<(), Memory> {
    let Some((title, rest)) = table.split_once("\n@ ") else {
        return notes.head(table);
    };
    let (how, parts) = rest.split_once("\n").unwrap_or((rest, ""));
    let (devices, head) = how.split_once(" | ").unwrap_or((how, ""));
    for part in parts.split("\n\n") {
        for one in devices.split(" ") {
            play_part(notes, one, head, part)?;
        }
    }
    notes.end(title.lines().next().unwrap_or(""))
}

/// Plays the tables of a text, which begin behind its first line.
pub fn play_tables(notes: &mut TableNotes, text: &str) -> Result<(), Memory> {
    for table in text.split("\n## ").skip(1) {
        play_table(notes, table)?;
    }
    Ok(())
}
