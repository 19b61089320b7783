//! Header lines of slots are read, and the events begin.

ghost use Rattle.std.specs.Prelude.{◌≡◌, ◌++◌, ◌∷◌, []};
ghost use Rattle.mm_play.specs.Stage.{TakesHead};
ghost use Rattle.mm_slots.specs.Stage.{AddsHead, opening_in, AtFirst, AtHeads, slots_heads};

use crate::heads::Heads;
use crate::read::read_first;
use crate::stage::SlotsStage;
use mm_bytes::Memory;
use mm_play::{LineRefusal, ReplyFault};
use mm_schedule::{Header, read_head};
use std::alloc::Global;
use std::mem;

/// Takes the first line, which names the number of slots.
pub fn take_first(
    alloc: Global,
    line: &[u8],
    heads: &mut Option<Heads>,
) -> Result<Option<SlotsStage>, ReplyFault>
    ensures { TakesHead (slots_heads.behind AtFirst line.now) (opening_in heads.new) result }
{
    match read_first(line) {
        Some(count) => {
            let begun = Heads {
                count,
                headers: Vec::new(alloc),
            };
            *heads = Some(begun);
            Ok(None)
        }
        None => Err(ReplyFault::Refused(LineRefusal::Bad)),
    }
}

/// Takes a header line: the last one begins the events.
pub fn take_head(
    alloc: Global,
    line: &[u8],
    heads: &mut Heads,
) -> Result<Option<SlotsStage>, ReplyFault>
    ensures { TakesHead
        (slots_heads.behind (AtHeads heads.old.count heads.old.headers.items) line.now)
        (AtHeads heads.new.count heads.new.headers.items) result }
{
    match read_head(line) {
        Some(header) => match add_head(alloc, heads, header) {
            Ok(stage) => Ok(stage),
            Err(_) => Err(ReplyFault::Memory),
        },
        None => Err(ReplyFault::Refused(LineRefusal::Bad)),
    }
}

// Takes one more header.
fn add_head(alloc: Global, heads: &mut Heads, header: Header) -> Result<Option<SlotsStage>, Memory>
    ensures { AddsHead heads.old.count (heads.old.headers.items ++ header ∷ []) heads.new.count
        heads.new.headers.items result }
{
    heads.headers.reserve(1)?;
    if heads.headers.len() + 1 < usize::from(heads.count) {
        heads.headers.push_reserved(header);
        return Ok(None);
    }
    let mut headers = mem::replace(&mut heads.headers, Vec::new(alloc));
    headers.push_reserved(header);
    match SlotsStage::new(alloc, &headers) {
        Ok(stage) => Ok(Some(stage)),
        Err(memory) => Err(memory),
    }
}
