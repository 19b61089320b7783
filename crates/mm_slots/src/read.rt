//! Reading the lines of slots.

ghost use Rattle.std.specs.Prelude.{◌≡◌, ◌↔◌, ◌≤◌, Some, None, IfOk, IfSome, IsErrOf};
ghost use Rattle.std.specs.Option.{option_map};
ghost use Rattle.mm_slots.specs.Stage.{action_at, begin_action_at, break_at, event_at, slot_count_at, index_at};
ghost use Rattle.mm_slots.specs.HeldParts as texts;

use crate::event::{CallBreak, SlotAction, SlotEvent};
use crate::slot_number::SlotNumber;
use mm_bytes::{Bytes, Memory};
use mm_digest::Digest;
use mm_schedule::{
    EventFault, OfferText, after, is_text, number_in, offer_in, owned_offer, value_in, word_in,
};
use std::alloc::Global;

/// The most slots of a platform.
pub const MOST_SLOTS: u32 = 16;

/// What happens in a slot, as it lies in its line.
pub enum ActionText<'a> {
    Begin {
        from: OfferText<'a>,
        request: &'a [u8],
    },
    Close,
    Step,
    Break(CallBreak),
    Extend {
        value: Digest,
    },
}

/// An event as it lies in its line.
pub enum SlotEventText<'a> {
    Power,
    At { slot: u8, action: ActionText<'a> },
}

/// The number of slots that the first line names, as `memoir slots 1 2`: 1 to 16. None where the
/// line is outside the grammar.
#[tactic(auto, unfolding(crate::specs::Stage::slot_count_at))]
pub fn read_first(line: &[u8]) -> Option<u8>
    ensures { result ≡ slot_count_at line.now }
{
    let word = after(b"memoir slots 1 ", line)?;
    let count = number_in(word)?;
    if count == 0 || count > MOST_SLOTS {
        return None;
    }
    Some(count as u8)
}

/// The event of a line, which stands without its LF, on a platform with so many slots.
pub fn read_slot_event(alloc: Global, slots: u8, line: &[u8]) -> Result<SlotEvent, EventFault>
    ensures read { IfOk result (λ event. event_at slots line.now ≡ Some event) }
    ensures bad { IsErrOf result EventFault.Bad ↔ (event_at slots line.now ≡ None) }
{
    let Some(event) = event_in(slots, line) else {
        return Err(EventFault::Bad);
    };
    let event = owned(alloc, event)?;
    Ok(event)
}

// The event of a line.
#[tactic(auto, unfolding(crate::specs::Stage::event_at))]
fn event_in(slots: u8, line: &[u8]) -> Option<SlotEventText<'_>>
    ensures { option_map texts.event_in result ≡ event_at slots line.now }
{
    if is_text(line, b"power") {
        return Some(SlotEventText::Power);
    }
    let (word, line) = word_in(line)?;
    let slot = index_in(slots, word)?;
    let action = action_in(line)?;
    Some(SlotEventText::At { slot, action })
}

// The number of a slot, a decimal below their number.
#[tactic(auto, unfolding(crate::specs::Stage::index_at))]
fn index_in(slots: u8, word: &[u8]) -> Option<u8>
    ensures { result ≡ index_at slots word.now }
{
    let number = number_in(word)?;
    if number >= u32::from(slots) {
        return None;
    }
    Some(number as u8)
}

// What happens in a slot.
#[tactic(auto, unfolding(crate::specs::Stage::action_at))]
fn action_in(line: &[u8]) -> Option<ActionText<'_>>
    ensures { option_map texts.action_in result ≡ action_at line.now }
{
    if is_text(line, b"close") {
        return Some(ActionText::Close);
    }
    if is_text(line, b"step") {
        return Some(ActionText::Step);
    }
    if let Some(line) = after(b"begin ", line) {
        return begin_in(line);
    }
    if let Some(word) = after(b"extend ", line) {
        let value = value_in(word)?;
        return Some(ActionText::Extend { value });
    }
    let how = breaking_in(line)?;
    Some(ActionText::Break(how))
}

// An offer and a request behind `begin`.
#[tactic(auto, unfolding(crate::specs::Stage::begin_action_at))]
fn begin_in(line: &[u8]) -> Option<ActionText<'_>>
    ensures { option_map texts.action_in result ≡ begin_action_at line.now }
{
    let (from, request) = offer_in(line)?;
    Some(ActionText::Begin { from, request })
}

// How a call is broken off.
#[tactic(auto, unfolding(crate::specs::Stage::break_at))]
fn breaking_in(line: &[u8]) -> Option<CallBreak>
    ensures { result ≡ break_at line.now }
{
    if is_text(line, b"cut") {
        return Some(CallBreak::Cut);
    }
    if is_text(line, b"drop") {
        return Some(CallBreak::Drop);
    }
    if is_text(line, b"fail done") {
        return Some(CallBreak::Fail { done: true });
    }
    if is_text(line, b"fail undone") {
        return Some(CallBreak::Fail { done: false });
    }
    None
}

// The event with bytes of its own.
fn owned(alloc: Global, event: SlotEventText<'_>) -> Result<SlotEvent, Memory>
    ensures { IfOk result (λ own. own ≡ texts.event_in event.entry) }
{
    match event {
        SlotEventText::Power => Ok(SlotEvent::Power),
        SlotEventText::At { slot, action } => {
            let action = owned_action(alloc, action)?;
            let slot = SlotNumber::at(usize::from(slot));
            Ok(SlotEvent::At { slot, action })
        }
    }
}

fn owned_action(alloc: Global, action: ActionText<'_>) -> Result<SlotAction, Memory>
    ensures { IfOk result (λ own. own ≡ texts.action_in action.entry) }
{
    match action {
        ActionText::Begin { from, request } => {
            let offer = owned_offer(alloc, from)?;
            let request = Bytes::copy_of(alloc, request)?;
            Ok(SlotAction::Begin { offer, request })
        }
        ActionText::Close => Ok(SlotAction::Close),
        ActionText::Step => Ok(SlotAction::Step),
        ActionText::Break(how) => Ok(SlotAction::Break(how)),
        ActionText::Extend { value } => Ok(SlotAction::Extend { value }),
    }
}
