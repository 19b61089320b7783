//! The slots of a platform: something happens in one of them, or the others lose their power.

ghost use Rattle.std.specs.Prelude.{◌≡◌, ◌<◌, IfOk, OnErr, OnOk, length, if◌then◌else◌, [], ◌∷◌};
ghost use Rattle.std.specs.List.{All};
ghost use Rattle.mm_slots.specs.declared.event.SlotEvent.TheVariants.{Power, At};
ghost use Rattle.mm_slots.specs.Table.{answers_text, SlotActsAt, CanCount, IsInside, EventTells, meetings_at, losses_of_others};
ghost use Rattle.mm_slots.specs.Table.{rows_after_meetings, RowsLackMemory, OneRowLacksMemory, rows_after_event, answers_to};
ghost use Rattle.mm_slots.specs.Tenant.{Loses};

use crate::event::{SlotAction, SlotEvent};
use crate::put::{put_answer, put_power};
use crate::said::SlotReply;
use crate::slot_number::SlotNumber;
use crate::tenant::Tenant;
use mm_bytes::{Bytes, Memory};
use std::alloc::Global;

// Lets something happen in the slot with this number. The others are as they were.
fn act_at(
    alloc: Global,
    slots: &mut [Tenant],
    number: SlotNumber,
    action: SlotAction,
) -> Result<SlotReply, Memory>
    requires inside { number < length slots.old }
    requires few { All CanCount slots.old }
    ensures ok { IfOk result (SlotActsAt number action slots.old slots.new) }
    ensures err { OnErr result (OneRowLacksMemory number action slots.old slots.new) }
{
    let slot = &mut slots[number.place()];
    slot.act(alloc, action)
}

// The slot with this number loses its power. Its call in flight is over, and has changed nothing.
fn lose_at(slots: &mut [Tenant], number: SlotNumber)
    requires { number < length slots.old }
    ensures { slots.new ≡ rows_after_meetings (meetings_at number Loses) slots.old }
{
    let slot = &mut slots[number.place()];
    slot.lose_power();
}

// All slots lose their power but the one with this number.
fn lose_others(slots: &mut [Tenant], but: SlotNumber)
    ensures { slots.new ≡ rows_after_meetings (losses_of_others but) slots.old }
{
    for place in 0..slots.len() {
        let number = SlotNumber::at(place);
        if number != but {
            lose_at(slots, number);
        }
    }
}

// Where a call was cut, all slots lose their power but the one with this number.
fn lose_if(slots: &mut [Tenant], but: SlotNumber, is_cut: bool)
    ensures { slots.new ≡ rows_after_meetings (λ k. if is_cut then losses_of_others but k else [])
        slots.old }
{
    if is_cut {
        lose_others(slots, but);
    }
}

/// All slots lose their power. Their calls in flight are over, and have changed nothing.
pub fn lose_power(slots: &mut [Tenant])
    ensures { slots.new ≡ rows_after_event slots.old Power }
{
    for place in 0..slots.len() {
        lose_at(slots, SlotNumber::at(place));
    }
}

/// Lets something happen in the slot with this number; where that cuts a call, all other slots lose
/// their power. After want of memory the others are as they were.
pub fn act(
    alloc: Global,
    slots: &mut [Tenant],
    number: SlotNumber,
    action: SlotAction,
) -> Result<SlotReply, Memory>
    requires inside { number < length slots.old }
    requires few { All CanCount slots.old }
    ensures ok { IfOk result (EventTells number action slots.old slots.new) }
    ensures err { OnErr result (OneRowLacksMemory number action slots.old slots.new) }
{
    let is_cut = slots[number.place()].is_cut(&action);
    match act_at(alloc, slots, number, action) {
        Err(memory) => Err(memory),
        Ok(said) => {
            lose_if(slots, number, is_cut);
            Ok(said)
        }
    }
}

/// Follows an event, and answers it as text. Memory may be wanting for the event or, once that has
/// happened, for the answer.
pub fn follow(alloc: Global, slots: &mut [Tenant], event: SlotEvent) -> Result<Bytes, Memory>
    requires inside { IsInside (length slots.old) event }
    requires few { All CanCount slots.old }
    ensures stands { OnOk result (slots.new ≡ rows_after_event slots.old event) }
    ensures answers { IfOk result (λ text. text ≡ answers_text (answers_to slots.old event)) }
    ensures wants { OnErr result (RowsLackMemory event slots.old slots.new) }
{
    match event {
        SlotEvent::Power => follow_power(alloc, slots),
        SlotEvent::At { slot, action } => follow_action(alloc, slots, slot, action),
    }
}

fn follow_power(alloc: Global, slots: &mut [Tenant]) -> Result<Bytes, Memory>
    ensures stands { slots.new ≡ rows_after_event slots.old Power }
    ensures answers { IfOk result (λ text. text ≡ answers_text (answers_to slots.old Power)) }
{
    lose_power(slots);
    let mut text = Bytes::new(alloc);
    match put_power(&mut text) {
        Err(memory) => Err(memory),
        Ok(()) => Ok(text),
    }
}

fn follow_action(
    alloc: Global,
    slots: &mut [Tenant],
    slot: SlotNumber,
    action: SlotAction,
) -> Result<Bytes, Memory>
    requires inside { slot < length slots.old }
    requires few { All CanCount slots.old }
    ensures stands { OnOk result (slots.new ≡ rows_after_event slots.old (At slot action)) }
    ensures answers { IfOk result (λ text. text
        ≡ answers_text (answers_to slots.old (At slot action))) }
    ensures wants { OnErr result (RowsLackMemory (At slot action) slots.old slots.new) }
{
    match act(alloc, slots, slot, action) {
        Err(memory) => Err(memory),
        Ok(said) => {
            let mut text = Bytes::new(alloc);
            match put_answer(slot, &said, &mut text) {
                Err(memory) => Err(memory),
                Ok(()) => Ok(text),
            }
        }
    }
}
