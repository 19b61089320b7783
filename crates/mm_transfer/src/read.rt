//! Reading the lines of two sides.

ghost use Rattle.std.specs.Prelude.{◌≡◌, ◌↔◌, List, Some, None, IfOk, IsErrOf};
ghost use Rattle.std.specs.Option.{option_map};
ghost use Rattle.mm_module.specs.Meaning.{value_at};
ghost use Rattle.mm_platform.specs.declared.plan.Meddle.{Meddle};
ghost use Rattle.mm_schedule.specs.Events.{meddles_of, offer_of};
ghost use Rattle.mm_transfer.specs.Events.{which_of, side_event_of};
ghost use Rattle.mm_transfer.specs.Stage.{first_header_at, side_at, named_offer_at, raw_offer_at, flipped_offer_at, whole_offer_at, retirement_at, command_at, ask_at, call_at, prefixed_act_at, act_at, event_at};
ghost use Rattle.mm_transfer.specs.Stage as texts;

use crate::event::{SideChoice, SideEvent};
use crate::nonce::Nonce;
use crate::text::{ActText, CommandText, SideEventText, owned};
use mm_platform::Stop;
use mm_schedule::{
    EventFault, Header, Meddles, OfferText, after, is_text, meddles_in, number_in, offer_in,
    read_head, spells_bytes, stop_in, value_in, word_in,
};
use std::alloc::Global;

/// What the first line names, as `memoir transfer 1 basic counter`. None where the line is outside
/// the grammar.
#[tactic(auto, unfolding(crate::specs::Stage::first_header_at))]
pub fn read_first(line: &[u8]) -> Option<Header>
    ensures { result ≡ first_header_at line.now }
{
    let words = after(b"memoir transfer 1 ", line)?;
    read_head(words)
}

/// The event of a line, which stands without its LF.
pub fn read_side_event(alloc: Global, line: &[u8]) -> Result<SideEvent, EventFault>
    ensures read { IfOk result (λ event. event_at line.now ≡ Some (side_event_of event)) }
    ensures bad { IsErrOf result EventFault.Bad ↔ (event_at line.now ≡ None) }
{
    let mut meddles = Meddles::none();
    let Some(event) = event_in(line, &mut meddles) else {
        return Err(EventFault::Bad);
    };
    let event = owned(alloc, &meddles, event)?;
    Ok(event)
}

// The event of a line, with its meddles put into `meddles`.
#[tactic(auto, unfolding(crate::specs::Stage::event_at))]
fn event_in<'a>(line: &'a [u8], meddles: &mut Meddles) -> Option<SideEventText<'a>>
    ensures { option_map (texts.event_in (meddles_of meddles.new)) result ≡ event_at line.now }
{
    let (word, line) = word_in(line)?;
    let which = which_in(word)?;
    let act = act_in(line, meddles)?;
    Some(SideEventText { which, act })
}

// A side, by its number.
#[tactic(auto, unfolding(crate::specs::Stage::side_at))]
fn which_in(word: &[u8]) -> Option<SideChoice>
    ensures { option_map which_of result ≡ side_at word.now }
{
    if is_text(word, b"0") {
        return Some(SideChoice::First);
    }
    if is_text(word, b"1") {
        return Some(SideChoice::Second);
    }
    None
}

// What happens on a side.
#[tactic(auto, unfolding(crate::specs::Stage::act_at))]
fn act_in<'a>(line: &'a [u8], meddles: &mut Meddles) -> Option<ActText<'a>>
    ensures { option_map (texts.act_in (meddles_of meddles.new)) result ≡ act_at line.now }
{
    if is_text(line, b"power") {
        return Some(ActText::Power);
    }
    let Some(word) = after(b"extend ", line) else {
        return prefixed_in(line, meddles);
    };
    let value = value_in(word)?;
    Some(ActText::Extend { value })
}

// A call or a command with what comes before it.
#[tactic(auto, unfolding(crate::specs::Stage::prefixed_act_at))]
fn prefixed_in<'a>(line: &'a [u8], meddles: &mut Meddles) -> Option<ActText<'a>>
    ensures { option_map (texts.act_in (meddles_of meddles.new)) result
        ≡ prefixed_act_at line.now }
{
    let (read, line) = meddles_in(line)?;
    *meddles = read;
    let (stop, line) = stop_in(line)?;
    call_in(stop, line)
}

// A call or a command behind its meddles and its stop.
#[tactic(auto, unfolding(crate::specs::Stage::call_at))]
fn call_in(stop: Stop, line: &[u8]) -> Option<ActText<'_>>
    ensures { (meddles : List Meddle)
        → option_map (texts.act_in meddles) result ≡ call_at meddles stop line.now }
{
    if is_text(line, b"checkpoint") {
        return Some(ActText::Checkpoint { stop });
    }
    if let Some(line) = after(b"ask ", line) {
        return ask_in(stop, line);
    }
    let command = command_in(line)?;
    Some(ActText::Moves { stop, command })
}

// An offer and a request behind `ask`.
#[tactic(auto, unfolding(crate::specs::Stage::ask_at))]
fn ask_in(stop: Stop, line: &[u8]) -> Option<ActText<'_>>
    ensures { (meddles : List Meddle)
        → option_map (texts.act_in meddles) result ≡ ask_at meddles stop line.now }
{
    let (from, request) = offer_in(line)?;
    Some(ActText::Ask {
        stop,
        from,
        request,
    })
}

// A command.
#[tactic(auto, unfolding(crate::specs::Stage::command_at))]
fn command_in(line: &[u8]) -> Option<CommandText<'_>>
    ensures { option_map texts.command_in result ≡ command_at line.now }
{
    if let Some(word) = after(b"invite ", line) {
        let nonce = nonce_in(word)?;
        return Some(CommandText::Invite { nonce });
    }
    if let Some(line) = after(b"retire ", line) {
        return retire_in(line);
    }
    let word = after(b"accept ", line)?;
    let from = named_in(word)?;
    Some(CommandText::Accept { from })
}

// A nonce of 64 hexadecimal digits.
fn nonce_in(word: &[u8]) -> Option<Nonce>
    ensures { option_map (λ nonce. nonce.bytes) result ≡ value_at word.now }
{
    let value = value_in(word)?;
    let bytes = value.bytes;
    Some(Nonce { bytes })
}

// A nonce and an offer behind `retire`.
#[tactic(auto, unfolding(crate::specs::Stage::retirement_at))]
fn retire_in(line: &[u8]) -> Option<CommandText<'_>>
    ensures { option_map texts.command_in result ≡ retirement_at line.now }
{
    let (word, line) = word_in(line)?;
    let nonce = nonce_in(word)?;
    let from = whole_offer_in(line)?;
    Some(CommandText::Retire { nonce, from })
}

// An offer up to the end of the line.
#[tactic(auto, unfolding(crate::specs::Stage::whole_offer_at))]
fn whole_offer_in(line: &[u8]) -> Option<OfferText<'_>>
    ensures { option_map offer_of result ≡ whole_offer_at line.now }
{
    match after(b"flip ", line) {
        Some(words) => flipped_in(words),
        None => named_in(line),
    }
}

// Two numbers behind `flip`, up to the end of the line.
#[tactic(auto, unfolding(crate::specs::Stage::flipped_offer_at))]
fn flipped_in(line: &[u8]) -> Option<OfferText<'_>>
    ensures { option_map offer_of result ≡ flipped_offer_at line.now }
{
    let (word, line) = word_in(line)?;
    let number = number_in(word)?;
    let byte = number_in(line)?;
    Some(OfferText::Flip { number, byte })
}

// A number, `last`, or bytes behind `raw`, up to the end of the line.
#[tactic(auto, unfolding(crate::specs::Stage::named_offer_at))]
fn named_in(line: &[u8]) -> Option<OfferText<'_>>
    ensures { option_map offer_of result ≡ named_offer_at line.now }
{
    if is_text(line, b"last") {
        return Some(OfferText::Last);
    }
    if let Some(word) = after(b"raw ", line) {
        return raw_in(word);
    }
    let number = number_in(line)?;
    Some(OfferText::Number(number))
}

// Bytes behind `raw`, up to the end of the line.
#[tactic(auto, unfolding(crate::specs::Stage::raw_offer_at))]
fn raw_in(word: &[u8]) -> Option<OfferText<'_>>
    ensures { option_map offer_of result ≡ raw_offer_at word.now }
{
    if !spells_bytes(word) {
        return None;
    }
    Some(OfferText::Raw(word))
}
