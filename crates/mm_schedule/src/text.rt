//! Events as they lie in their lines.

ghost use Rattle.std.specs.Prelude.{◌≡◌, ◌+◌, ◌-◌, ◌<◌, ◌≤◌, ℕ, List, [], ◌∷◌, ◌++◌, Some, IfOk, IfErr, unwrap_or};
ghost use Rattle.std.specs.Option.{option_map};
ghost use Rattle.mm_platform.specs.declared.plan.Meddle.{Meddle};
ghost use Rattle.mm_schedule.specs.declared.fault.EventFault.{EventFault};
ghost use Rattle.mm_schedule.specs.Events.{event_of, meddles_of, call_at, event_at, fail_stop_at, meddle_at, meddles_at, offer_at};
ghost use Rattle.mm_schedule.specs.Events.{prefixed_call_at, raw_offer_at, stop_at, stop_step_at, ask_at, cut_at, drop_at, flip_at};
ghost use Rattle.mm_schedule.specs.Events as texts;
ghost use Rattle.mm_schedule.specs.Headers.{bytes_at};

use crate::event::{Event, Meddles, Offer};
use crate::fault::EventFault;
use crate::words::{after, is_text, number_in, spells_bytes, step_in, value_in, word_in};
use mm_bytes::{Bytes, Memory};
use mm_digest::Digest;
use mm_platform::{Meddle, Stop};
use std::alloc::Global;

/// An offer as it lies in its line; the word of `Raw` spells bytes.
#[derive(Drop)]
pub enum OfferText<'a> {
    Number(u32),
    Last,
    Flip { number: u32, byte: u32 },
    Raw(&'a [u8]),
}

/// An event as it lies in its line, but for its meddles.
#[derive(Drop)]
pub enum EventText<'a> {
    Ask {
        stop: Stop,
        from: OfferText<'a>,
        request: &'a [u8],
    },
    Batch {
        stop: Stop,
        from: OfferText<'a>,
        members: &'a [u8],
    },
    Checkpoint {
        stop: Stop,
    },
    Power,
    Extend {
        value: Digest,
    },
}

/// The event of a line, with its meddles put into `meddles`. Most lines ask at once.
pub fn event_in<'a>(line: &'a [u8], meddles: &mut Meddles) -> Option<EventText<'a>>
    ensures { option_map (texts.event_in (meddles_of meddles.new)) result ≡ event_at line.now }
{
    if let Some(words) = after(b"ask ", line) {
        meddles.count = 0;
        return ask_in(Stop::Quiet, words);
    }
    any_event_in(line, meddles)
}

/// The same, whatever the line begins with.
#[tactic(auto, unfolding(crate::specs::Events::event_at))]
fn any_event_in<'a>(line: &'a [u8], meddles: &mut Meddles) -> Option<EventText<'a>>
    ensures { option_map (texts.event_in (meddles_of meddles.new)) result ≡ event_at line.now }
{
    if is_text(line, b"power") {
        return Some(EventText::Power);
    }
    let Some(word) = after(b"extend ", line) else {
        return prefixed_in(line, meddles);
    };
    let value = value_in(word)?;
    Some(EventText::Extend { value })
}

/// A call with what comes before it.
#[tactic(auto, unfolding(crate::specs::Events::prefixed_call_at))]
fn prefixed_in<'a>(line: &'a [u8], meddles: &mut Meddles) -> Option<EventText<'a>>
    ensures { option_map (texts.event_in (meddles_of meddles.new)) result
        ≡ prefixed_call_at line.now }
{
    let line = read_meddles(meddles, line)?;
    let (stop, line) = stop_in(line)?;
    call_in(stop, line)
}

/// The call behind its meddles and its stop.
#[tactic(auto, unfolding(crate::specs::Events::call_at))]
fn call_in(stop: Stop, line: &[u8]) -> Option<EventText<'_>>
    ensures { (meddles : List Meddle)
        → option_map (texts.event_in meddles) result ≡ call_at meddles stop line.now }
{
    if is_text(line, b"checkpoint") {
        return Some(EventText::Checkpoint { stop });
    }
    if let Some(words) = after(b"ask ", line) {
        return ask_in(stop, words);
    }
    let line = after(b"batch ", line)?;
    let (from, members) = offer_in(line)?;
    Some(EventText::Batch {
        stop,
        from,
        members,
    })
}

/// What is asked of an offer, behind the first word.
#[inline(always)]
fn ask_in(stop: Stop, words: &[u8]) -> Option<EventText<'_>>
    ensures { (meddles : List Meddle)
        → option_map (texts.event_in meddles) result ≡ ask_at meddles stop words.now }
{
    let (from, request) = offer_in(words)?;
    Some(EventText::Ask {
        stop,
        from,
        request,
    })
}

/// The offer that a line begins with, and what follows the space behind it. None where it begins
/// with none.
#[tactic(auto, unfolding(crate::specs::Events::offer_at, crate::specs::Events::flip_at))]
#[inline(always)]
pub fn offer_in(line: &[u8]) -> Option<(OfferText<'_>, &[u8])>
    ensures { option_map (λ (x : _). (texts.offer_of x.0, x.1.now)) result ≡ offer_at line.now }
{
    let (first, line) = word_in(line)?;
    if is_text(first, b"last") {
        return Some((OfferText::Last, line));
    }
    if is_text(first, b"flip") {
        return flip_in(line);
    }
    if is_text(first, b"raw") {
        return raw_in(line);
    }
    let number = number_in(first)?;
    Some((OfferText::Number(number), line))
}

/// Two numbers behind `flip`.
#[tactic(auto, unfolding(crate::specs::Events::flip_at))]
fn flip_in(line: &[u8]) -> Option<(OfferText<'_>, &[u8])>
    ensures { option_map (λ (x : _). (texts.offer_of x.0, x.1.now)) result ≡ flip_at line.now }
{
    let (first, line) = word_in(line)?;
    let number = number_in(first)?;
    let (second, line) = word_in(line)?;
    let byte = number_in(second)?;
    Some((OfferText::Flip { number, byte }, line))
}

/// Bytes behind `raw`.
#[tactic(auto, unfolding(crate::specs::Events::raw_offer_at))]
fn raw_in(line: &[u8]) -> Option<(OfferText<'_>, &[u8])>
    ensures { option_map (λ (x : _). (texts.offer_of x.0, x.1.now)) result ≡ raw_offer_at line.now }
{
    let (word, line) = word_in(line)?;
    if !spells_bytes(word) {
        return None;
    }
    Some((OfferText::Raw(word), line))
}

/// At most one stop, and what follows it; quiet where the line begins with none of their words.
/// None where such a word has no right step behind it.
#[tactic(auto, unfolding(crate::specs::Events::stop_at))]
#[inline(always)]
pub fn stop_in(line: &[u8]) -> Option<(Stop, &[u8])>
    ensures { option_map (λ (x : _). (x.0, x.1.now)) result ≡ stop_at line.now }
{
    if let Some(line) = after(b"cut ", line) {
        return cut_in(line);
    }
    if let Some(line) = after(b"drop ", line) {
        return drop_in(line);
    }
    if let Some(line) = after(b"fail ", line) {
        return failing_in(line);
    }
    Some((Stop::Quiet, line))
}

/// A step behind `cut`.
fn cut_in(line: &[u8]) -> Option<(Stop, &[u8])>
    ensures { option_map (λ (x : _). (x.0, x.1.now)) result ≡ cut_at line.now }
{
    let (step, line) = first_step_in(line)?;
    Some((Stop::Cut(step), line))
}

/// A step behind `drop`.
fn drop_in(line: &[u8]) -> Option<(Stop, &[u8])>
    ensures { option_map (λ (x : _). (x.0, x.1.now)) result ≡ drop_at line.now }
{
    let (step, line) = first_step_in(line)?;
    Some((Stop::Drop(step), line))
}

/// The step that a line begins with, and what follows the space behind it.
#[tactic(auto, unfolding(crate::specs::Events::stop_step_at))]
fn first_step_in(line: &[u8]) -> Option<(u8, &[u8])>
    ensures { option_map (λ (x : _). (x.0, x.1.now)) result ≡ stop_step_at line.now }
{
    let (word, line) = word_in(line)?;
    let step = step_in(word)?;
    Some((step, line))
}

/// A step and a word behind `fail`.
#[tactic(auto, unfolding(crate::specs::Events::fail_stop_at))]
fn failing_in(line: &[u8]) -> Option<(Stop, &[u8])>
    ensures { option_map (λ (x : _). (x.0, x.1.now)) result ≡ fail_stop_at line.now }
{
    let (step, line) = first_step_in(line)?;
    let (word, line) = word_in(line)?;
    if is_text(word, b"done") {
        return Some((Stop::Fail { step, done: true }, line));
    }
    if is_text(word, b"undone") {
        return Some((Stop::Fail { step, done: false }, line));
    }
    None
}

/// The meddles that a line begins with, at most eight, and what follows them. None where one of
/// them is wrong.
pub fn meddles_in(line: &[u8]) -> Option<(Meddles, &[u8])>
    ensures { option_map texts.meddles_and_rest result ≡ meddles_at 8 0 line.now }
{
    let mut meddles = Meddles::none();
    let line = read_meddles(&mut meddles, line)?;
    Some((meddles, line))
}

/// Puts the meddles that a line begins with in place of these, and answers what follows them.
#[tactic(auto, unfolding(crate::specs::Events::meddles_at))]
#[inline(always)]
fn read_meddles<'a>(meddles: &mut Meddles, line: &'a [u8]) -> Option<&'a [u8]>
    ensures { option_map (texts.meddles_in_place meddles.new) result ≡ meddles_at 8 0 line.now }
{
    meddles.count = 0;
    if after(b"meddle ", line).is_none() {
        return Some(line);
    }
    more_meddles(meddles, 0, line)
}

/// Puts the meddles of a line, from a step on, behind these, and answers what follows them.
#[tactic(auto, unfolding(crate::specs::Events::meddles_at))]
fn more_meddles<'a>(meddles: &mut Meddles, least: u8, line: &'a [u8]) -> Option<&'a [u8]>
    ensures { option_map (texts.meddles_in_place meddles.new) result
        ≡ texts.meddles_behind (meddles_of meddles.old)
        (meddles_at (8 - meddles.old.count) least line.now) }
{
    if meddles.count == 8 {
        return Some(line);
    }
    let Some(words) = after(b"meddle ", line) else {
        return Some(line);
    };
    let (meddle, line) = meddle_in(words, least)?;
    meddles.push(meddle);
    more_meddles(meddles, meddle.step, line)
}

/// A meddle behind its first word: a step that is no lower than the one before, and a value.
#[tactic(auto, unfolding(crate::specs::Events::meddle_at, crate::specs::Events::stop_step_at))]
fn meddle_in(line: &[u8], least: u8) -> Option<(Meddle, &[u8])>
    ensures { option_map (λ (x : _). (x.0, x.1.now)) result ≡ meddle_at least line.now }
{
    let (step, line) = first_step_in(line)?;
    if step < least {
        return None;
    }
    let (word, line) = word_in(line)?;
    let value = value_in(word)?;
    Some((Meddle { step, value }, line))
}

/// The event with these meddles and bytes of its own.
pub fn owned(alloc: Global, meddles: &Meddles, event: EventText<'_>) -> Result<Event, EventFault>
    ensures own { IfOk result
        (λ own. event_of own ≡ texts.event_in (meddles_of meddles.now) event.entry) }
    ensures memory { IfErr result (λ fault. fault ≡ EventFault.Memory) }
{
    match event {
        EventText::Ask {
            stop,
            from,
            request,
        } => {
            let (offer, request) = owned_parts(alloc, from, request)?;
            Ok(Event::Ask {
                meddles: *meddles,
                stop,
                offer,
                request,
            })
        }
        EventText::Batch {
            stop,
            from,
            members,
        } => {
            let (offer, text) = owned_parts(alloc, from, members)?;
            Ok(Event::Batch {
                meddles: *meddles,
                stop,
                offer,
                text,
            })
        }
        EventText::Checkpoint { stop } => Ok(Event::Checkpoint {
            meddles: *meddles,
            stop,
        }),
        EventText::Power => Ok(Event::Power),
        EventText::Extend { value } => Ok(Event::Extend { value }),
    }
}

/// An offer and a text with bytes of their own.
fn owned_parts(alloc: Global, offer: OfferText<'_>, text: &[u8]) -> Result<(Offer, Bytes), Memory>
    ensures offer { IfOk result (λ own. own.0 ≡ texts.offer_of offer.entry) }
    ensures text { IfOk result (λ own. own.1 ≡ text.now) }
{
    let offer = owned_offer(alloc, offer)?;
    let text = Bytes::copy_of(alloc, text)?;
    Ok((offer, text))
}

/// The offer with bytes of its own.
#[inline(always)]
pub fn owned_offer(alloc: Global, offer: OfferText<'_>) -> Result<Offer, Memory>
    ensures { IfOk result (λ own. own ≡ texts.offer_of offer.entry) }
{
    match offer {
        OfferText::Number(number) => Ok(Offer::Number(number)),
        OfferText::Last => Ok(Offer::Last),
        OfferText::Flip { number, byte } => Ok(Offer::Flip { number, byte }),
        OfferText::Raw(word) => {
            let bytes = bytes_of(alloc, word)?;
            Ok(Offer::Raw(bytes))
        }
    }
}

/// The bytes that a word spells.
#[tactic(auto, unfolding(crate::specs::Headers::bytes_at))]
fn bytes_of(alloc: Global, word: &[u8]) -> Result<Bytes, Memory>
    ensures { IfOk result (λ bytes. bytes ≡ unwrap_or (bytes_at word.now) []) }
{
    if is_text(word, b"-") {
        return Ok(Bytes::new(alloc));
    }
    let Ok(bytes) = hex::decode(alloc, word) else {
        return Err(Memory);
    };
    Bytes::copy_of(alloc, bytes.as_slice())
}
