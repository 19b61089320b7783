//! The places of a line's words, and what may stand in each.

use mm_bytes::read_decimal;
use mm_modules::{by_name, module_names};
use mm_schedule::{is_text, number_in, read_variant, spells_bytes, value_in};
use std::str;

/// What the lines of an input are.
#[derive(Clone, Copy, PartialEq, Eq)]
pub enum Input {
    Schedule,
    Check,
    /// Of so many slots, none where that isn't known.
    Slots(u64),
    Transfer,
    Receipts,
}

/// A place of a word.
#[derive(Clone, Copy, PartialEq, Eq)]
pub enum Place {
    Memoir,
    Kind,
    Version,
    SlotCount,
    Variant,
    Module,
    Slot,
    Action,
    Platform,
    Event,
    Call,
    BrokenCall,
    MeddleStep,
    MeddleValue,
    Step,
    FailStep,
    Ending,
    SlotEnding,
    Value,
    LeavingNonce,
    Offer,
    Ticket,
    Flipped,
    Offset,
    Hex,
    Position,
    Text,
    End,
}

impl Place {
    /// What may stand there.
    pub fn expected(self, input: Input) -> &'static str {
        match self {
            Place::Memoir => "memoir",
            Place::Kind if input == Input::Transfer => "transfer",
            Place::Kind => "slots",
            Place::Version => "1, the version of the form",
            Place::SlotCount => "the number of slots, a decimal from 1 to 16",
            Place::Variant => "VARIANT, which is basic or opt",
            Place::Module => "MODULE, which is ",
            Place::Slot => "power, or a slot, a decimal below their number",
            Place::Action => "begin, close, step, cut, drop, fail or extend",
            Place::Platform => "a platform, 0 or 1",
            Place::Ending | Place::SlotEnding => "done or undone",
            Place::Position => "P, a decimal from 1 to 281474976710656",
            Place::Event | Place::Call | Place::BrokenCall => self.expected_call(input),
            _ => self.expected_behind(),
        }
    }

    // What may stand there, of an event.
    fn expected_call(self, input: Input) -> &'static str {
        match self {
            Place::Event if input == Input::Transfer =>
                "ask, checkpoint, power, extend, invite, retire or accept, or before a call meddle, cut, drop or fail",
            Place::Event =>
                "ask, batch, checkpoint, power or extend, or before a call meddle, cut, drop or fail",
            Place::Call if input == Input::Transfer =>
                "ask, checkpoint, invite, retire or accept, or before it one of at most 8 meddle, cut, drop or fail",
            Place::Call =>
                "ask, batch or checkpoint, or before it one of at most 8 meddle, cut, drop or fail",
            _ if input == Input::Transfer => "ask, checkpoint, invite, retire or accept",
            _ => "ask, batch or checkpoint",
        }
    }

    // What may stand there, behind an event's first word.
    fn expected_behind(self) -> &'static str {
        match self {
            Place::MeddleStep => "a step, 1 to 9 and none before that of the last meddle",
            Place::Step | Place::FailStep => "a step, 1 to 9",
            Place::MeddleValue | Place::Value | Place::LeavingNonce =>
                "VALUE, 64 hexadecimal digits",
            Place::Offer => "OFFER, which is last, flip, raw or a decimal of at most 999999999",
            Place::Ticket => "TICKET, which is last, raw or a decimal of at most 999999999",
            Place::Flipped | Place::Offset => "NUMBER, a decimal of at most 999999999",
            Place::Hex => "HEX, which is - or two hexadecimal digits for each byte",
            Place::Text => "space, behind which the request stands",
            _ => "",
        }
    }

    /// Which these are, of a module.
    pub fn names(self) -> &'static str {
        match self {
            Place::Module => str::from_utf8(module_names()).unwrap_or(""),
            _ => "",
        }
    }
}

/// A way through the places of a line.
#[derive(Drop)]
pub struct Walk {
    pub input: Input,
    // What comes behind the next offer.
    behind: Place,
    // The step of the last meddle, and how many there were.
    step: u64,
    meddles: u32,
}

impl Walk {
    /// That of a line of this input.
    pub fn new(input: Input) -> Walk {
        Walk {
            input,
            behind: Place::Text,
            step: 1,
            meddles: 0,
        }
    }

    /// The first place of the line of this number.
    pub fn first(&self, number: u32) -> Place {
        match self.input {
            Input::Receipts if number % 2 == 1 => Place::Position,
            Input::Receipts => Place::Text,
            _ if number == 1 => Place::Memoir,
            Input::Schedule | Input::Check => Place::Event,
            Input::Slots(count) if u64::from(number) <= count.saturating_add(1) => Place::Variant,
            Input::Slots(_) => Place::Slot,
            Input::Transfer => Place::Platform,
        }
    }

    /// The place behind this word in this one. None where it may not stand there.
    pub fn next(&mut self, place: Place, word: &[u8]) -> Option<Place> {
        match place {
            Place::Memoir | Place::Kind | Place::Version | Place::SlotCount => self.in_header(
                place, word,
            ),
            Place::Variant => given(read_variant(word).is_some(), Place::Module),
            Place::Module => given(by_name(word).is_some(), Place::End),
            Place::Slot | Place::Action => self.in_slot(place, word),
            Place::Platform => given(is_text(word, b"0") || is_text(word, b"1"), Place::Event),
            Place::Event | Place::Call | Place::BrokenCall => self.in_event(place, word),
            Place::Position => given(is_position(word), Place::Text),
            Place::Offer | Place::Ticket => self.in_offer(place, word),
            Place::Flipped => given(number_in(word).is_some(), Place::Offset),
            Place::Offset => given(number_in(word).is_some(), self.behind),
            Place::Hex => given(spells_bytes(word), self.behind),
            _ => self.in_prefix(place, word),
        }
    }

    fn in_header(&self, place: Place, word: &[u8]) -> Option<Place> {
        match (place, word) {
            (Place::Memoir, b"memoir") => match self.input {
                Input::Slots(_) | Input::Transfer => Some(Place::Kind),
                _ => Some(Place::Version),
            },
            (Place::Kind, word) => given(
                is_text(word, place.expected(self.input).as_bytes()),
                Place::Version,
            ),
            (Place::Version, b"1") => match self.input {
                Input::Slots(_) => Some(Place::SlotCount),
                _ => Some(Place::Variant),
            },
            (Place::SlotCount, word) => given(slot_count(word).is_some(), Place::End),
            _ => None,
        }
    }

    fn in_slot(&mut self, place: Place, word: &[u8]) -> Option<Place> {
        match (place, word) {
            (Place::Slot, b"power") => Some(Place::End),
            (Place::Slot, word) => given(self.is_slot(word), Place::Action),
            (_, b"begin") => Some(Place::Offer),
            (_, b"close" | b"step" | b"cut" | b"drop") => Some(Place::End),
            (_, b"fail") => Some(Place::SlotEnding),
            (_, b"extend") => Some(Place::Value),
            _ => None,
        }
    }

    fn is_slot(&self, word: &[u8]) -> bool {
        match (self.input, read_decimal(word)) {
            (Input::Slots(count), Some(slot)) => slot < count,
            _ => false,
        }
    }

    fn in_event(&mut self, place: Place, word: &[u8]) -> Option<Place> {
        match word {
            b"power" | b"replies" if place == Place::Event && self.may_begin(word) => Some(
                Place::End,
            ),
            b"extend" if place == Place::Event => Some(Place::Value),
            b"meddle" if place != Place::BrokenCall && self.meddles < 8 => Some(Place::MeddleStep),
            b"cut" | b"drop" if place != Place::BrokenCall => Some(Place::Step),
            b"fail" if place != Place::BrokenCall => Some(Place::FailStep),
            b"ask" => Some(Place::Offer),
            b"checkpoint" => Some(Place::End),
            _ if self.input == Input::Transfer => self.in_move(word),
            b"batch" => Some(Place::Offer),
            _ => None,
        }
    }

    fn may_begin(&self, word: &[u8]) -> bool {
        is_text(word, b"power") || self.input == Input::Check
    }

    fn in_move(&mut self, word: &[u8]) -> Option<Place> {
        self.behind = Place::End;
        match word {
            b"invite" => Some(Place::Value),
            b"retire" => Some(Place::LeavingNonce),
            b"accept" => Some(Place::Ticket),
            _ => None,
        }
    }

    fn in_offer(&self, place: Place, word: &[u8]) -> Option<Place> {
        match word {
            b"last" => Some(self.behind),
            b"raw" => Some(Place::Hex),
            b"flip" if place == Place::Offer => Some(Place::Flipped),
            word => given(number_in(word).is_some(), self.behind),
        }
    }

    fn in_prefix(&mut self, place: Place, word: &[u8]) -> Option<Place> {
        match place {
            Place::MeddleStep => {
                let step = step_in(word)?;
                let last = self.step;
                self.step = step;
                self.meddles = self.meddles.saturating_add(1);
                given(last <= step, Place::MeddleValue)
            }
            Place::MeddleValue => given(value_in(word).is_some(), Place::Call),
            Place::Step => given(step_in(word).is_some(), Place::BrokenCall),
            Place::FailStep => given(step_in(word).is_some(), Place::Ending),
            Place::Ending => given(is_ending(word), Place::BrokenCall),
            Place::SlotEnding => given(is_ending(word), Place::End),
            Place::Value => given(value_in(word).is_some(), Place::End),
            Place::LeavingNonce => given(value_in(word).is_some(), Place::Offer),
            _ => None,
        }
    }
}

// A place, if this holds.
fn given(holds: bool, place: Place) -> Option<Place> {
    if holds { Some(place) } else { None }
}

fn is_ending(word: &[u8]) -> bool {
    is_text(word, b"done") || is_text(word, b"undone")
}

fn step_in(word: &[u8]) -> Option<u64> {
    read_decimal(word).filter(|step| 1 <= *step && *step <= 9)
}

fn is_position(word: &[u8]) -> bool {
    read_decimal(word).is_some_and(|position| 1 <= position && position <= 1 << 48)
}

/// The number of slots that a word tells.
pub fn slot_count(word: &[u8]) -> Option<u64> {
    read_decimal(word).filter(|count| 1 <= *count && *count <= 16)
}
