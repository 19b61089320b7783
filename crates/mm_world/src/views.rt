//! Events where they lie: with bytes of their own, or in a line.

ghost use Rattle.std.specs.Prelude.{◌≡◌};
ghost use Rattle.mm_schedule.specs.Events.{event_of, meddles_of, event_in};
ghost use Rattle.mm_world.specs.Lengths.{event_of_view};

use mm_digest::Digest;
use mm_module::Batch;
use mm_outcome::CallPlan;
use mm_schedule::{Event, EventText, Meddles, Offer, OfferText};

/// The snapshot that an event offers, where it lies.
#[derive(Drop)]
pub enum OfferView<'a> {
    Owned(&'a Offer),
    Text(OfferText<'a>),
}

/// An event where it lies. Nothing of it is copied that has no fixed length.
#[derive(Drop)]
pub enum EventView<'a> {
    Ask {
        course: CallPlan<'a>,
        from: OfferView<'a>,
        batch: Batch<'a>,
    },
    Checkpoint {
        course: CallPlan<'a>,
    },
    Power,
    Extend {
        value: Digest,
    },
}

/// An event with bytes of its own.
#[inline(always)]
pub fn owned_view(event: &Event) -> EventView<'_>
    ensures { event_of_view result ≡ event_of event.now }
{
    match event {
        Event::Ask {
            meddles,
            stop,
            offer,
            request,
        } => EventView::Ask {
            course: CallPlan {
                stop: *stop,
                meddles: meddles.listed(),
            },
            from: OfferView::Owned(offer),
            batch: Batch::One(request.as_slice()),
        },
        Event::Batch {
            meddles,
            stop,
            offer,
            text,
        } => EventView::Ask {
            course: CallPlan {
                stop: *stop,
                meddles: meddles.listed(),
            },
            from: OfferView::Owned(offer),
            batch: Batch::Many(text.as_slice()),
        },
        Event::Checkpoint { meddles, stop } => EventView::Checkpoint {
            course: CallPlan {
                stop: *stop,
                meddles: meddles.listed(),
            },
        },
        Event::Power => EventView::Power,
        Event::Extend { value } => EventView::Extend { value: *value },
    }
}

/// An event in its line, with its meddles.
#[inline(always)]
pub fn line_view<'a>(meddles: &'a Meddles, text: EventText<'a>) -> EventView<'a>
    ensures { event_of_view result ≡ event_in (meddles_of meddles.now) text.entry }
{
    let meddles = meddles.listed();
    match text {
        EventText::Ask {
            stop,
            from,
            request,
        } => EventView::Ask {
            course: CallPlan { stop, meddles },
            from: OfferView::Text(from),
            batch: Batch::One(request),
        },
        EventText::Batch {
            stop,
            from,
            members,
        } => EventView::Ask {
            course: CallPlan { stop, meddles },
            from: OfferView::Text(from),
            batch: Batch::Many(members),
        },
        EventText::Checkpoint { stop } => EventView::Checkpoint {
            course: CallPlan { stop, meddles },
        },
        EventText::Power => EventView::Power,
        EventText::Extend { value } => EventView::Extend { value },
    }
}
