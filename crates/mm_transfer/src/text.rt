//! Events of two sides as they lie in their lines.

ghost use Rattle.std.specs.Prelude.{◌≡◌, IfOk};
ghost use Rattle.mm_schedule.specs.Events.{meddles_of};
ghost use Rattle.mm_transfer.specs.Events.{command_of, act_of, side_event_of};
ghost use Rattle.mm_transfer.specs.Stage as texts;

use crate::event::{Command, SideAct, SideChoice, SideEvent};
use crate::nonce::Nonce;
use mm_bytes::{Bytes, Memory};
use mm_digest::Digest;
use mm_platform::Stop;
use mm_schedule::{Event, Meddles, OfferText, owned_offer};
use std::alloc::Global;

/// A command as it lies in its line.
pub enum CommandText<'a> {
    Invite { nonce: Nonce },
    Retire { nonce: Nonce, from: OfferText<'a> },
    Accept { from: OfferText<'a> },
}

/// What happens on a side, as it lies in its line, but for its meddles.
pub enum ActText<'a> {
    Ask {
        stop: Stop,
        from: OfferText<'a>,
        request: &'a [u8],
    },
    Checkpoint {
        stop: Stop,
    },
    Power,
    Extend {
        value: Digest,
    },
    Moves {
        stop: Stop,
        command: CommandText<'a>,
    },
}

/// An event as it lies in its line, but for its meddles.
pub struct SideEventText<'a> {
    pub which: SideChoice,
    pub act: ActText<'a>,
}

/// The event with these meddles and bytes of its own.
pub fn owned(
    alloc: Global,
    meddles: &Meddles,
    event: SideEventText<'_>,
) -> Result<SideEvent, Memory>
    ensures { IfOk result
        (λ own. side_event_of own ≡ texts.event_in (meddles_of meddles.now) event.entry) }
{
    let SideEventText { which, act } = event;
    let act = owned_act(alloc, meddles, act)?;
    Ok(SideEvent { which, act })
}

fn owned_act(alloc: Global, meddles: &Meddles, act: ActText<'_>) -> Result<SideAct, Memory>
    ensures { IfOk result (λ own. act_of own ≡ texts.act_in (meddles_of meddles.now) act.entry) }
{
    match act {
        ActText::Ask {
            stop,
            from,
            request,
        } => {
            let offer = owned_offer(alloc, from)?;
            let request = Bytes::copy_of(alloc, request)?;
            Ok(SideAct::Plain(Event::Ask {
                meddles: *meddles,
                stop,
                offer,
                request,
            }))
        }
        ActText::Checkpoint { stop } => Ok(SideAct::Plain(Event::Checkpoint {
            meddles: *meddles,
            stop,
        })),
        ActText::Power => Ok(SideAct::Plain(Event::Power)),
        ActText::Extend { value } => Ok(SideAct::Plain(Event::Extend { value })),
        ActText::Moves { stop, command } => {
            let command = owned_command(alloc, command)?;
            Ok(SideAct::Moves {
                meddles: *meddles,
                stop,
                command,
            })
        }
    }
}

fn owned_command(alloc: Global, command: CommandText<'_>) -> Result<Command, Memory>
    ensures { IfOk result (λ own. command_of own ≡ texts.command_in command.entry) }
{
    match command {
        CommandText::Invite { nonce } => Ok(Command::Invite { nonce }),
        CommandText::Retire { nonce, from } => {
            let offer = owned_offer(alloc, from)?;
            Ok(Command::Retire { nonce, offer })
        }
        CommandText::Accept { from } => {
            let offer = owned_offer(alloc, from)?;
            Ok(Command::Accept { offer })
        }
    }
}
