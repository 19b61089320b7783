//! Reading an event line.

ghost use Rattle.std.specs.Prelude.{◌≡◌, ◌↔◌, Some, None, IfOk, IsErrOf};
ghost use Rattle.mm_schedule.specs.Events.{event_of, event_at, SpellsEvent};

use crate::event::{Event, Meddles};
use crate::fault::EventFault;
use crate::text::{event_in, owned};
use std::alloc::Global;

/// The event of a line, which stands without its LF.
pub fn read_event(alloc: Global, line: &[u8]) -> Result<Event, EventFault>
    ensures spelled { IfOk result (λ event. SpellsEvent (event_of event) line.now) }
    ensures read { IfOk result (λ event. event_at line.now ≡ Some (event_of event)) }
    ensures bad { IsErrOf result EventFault.Bad ↔ (event_at line.now ≡ None) }
{
    let mut meddles = Meddles::none();
    match event_in(line, &mut meddles) {
        None => Err(EventFault::Bad),
        Some(event) => owned(alloc, &meddles, event),
    }
}
