//! A client who lives by the rule, over any program that holds sessions for him.

ghost use Rattle.std.specs.Prelude.{IfOk, ℕ, List};
ghost use Rattle.mm_client.specs.ClientLife.{Hearing, memory_at, LivesAsClient};

use crate::remembering::{Client, HeardSession};
use mm_bytes::{Bytes, Memory};
use std::alloc::Global;

/// What holds sessions for a client: it is given lines, and he hears what he hears of it. Nothing
/// is asked of it: he may be cut off, and the lines lost.
pub trait Service {
    /// What a session comes to: the service before it and behind it, the lines that were given, and
    /// what was heard.
    ghost holds: { Self → Self → List (List ℕ) → Hearing → Type 0 };

    fn hold(&mut self, lines: &[Bytes]) -> Result<HeardSession, Memory>
        ensures { IfOk result (λ heard. holds self.old self.new lines.now heard) };
}

/// Lives as a client who wants these lines behind this position, for so many sessions.
pub fn live_as_client<S: Service>(
    alloc: Global,
    base: u64,
    wanted: &[Bytes],
    rounds: u32,
    service: &mut S,
) -> Result<Client, Memory>
    ensures { IfOk result (λ client. LivesAsClient S.holds base wanted.now service.old service.new
        (memory_at base) client rounds) }
{
    let mut client = Client::new(alloc, base);
    for round in 0..rounds {
        let lines = client.lines_to_give(base, wanted);
        let heard = service.hold(lines)?;
        client = client.memory_after(heard)?;
    }
    Ok(client)
}
