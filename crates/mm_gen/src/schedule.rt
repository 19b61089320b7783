//! A whole schedule.

ghost use Rattle.std.specs.Prelude.{◌≡◌, ◌≤◌, IfOk};
ghost use Rattle.mm_bytes.specs.Limits.{most_events};
ghost use Rattle.mm_gen.specs.Schedules.{schedule_text, seed_from};

use crate::turn::put_turn;
use crate::words::draw;
use mm_bytes::{Bytes, Memory};
use mm_schedule::{Header, put_header};
use rand_chacha::ChaCha20Rng;
use rand_core::SeedableRng;
use std::alloc::Global;

/// The schedule of a number: the header's line and `count` event lines, each with its LF. The event
/// lines follow from the number by the words of ChaCha20 (RFC 8439's block function, with a 64-bit
/// block counter).
pub fn gen_(alloc: Global, number: u64, count: u32, header: &Header) -> Result<Bytes, Memory>
    requires { count ≤ most_events }
    ensures { IfOk result (λ text. text ≡ schedule_text number count header.now) }
{
    let mut text = Bytes::new(alloc);
    put_header(&mut text, header)?;
    text.append(b"\n")?;
    let mut generator = ChaCha20Rng::from_seed(seed_from(number));
    let mut done: u32 = 0;
    'turns: while done < count {
        let words = draw(&mut generator);
        done += put_turn(&mut text, header, done + 1, count - done, &words)?;
    }
    Ok(text)
}

/// The seed of a number.
#[tactic(auto, unfolding(crate::specs::Schedules::seed_from))]
fn seed_from(number: u64) -> [u8; 32]
    ensures { result ≡ seed_from number }
{
    let mut seed = [0; 32];
    seed[..8].copy_from_slice(&number.to_le_bytes());
    seed
}
