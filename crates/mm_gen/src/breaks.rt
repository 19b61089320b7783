//! The lines of a text in memory.

ghost use Rattle.std.specs.Prelude.{◌≡◌};
ghost use Rattle.std.specs.List.{position};
ghost use Rattle.std.specs.Option.{option_map};
ghost use Rattle.mm_schedule.specs.Headers.{parts_in_place};
ghost use Rattle.mm_gen.specs.Schedules.{is_break, line_at};

/// The first line, without its LF, and what follows the LF. None where no LF is left.
#[tactic(auto, unfolding(crate::specs::Schedules::line_at))]
pub fn first_line(text: &[u8]) -> Option<(&[u8], &[u8])>
    ensures { option_map parts_in_place result ≡ line_at text.now }
{
    let Some(at) = break_in(text) else {
        return None;
    };
    Some((&text[..at], &text[at + 1..]))
}

/// Where the first LF is.
fn break_in(text: &[u8]) -> Option<usize>
    ensures { result ≡ position is_break text.now }
{
    text.iter().position(|byte| *byte == b'\n')
}
