//! Laws of the grammar, and of the machine's runs.

ghost use Rattle.mm_schedule.specs.Laws.{RunIsFixed, RunsGoOn, SpelledIsRead};
ghost use Rattle.mm_schedule.specs.Replies.{RunsKeepPromises, TellsWhatWasSaid};

/// The events and the replies fix the requests that are run.
pub fn run_is_fixed()
    ensures { RunIsFixed }
{}

/// A run goes on where another ended.
pub fn runs_go_on()
    ensures { RunsGoOn }
{}

/// What is spelled in a line is read of it; `read_event` has the other direction.
pub fn spelled_is_read()
    ensures { SpelledIsRead }
{}

/// Each line `ok` or `again` of a run says what the module said when its request was run.
pub fn tells_what_was_said()
    ensures { TellsWhatWasSaid }
{}

/// Every run of a module keeps what the module promises. A limiter's wrong guesses run out: between
/// two outputs `set` or `open`, and after the last, no more are wrong than were allowed, whether
/// they were told or not. No place of a dispenser is told by two draws.
pub fn runs_keep_promises()
    ensures { RunsKeepPromises }
{}
