//! A session: the lines of an input, each asked and told, one after another.

ghost use Rattle.std.specs.Prelude.{◌≡◌, ◌+◌, ◌≤◌, ℕ, false, List, [], Option, IfOk, IfSome};
ghost use Rattle.mm_base.specs.Input.{IsLineFront};
ghost use Rattle.mm_bytes.specs.Limits.{longest_request};
ghost use Rattle.mm_play.specs.PlaysInput.{IsBlamed};
ghost use Rattle.mm_recovery.specs.HostStanding.{host_standing, IsSized};
ghost use Rattle.mm_host.specs.AnySlots.{SessionRunsOnce, SessionContinues};
ghost use Rattle.mm_host.specs.Continuation.{IsRefusalNamed, is_platform_fault, is_read_fault, is_store_fault, is_write_fault, SparesLines};
ghost use Rattle.mm_host.specs.Continuation.{SessionWrites};
ghost use Rattle.mm_host.specs.Sessions.{session_standing, IsSession, most_lines, AsksAndTells, BytesBeginWith, ServesInput, ServesNext};
ghost use Rattle.mm_host.specs.Sessions.{TurnSends};

use crate::fault::SessionFault;
use crate::telling::tell;
use mm_ask::Caller;
use mm_base::{LineFault, LineReader, Read, ReplayFault, Sink, Source};
use mm_bytes::LONGEST_REQUEST;
use mm_digest::Variant;
use mm_module::Module;
use mm_platform::Platform;
use mm_recovery::{Resumed, ask_next, resume};
use mm_store::Store;
use std::alloc::Global;

/// The most lines of a session.
const MOST_LINES: u32 = 1_000_000;

/// Where a session stands: the number of the line that is next, and what it came to last.
#[derive(Drop)]
struct SessionState {
    number: u32,
    last: Resumed,
}

/// Goes on after a stop, and answers each line of the input before it reads the next.
///
/// Each line is a request of at most 4,096 bytes. Where the last answer has position p (0 at the
/// start), the record of position p + 1 is written to slot 2 + (p + 1) mod 2; the line is asked
/// with the last snapshot; the answer's snapshot is written to the slot of its position's parity;
/// and the answer's line is written. A refusal ends the session; the line `no CAUSE` is written
/// first where it is Form, Kind, State, Tag, Stale or Full.
pub fn session<M: Module, P: Platform, T: Store, S: Source, K: Sink>(
    alloc: Global,
    variant: Variant,
    module: &M,
    platform: &mut P,
    store: &mut T,
    input: &mut S,
    out: &mut K,
) -> Result<(), SessionFault>
    ensures sessions { IsSession variant (M.meaning «module».now)
        (session_standing (P.standing platform.old) (T.kept store.old) (S.left input.old)
        (K.received out.old))
        (session_standing (P.standing platform.new) (T.kept store.new) (S.left input.new)
        (K.received out.new)) result }
    ensures platform { IsBlamed (is_platform_fault result) (P.standing platform.old).faults
        (P.standing platform.new).faults }
    ensures store { IsBlamed (is_store_fault result) (T.kept store.old).faults
        (T.kept store.new).faults }
    ensures read { IsBlamed (is_read_fault result) (S.faults input.old) (S.faults input.new) }
    ensures wrote { IsBlamed (is_write_fault result) (K.faults out.old) (K.faults out.new) }
    ensures named { IsRefusalNamed result }
    ensures lines { SparesLines (S.left input.old) result }
    ensures continues { SessionContinues variant (M.meaning «module».now)
        (session_standing (P.standing platform.old) (T.kept store.old) (S.left input.old)
        (K.received out.old))
        (session_standing (P.standing platform.new) (T.kept store.new) (S.left input.new)
        (K.received out.new)) result }
    ensures once { SessionRunsOnce variant (M.meaning «module».now)
        (session_standing (P.standing platform.old) (T.kept store.old) (S.left input.old)
        (K.received out.old))
        (session_standing (P.standing platform.new) (T.kept store.new) (S.left input.new)
        (K.received out.new)) result }
    ensures writes { SessionWrites variant (M.meaning «module».now)
        (session_standing (P.standing platform.old) (T.kept store.old) (S.left input.old)
        (K.received out.old))
        (session_standing (P.standing platform.new) (T.kept store.new) (S.left input.new)
        (K.received out.new)) result }
{
    let caller = Caller {
        alloc,
        variant,
        module,
    };
    session_by_steps(&caller, platform, store, input, out)
}

// Recovers, and serves the lines.
fn session_by_steps<M: Module, P: Platform, T: Store, S: Source, K: Sink>(
    caller: &Caller<M>,
    platform: &mut P,
    store: &mut T,
    input: &mut S,
    out: &mut K,
) -> Result<(), SessionFault>
    ensures sessions { IsSession caller.now.variant (M.meaning caller.now.«module».now)
        (session_standing (P.standing platform.old) (T.kept store.old) (S.left input.old)
        (K.received out.old))
        (session_standing (P.standing platform.new) (T.kept store.new) (S.left input.new)
        (K.received out.new)) result }
    ensures read { IsBlamed (is_read_fault result) (S.faults input.old) (S.faults input.new) }
    ensures wrote { IsBlamed (is_write_fault result) (K.faults out.old) (K.faults out.new) }
{
    let reader = LineReader::new(caller.alloc)?;
    let begun = resume(caller.alloc, caller.variant, caller.module, platform, store);
    match tell(begun, out) {
        Err(fault) => Err(fault),
        Ok(first) => serve_lines(caller, platform, store, input, out, reader, first),
    }
}

// Serves each line of the input.
fn serve_lines<M: Module, P: Platform, T: Store, S: Source, K: Sink>(
    caller: &Caller<M>,
    platform: &mut P,
    store: &mut T,
    input: &mut S,
    out: &mut K,
    mut reader: LineReader,
    first: Resumed,
) -> Result<(), SessionFault>
    requires nothing { reader ≡ [] }
    requires sized { IsSized first }
    ensures serves { ServesInput caller.now.variant (M.meaning caller.now.«module».now) 1 first
        (session_standing (P.standing platform.old) (T.kept store.old) (S.left input.old)
        (K.received out.old))
        (session_standing (P.standing platform.new) (T.kept store.new) (S.left input.new)
        (K.received out.new)) [] result }
    ensures read { IsBlamed (is_read_fault result) (S.faults input.old) (S.faults input.new) }
    ensures wrote { IsBlamed (is_write_fault result) (K.faults out.old) (K.faults out.new) }
{
    let mut turn = SessionState {
        number: 1,
        last: first,
    };
    'lines: while let Some(next) = serve_next(
        caller,
        platform,
        store,
        input,
        out,
        &mut reader,
        &turn,
    )? {
        turn = SessionState {
            number: turn.number + 1,
            last: next,
        };
    }
    Ok(())
}

// Reads the line of this number and serves it. None where the input ends before it.
fn serve_next<M: Module, P: Platform, T: Store, S: Source, K: Sink>(
    caller: &Caller<M>,
    platform: &mut P,
    store: &mut T,
    input: &mut S,
    out: &mut K,
    reader: &mut LineReader,
    turn: &SessionState,
) -> Result<Option<Resumed>, SessionFault>
    requires number { turn.now.number ≤ most_lines + 1 }
    requires sized { IsSized turn.now.last }
    ensures turns { ServesNext caller.now.variant (M.meaning caller.now.«module».now)
        turn.now.number turn.now.last
        (session_standing (P.standing platform.old) (T.kept store.old) (S.left input.old)
        (K.received out.old))
        (session_standing (P.standing platform.new) (T.kept store.new) (S.left input.new)
        (K.received out.new)) reader.old reader.new result }
    ensures sized { IfOk result (λ next. IfSome next IsSized) }
    ensures read { IsBlamed (is_read_fault result) (S.faults input.old) (S.faults input.new) }
    ensures wrote { IsBlamed (is_write_fault result) (K.faults out.old) (K.faults out.new) }
{
    match reader.next(input, LONGEST_REQUEST) {
        Ok(Read::Line(line)) => serve_line(caller, platform, store, out, turn, line),
        Ok(Read::Tail) => Err(SessionFault::Lines(ReplayFault::BadLine { line: turn.number })),
        Ok(Read::End) => Ok(None),
        Err(LineFault::ReadFault) => Err(SessionFault::Lines(ReplayFault::ReadFault)),
        Err(LineFault::LineLong) => {
            Err(SessionFault::Lines(ReplayFault::LineLong { line: turn.number }))
        }
    }
}

// Serves the line of this number, unless it is one too many.
fn serve_line<M: Module, P: Platform, T: Store, K: Sink>(
    caller: &Caller<M>,
    platform: &mut P,
    store: &mut T,
    out: &mut K,
    turn: &SessionState,
    line: &[u8],
) -> Result<Option<Resumed>, SessionFault>
    requires sized { IsSized turn.now.last }
    requires line { IsLineFront longest_request line.now }
    ensures turns { (left : Option (List ℕ)) (bytes held : List ℕ) →
        turn.now.number ≤ most_lines + 1 → BytesBeginWith bytes line.now held →
        TurnSends caller.now.variant (M.meaning caller.now.«module».now) turn.now.number (record {
          host = host_standing (P.standing platform.old) (T.kept store.old);
          last = turn.now.last;
        })
        (host_standing (P.standing platform.new) (T.kept store.new)) left bytes held
        (K.received out.old) (K.received out.new) result }
    ensures sized { IfOk result (λ next. IfSome next IsSized) }
    ensures unread { is_read_fault result ≡ false }
    ensures wrote { IsBlamed (is_write_fault result) (K.faults out.old) (K.faults out.new) }
{
    if turn.number > MOST_LINES {
        return Err(SessionFault::Lines(ReplayFault::TooMuch));
    }
    match ask_and_tell(caller, platform, store, out, &turn.last, line) {
        Ok(next) => Ok(Some(next)),
        Err(fault) => Err(fault),
    }
}

// Asks a line, and tells what came.
fn ask_and_tell<M: Module, P: Platform, T: Store, K: Sink>(
    caller: &Caller<M>,
    platform: &mut P,
    store: &mut T,
    out: &mut K,
    last: &Resumed,
    line: &[u8],
) -> Result<Resumed, SessionFault>
    requires sized { IsSized last.now }
    requires line { IsLineFront longest_request line.now }
    ensures asks { AsksAndTells caller.now.variant (M.meaning caller.now.«module».now)
        (record {
          host = host_standing (P.standing platform.old) (T.kept store.old);
          last = last.now;
        })
        (host_standing (P.standing platform.new) (T.kept store.new)) (K.received out.old)
        (K.received out.new) line.now result }
    ensures sized { IfOk result IsSized }
    ensures wrote { IsBlamed (is_write_fault result) (K.faults out.old) (K.faults out.new) }
{
    let came = ask_next(caller, platform, store, last, line);
    tell(came, out)
}
