//! The command `run`: the lines of the input are served by the instance that the platform's cell
//! holds.

ghost use Rattle.std.specs.Prelude.{ℕ, List, Option};
ghost use Rattle.mm_host_commands.specs.Outside.{outside};
ghost use Rattle.mm_host_commands.specs.Run.{LooksAtInstance, RunsInstance, SeesInstance, ServesAndStops};

use crate::session_status::of_session;
use mm_base::{Sink, Source};
use mm_bytes::CELL_LENGTH;
use mm_host::session;
use mm_modules::by_id;
use mm_platform::Platform;
use mm_schedule::Header;
use mm_seal::{CellFault, read_cell};
use mm_status::{Status, stopped};
use mm_store::Store;
use std::alloc::Global;

/// Serves the lines of the input by the instance that the platform's cell holds.
pub fn run_instance<P: Platform, T: Store, S: Source, K: Sink>(
    alloc: Global,
    platform: &mut P,
    store: &mut T,
    input: &mut S,
    out: &mut K,
) -> Status
    // Whatever the entropy tells, which isn't taken from (`entropy`, `takes`).
    ensures { (entropy : Option (List ℕ)) (takes : ℕ) → RunsInstance
        (outside (P.standing platform.old) (T.kept store.old) (S.left input.old)
        (S.faults input.old) entropy takes (K.received out.old) (K.faults out.old))
        (outside (P.standing platform.new) (T.kept store.new) (S.left input.new)
        (S.faults input.new) entropy takes (K.received out.new) (K.faults out.new)) result }
{
    match look(platform) {
        Err(status) => stopped(status, out),
        Ok(header) => serve_and_stop(alloc, &header, platform, store, input, out),
    }
}

// Reads the cell, and finds what it holds.
fn look<P: Platform>(platform: &mut P) -> Result<Header, Status>
    ensures { LooksAtInstance (P.standing platform.old) (P.standing platform.new) result }
{
    let mut bytes = [0; CELL_LENGTH];
    match platform.nv_read(&mut bytes) {
        Err(_) => Err(Status::PlatformFault),
        Ok(()) => instance_in(&bytes),
    }
}

// What these bytes of a cell hold: a variant and a module.
fn instance_in(bytes: &[u8; CELL_LENGTH]) -> Result<Header, Status>
    ensures { SeesInstance bytes.now result }
{
    match read_cell(bytes) {
        Err(CellFault::Blank) => Err(Status::Blank),
        Err(CellFault::Cell) => Err(Status::Cell),
        Ok(cell) => match by_id(cell.module) {
            None => Err(Status::Cell),
            Some(module) => Ok(Header {
                variant: cell.variant,
                module,
            }),
        },
    }
}

// Serves the lines, and writes the stop line.
fn serve_and_stop<P: Platform, T: Store, S: Source, K: Sink>(
    alloc: Global,
    header: &Header,
    platform: &mut P,
    store: &mut T,
    input: &mut S,
    out: &mut K,
) -> Status
    ensures { (entropy : Option (List ℕ)) (takes : ℕ) → ServesAndStops header.now
        (outside (P.standing platform.old) (T.kept store.old) (S.left input.old)
        (S.faults input.old) entropy takes (K.received out.old) (K.faults out.old))
        (outside (P.standing platform.new) (T.kept store.new) (S.left input.new)
        (S.faults input.new) entropy takes (K.received out.new) (K.faults out.new)) result }
{
    let answer = session(
        alloc,
        header.variant,
        &header.module,
        platform,
        store,
        input,
        out,
    );
    stopped(of_session(answer), out)
}
