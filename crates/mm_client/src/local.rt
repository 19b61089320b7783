//! A program over a platform and a store of its own, as a client meets it: over a connection that
//! may be lost at any byte, on its way there or back.

ghost use Rattle.std.specs.Prelude.{◌≡◌, ◌++◌, ℕ, List, IfOk, take};
ghost use Rattle.mm_base.specs.Input.{joined_lines};
ghost use Rattle.mm_client.specs.ClientLife.{Hearing};
ghost use Rattle.mm_host.specs.Continuation.{is_write_fault};
ghost use Rattle.mm_client.specs.LocalLife.{HearsOutput, HoldsSession, ServesLocalClient, local_standing};
ghost use Rattle.mm_recovery.specs.HostStanding.{host_standing};
ghost use Rattle.mm_recovery.specs.FirstStart.{devices};

use crate::laws::{basic_clients_are_served_once, opt_clients_are_served_once};
use crate::output::replies_in;
use crate::remembering::{Client, HeardSession};
use crate::serving::{Service, live_as_client};
use mm_base::{MemSink, MemSource, ReplayFault, Source};
use mm_bytes::{Bytes, Memory};
use mm_digest::Variant;
use mm_host::{InitFault, SessionFault, init, session};
use mm_module::Module;
use mm_platform::Platform;
use mm_store::Store;
use std::alloc::Global;

/// The most bytes of a line that a session writes, its LF too.
const LINE_ROOM: usize = 4200;

/// What a connection lets through: so many of the first bytes that a client gives, and so many of
/// the first that are sent to him.
#[derive(Clone, Copy, PartialEq, Eq)]
pub struct Carried {
    pub given: usize,
    pub heard: usize,
}

/// A connection. Nothing is asked of it.
pub trait Connection {
    fn carry(&mut self) -> Carried;
}

/// A program, the platform and the store that each of its sessions goes on with, and the
/// connection to it.
#[derive(Drop)]
pub struct LocalProgram<M, P, T, C> {
    pub alloc: Global,
    pub variant: Variant,
    pub module: M,
    pub platform: P,
    pub store: T,
    pub connection: C,
}

impl<M: Module, P: Platform, T: Store, C: Connection> Service for LocalProgram<M, P, T, C> {
    ghost holds = { λ old new lines heard. HoldsSession
        (local_standing old.variant (M.meaning old.«module») (P.standing old.platform)
        (T.kept old.store))
        (local_standing new.variant (M.meaning new.«module») (P.standing new.platform)
        (T.kept new.store)) lines heard };

    fn hold(&mut self, lines: &[Bytes]) -> Result<HeardSession, Memory> {
        let carried = self.connection.carry();
        let text = joined(self.alloc, lines)?;
        let given = first_bytes(text.as_slice(), carried.given);
        let mut input = MemSource::new(self.alloc, given, &[])?;
        let room = lines.len().saturating_add(1).saturating_mul(LINE_ROOM);
        let mut out = MemSink::new(self.alloc, room, &[])?;
        let ended = session(
            self.alloc,
            self.variant,
            &self.module,
            &mut self.platform,
            &mut self.store,
            &mut input,
            &mut out,
        );
        Ok(hearing_of(self.alloc, ended, out.content(), carried.heard))
    }
}

/// Why a client wasn't served by a program of his.
#[derive(Clone, Copy, PartialEq, Eq)]
pub enum LocalFault {
    /// The first start failed.
    Starting(InitFault),
    /// Memory was wanting for his lines, or for what he remembers.
    Memory,
}

/// A first start of the program's instance; and then so many sessions of it, for a client who wants
/// these lines and lives by the rule.
pub fn serve_local_client<M: Module, P: Platform, T: Store, C: Connection, E: Source>(
    program: &mut LocalProgram<M, P, T, C>,
    entropy: &mut E,
    wanted: &[Bytes],
    rounds: u32,
) -> Result<Client, LocalFault>
    ensures { IfOk result (λ client. ServesLocalClient program.old.variant
        (M.meaning program.old.«module»)
        (devices (P.standing program.old.platform) (T.kept program.old.store) (E.left entropy.old)
        (E.faults entropy.old))
        (host_standing (P.standing program.new.platform) (T.kept program.new.store)) wanted.now
        rounds client) }
{
    // Laws, which do nothing: the clause rests on their contracts.
    basic_clients_are_served_once();
    opt_clients_are_served_once();
    let started = init(
        program.alloc,
        program.variant,
        &program.module,
        &mut program.platform,
        &mut program.store,
        entropy,
    );
    match started {
        Err(fault) => Err(LocalFault::Starting(fault)),
        Ok(()) => match live_as_client(program.alloc, 0, wanted, rounds, program) {
            Err(_) => Err(LocalFault::Memory),
            Ok(client) => Ok(client),
        },
    }
}

// The lines, each with its LF.
fn joined(alloc: Global, lines: &[Bytes]) -> Result<Bytes, Memory>
    ensures { IfOk result (λ text. text ≡ joined_lines lines.now) }
{
    let mut text = Bytes::new(alloc);
    for line in lines {
        text.append(line.as_slice())?;
        text.push(b'\n')?;
    }
    Ok(text)
}

// So many of the first bytes, or all.
fn first_bytes(bytes: &[u8], count: usize) -> &[u8]
    ensures { result.now ≡ take count bytes.now }
{
    &bytes[..count.min(bytes.len())]
}

// What is heard of a session that ended so, where so many bytes of its output come through. Where
// the output failed, or memory is wanting, nothing is.
fn hearing_of(
    alloc: Global,
    ended: Result<(), SessionFault>,
    output: &[u8],
    count: usize,
) -> HeardSession
    ensures { HearsOutput output.now ended result }
{
    if is_cut(ended) {
        return HeardSession::new(Vec::new(alloc), false);
    }
    let heard = first_bytes(output, count);
    match replies_in(alloc, heard) {
        Err(_) => HeardSession::new(Vec::new(alloc), false),
        Ok(replies) => HeardSession::new(replies, ended.is_ok() && heard.len() == output.len()),
    }
}

// The output failed.
fn is_cut(ended: Result<(), SessionFault>) -> bool
    ensures { result ≡ is_write_fault ended }
{
    matches!(ended, Err(SessionFault::Lines(ReplayFault::WriteFault)))
}
