//! Setting a blank platform and a store up.

ghost use Rattle.std.specs.Prelude.{◌≡◌, ◌<◌, ◌≤◌, ◌+◌, length, take, drop, IfOk};
ghost use Rattle.std.specs.Io.KnownBytes.{ReadConsumes};
ghost use Rattle.mm_bytes.specs.Limits.{CountsFaults};
ghost use Rattle.mm_seal.specs.Cell.{cell_spelling};
ghost use Rattle.mm_model.specs.History.{first_history};
ghost use Rattle.mm_model.specs.Standing.{cell_of, issued_bytes};
ghost use Rattle.mm_store.specs.declared.store.TheConstants.{LONGEST_SLOT};
ghost use Rattle.mm_recovery.specs.FirstStart.{InitLeaves, TellsUse, BlamesDevice, devices, LooksAtCell, TakesBytes, taken_bytes};
ghost use Rattle.mm_recovery.specs.FirstStart.{instance_from, PutsAll, first_puts, SetsUp, SetsUpBoth, TakesAndSetsUp, InitGoes};
ghost use Rattle.mm_recovery.specs.HostStanding.{host_standing};

use crate::init_fault::InitFault;
use mm_ask::{Caller, Secrets};
use mm_base::Source;
use mm_bytes::{CELL_LENGTH, Failed, Memory};
use mm_call::Provisioned;
use mm_digest::Variant;
use mm_module::Module;
use mm_platform::{Platform, StepFault};
use mm_store::{Store, StoreFault};
use std::alloc::Global;

/// Sets a platform whose cell is blank, and a store, up for a module.
///
/// It reads the cell. It takes 64 bytes from `entropy`: the key of 32 bytes, and then the barrier
/// of 32 bytes, which Basic ignores. It writes slots 1, 2 and 3 of the store empty, and slot 0 with
/// the first snapshot. Last, it writes the cell: after a stop before that step the cell is blank,
/// and it may be called again.
pub fn init<M: Module, P: Platform, T: Store, E: Source>(
    alloc: Global,
    variant: Variant,
    module: &M,
    platform: &mut P,
    store: &mut T,
    entropy: &mut E,
) -> Result<(), InitFault>
    ensures steps { InitGoes variant (M.meaning «module».now)
        (devices (P.standing platform.old) (T.kept store.old) (E.left entropy.old)
        (E.faults entropy.old))
        (devices (P.standing platform.new) (T.kept store.new) (E.left entropy.new)
        (E.faults entropy.new)) result }
    ensures leaves { InitLeaves variant (M.meaning «module».now)
        (devices (P.standing platform.old) (T.kept store.old) (E.left entropy.old)
        (E.faults entropy.old))
        (devices (P.standing platform.new) (T.kept store.new) (E.left entropy.new)
        (E.faults entropy.new)) result }
    ensures tells { TellsUse (devices (P.standing platform.old) (T.kept store.old)
        (E.left entropy.old) (E.faults entropy.old)) result }
    ensures faults { BlamesDevice (devices (P.standing platform.old) (T.kept store.old)
        (E.left entropy.old) (E.faults entropy.old))
        (devices (P.standing platform.new) (T.kept store.new) (E.left entropy.new)
        (E.faults entropy.new)) result }
{
    let caller = Caller {
        alloc,
        variant,
        module,
    };
    init_by_steps(&caller, platform, store, entropy)
}

// Reads the cell, and goes on where it is blank.
fn init_by_steps<M: Module, P: Platform, T: Store, E: Source>(
    caller: &Caller<M>,
    platform: &mut P,
    store: &mut T,
    entropy: &mut E,
) -> Result<(), InitFault>
    ensures { InitGoes caller.now.variant (M.meaning caller.now.«module».now)
        (devices (P.standing platform.old) (T.kept store.old) (E.left entropy.old)
        (E.faults entropy.old))
        (devices (P.standing platform.new) (T.kept store.new) (E.left entropy.new)
        (E.faults entropy.new)) result }
{
    match is_blank(platform) {
        Err(fault) => Err(InitFault::from(fault)),
        Ok(false) => Err(InitFault::Already),
        Ok(true) => take_and_set_up(caller, platform, store, entropy),
    }
}

// Whether the cell is blank.
#[tactic(auto, unfolding(mm_seal::specs::Cell::blank_cell))]
fn is_blank<P: Platform>(platform: &mut P) -> Result<bool, StepFault>
    ensures { LooksAtCell (P.standing platform.old) (P.standing platform.new) result }
{
    let mut cell = [0; CELL_LENGTH];
    platform.nv_read(&mut cell)?;
    Ok(cell == [0; CELL_LENGTH])
}

// Takes the bytes, and sets both up.
fn take_and_set_up<M: Module, P: Platform, T: Store, E: Source>(
    caller: &Caller<M>,
    platform: &mut P,
    store: &mut T,
    entropy: &mut E,
) -> Result<(), InitFault>
    ensures { TakesAndSetsUp caller.now.variant (M.meaning caller.now.«module».now)
        (devices (P.standing platform.old) (T.kept store.old) (E.left entropy.old)
        (E.faults entropy.old))
        (devices (P.standing platform.new) (T.kept store.new) (E.left entropy.new)
        (E.faults entropy.new))
        result }
{
    let mut secrets = [0; 64];
    match take_bytes(entropy, &mut secrets) {
        Err(fault) => Err(InitFault::from(fault)),
        Ok(got) if got < 64 => Err(InitFault::Short { got: got as u8 }),
        Ok(_) => set_up(caller, platform, store, &secrets),
    }
}

// Takes bytes until there are 64 or the input ends, and answers how many.
fn take_bytes<E: Source>(entropy: &mut E, into: &mut [u8; 64]) -> Result<usize, Failed>
    ensures takes { TakesBytes (E.left entropy.old) (E.left entropy.new) (E.faults entropy.old)
        (E.faults entropy.new) (taken_bytes into.new result) }
    ensures most { IfOk result (λ got. got ≤ 64) }
{
    let mut got = 0;
    'takes: while got < 64 {
        let count = take_behind(entropy, into, got)?;
        if count == 0 {
            return Ok(got);
        }
        got += count;
    }
    Ok(got)
}

// Takes bytes behind the first `at`, and answers how many.
fn take_behind<E: Source>(entropy: &mut E, into: &mut [u8; 64], at: usize) -> Result<usize, Failed>
    requires { at < 64 }
    ensures front { take at into.new ≡ take at into.old }
    ensures within { IfOk result (λ count. at + count ≤ 64) }
    ensures taken { ReadConsumes (E.left entropy.old) (E.left entropy.new) result
        (drop at into.new) }
    ensures counted { CountsFaults (E.faults entropy.old) (E.faults entropy.new) result }
{
    let (_, free) = into.split_at_mut(at);
    entropy.take(free)
}

// Sets both up for the instance of these bytes.
fn set_up<M: Module, P: Platform, T: Store>(
    caller: &Caller<M>,
    platform: &mut P,
    store: &mut T,
    secrets: &[u8; 64],
) -> Result<(), InitFault>
    ensures { SetsUp (instance_from caller.now.variant (M.meaning caller.now.«module».now)
        secrets.now)
        (host_standing (P.standing platform.old) (T.kept store.old))
        (host_standing (P.standing platform.new) (T.kept store.new))
        result }
{
    match provision(caller, secrets) {
        Err(fault) => Err(InitFault::from(fault)),
        Ok(made) => set_up_both(platform, store, &made),
    }
}

// The first cell and snapshot of the instance of these bytes.
fn provision<M: Module>(caller: &Caller<M>, secrets: &[u8; 64]) -> Result<Provisioned, Memory>
    ensures cell { IfOk result (λ made. made.cell
        ≡ cell_spelling
        (cell_of (instance_from caller.now.variant (M.meaning caller.now.«module».now)
        secrets.now) first_history)) }
    ensures snapshot { IfOk result (λ made. made.snapshot
        ≡ issued_bytes (instance_from caller.now.variant (M.meaning caller.now.«module».now)
        secrets.now) first_history) }
{
    let (mut key, mut barrier) = ([0; 32], [0; 32]);
    let (front, back) = secrets.split_at(32);
    key.copy_from_slice(front);
    barrier.copy_from_slice(back);
    let secrets = Secrets { key, barrier };
    mm_ask::provision(caller.alloc, caller.variant, caller.module, &secrets)
}

// Sets the store up, and then writes the cell.
fn set_up_both<P: Platform, T: Store>(
    platform: &mut P,
    store: &mut T,
    made: &Provisioned,
) -> Result<(), InitFault>
    requires { length made.now.snapshot ≤ LONGEST_SLOT }
    ensures { SetsUpBoth made.now.cell made.now.snapshot
        (host_standing (P.standing platform.old) (T.kept store.old))
        (host_standing (P.standing platform.new) (T.kept store.new)) result }
{
    match set_up_store(store, made.snapshot.as_slice()) {
        Err(fault) => Err(InitFault::from(fault)),
        Ok(()) => match platform.nv_write(&made.cell) {
            Err(fault) => Err(InitFault::from(fault)),
            Ok(()) => Ok(()),
        },
    }
}

// Writes three slots empty, and then the first one.
fn set_up_store<T: Store>(store: &mut T, snapshot: &[u8]) -> Result<(), StoreFault>
    requires { length snapshot.now ≤ LONGEST_SLOT }
    ensures { PutsAll (first_puts snapshot.now) (T.kept store.old) (T.kept store.new) result }
{
    store.write(1, &[])?;
    store.write(2, &[])?;
    store.write(3, &[])?;
    store.write(0, snapshot)
}
