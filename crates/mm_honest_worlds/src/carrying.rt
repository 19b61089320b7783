//! A caller: a module that is carried from one platform to another, over an honest store on each,
//! with a session on either side.

ghost use Rattle.mm_base.specs.Input.{IsLineFront};
ghost use Rattle.mm_bytes.specs.Limits.{longest_request};
ghost use Rattle.mm_recovery.specs.HostStanding.{host_standing};
ghost use Rattle.mm_worlds.specs.Journey.{both_sites, pass_of, site_standing};
ghost use Rattle.mm_honest_worlds.specs.Carrying.{ArrivalGoes, CarriesOrStops, CheckpointGoes, KeepingGoes};

use crate::arrival::{empty_records, put_arrival};
use crate::laws::{opt_world_goes_on_or_evidence, world_goes_on_or_evidence};
use mm_base::{Sink, Source};
use mm_bytes::{Bytes, LAST_POSITION};
use mm_digest::Variant;
use mm_host::{SessionFault, session};
use mm_module::Module;
use mm_move::{Accepted, Invited, Link, MoveRefusal, accept, invite, retire};
use mm_opt::{CheckpointRefusal, Checkpointed, checkpoint};
use mm_platform::Platform;
use mm_store::{LONGEST_SLOT, Store, StoreFault};
use std::alloc::Global;
use thiserror::Error;

/// What came of it, where the module arrived and its store was written.
#[derive(Drop)]
pub struct Carried {
    pub first: Result<(), SessionFault>,
    /// In Opt alone.
    pub closed: Option<Result<Checkpointed, CheckpointRefusal>>,
    pub invited: Result<Invited, MoveRefusal>,
    pub accepted: Accepted,
    pub second: Result<(), SessionFault>,
}

/// Why the module wasn't carried to the second session.
#[derive(Clone, Copy, Debug, Error)]
pub enum CarryingFault {
    /// The retirement or the acceptance was refused.
    #[error(transparent)]
    Moving(MoveRefusal),
    /// The second store failed, or memory was wanting to write there.
    #[error(transparent)]
    Keeping(StoreFault),
    /// No position is left for a request, or the snapshot is longer than a slot.
    #[error("no position is left, or the snapshot is longer than a slot")]
    NoRoom,
}

/// A session on the first platform, behind which in Opt a checkpoint closes the segment; the second
/// one is invited; the first one is retired with this offer, and the ticket is accepted on the
/// second. Before that its store's records are emptied; behind it the acceptance's snapshot and the
/// record of this request are written, the first line that the session there tells. A session, a
/// checkpoint or an invitation that fails stops nothing.
pub fn carry_over<
    M: Module,
    P: Platform,
    Q: Platform,
    T: Store,
    U: Store,
    S: Source,
    R: Source,
    K: Sink,
    L: Sink,
>(
    alloc: Global,
    variant: Variant,
    module: &M,
    link: &Link,
    nonce: &[u8; 32],
    key: &[u8; 32],
    offer: &[u8],
    request: &[u8],
    first: &mut P,
    first_store: &mut T,
    first_input: &mut S,
    first_out: &mut K,
    second: &mut Q,
    second_store: &mut U,
    second_input: &mut R,
    second_out: &mut L,
) -> Result<Carried, CarryingFault>
    requires line { IsLineFront longest_request request.now }
    ensures { CarriesOrStops variant (M.meaning «module».now) link.now (pass_of nonce.now key.now)
        offer.now request.now
        (both_sites
        (site_standing (P.standing first.old) (T.kept first_store.old) (S.left first_input.old)
        (K.received first_out.old))
        (site_standing (Q.standing second.old) (U.kept second_store.old) (R.left second_input.old)
        (L.received second_out.old)))
        (both_sites
        (site_standing (P.standing first.new) (T.kept first_store.new) (S.left first_input.new)
        (K.received first_out.new))
        (site_standing (Q.standing second.new) (U.kept second_store.new) (R.left second_input.new)
        (L.received second_out.new))) result }
{
    // Laws, which do nothing: the clause rests on their contracts.
    world_goes_on_or_evidence();
    opt_world_goes_on_or_evidence();
    let served = session(
        alloc,
        variant,
        module,
        first,
        first_store,
        first_input,
        first_out,
    );
    let closed = checkpoint_of(variant, first);
    let invited = invite(second, link, variant, module.id(), nonce, key);
    let given = retire(alloc, module, variant, first, link, nonce, offer);
    match arrive(
        alloc,
        variant,
        module,
        link,
        given,
        request,
        second,
        second_store,
    ) {
        Err(fault) => Err(fault),
        Ok(accepted) => {
            let again = session(
                alloc,
                variant,
                module,
                second,
                second_store,
                second_input,
                second_out,
            );
            Ok(Carried {
                first: served,
                closed,
                invited,
                accepted,
                second: again,
            })
        }
    }
}

// The checkpoint of Opt; in Basic none is made.
fn checkpoint_of<P: Platform>(
    variant: Variant,
    platform: &mut P,
) -> Option<Result<Checkpointed, CheckpointRefusal>>
    ensures { CheckpointGoes variant (P.standing platform.old) (P.standing platform.new) result }
{
    match variant {
        Variant::Basic => None,
        Variant::Opt => Some(checkpoint(platform)),
    }
}

// What comes of a ticket, where one was given: the store's records are emptied, it is accepted on
// the platform, and what belongs to the acceptance is put into the store.
fn arrive<M: Module, P: Platform, T: Store>(
    alloc: Global,
    variant: Variant,
    module: &M,
    link: &Link,
    given: Result<Bytes, MoveRefusal>,
    request: &[u8],
    platform: &mut P,
    store: &mut T,
) -> Result<Accepted, CarryingFault>
    requires line { IsLineFront longest_request request.now }
    ensures { ArrivalGoes variant (M.meaning «module».now) link.now request.now given
        (host_standing (P.standing platform.old) (T.kept store.old))
        (host_standing (P.standing platform.new) (T.kept store.new)) result }
{
    match given {
        Err(refusal) => Err(CarryingFault::Moving(refusal)),
        Ok(ticket) => match empty_records(store) {
            Err(fault) => Err(CarryingFault::Keeping(fault)),
            Ok(()) => match accept(alloc, module, variant, platform, link, ticket.as_slice()) {
                Err(refusal) => Err(CarryingFault::Moving(refusal)),
                Ok(accepted) => keep_arrival(alloc, store, accepted, request),
            },
        },
    }
}

// Puts what belongs to the acceptance, where there is room for it.
fn keep_arrival<T: Store>(
    alloc: Global,
    store: &mut T,
    accepted: Accepted,
    request: &[u8],
) -> Result<Accepted, CarryingFault>
    requires line { IsLineFront longest_request request.now }
    ensures { KeepingGoes accepted request.now (T.kept store.old) (T.kept store.new) result }
{
    if accepted.position >= LAST_POSITION || accepted.snapshot.as_slice().len() > LONGEST_SLOT {
        return Err(CarryingFault::NoRoom);
    }
    match put_arrival(alloc, store, &accepted, request) {
        Err(fault) => Err(CarryingFault::Keeping(fault)),
        Ok(()) => Ok(accepted),
    }
}
