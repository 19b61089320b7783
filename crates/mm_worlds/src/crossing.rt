//! A caller: a module of Basic that crosses from one platform to another, with a session on either
//! side.

ghost use Rattle.mm_worlds.specs.Journey.{CrossesOrStops, both_sites, site_standing};

use crate::laws::world_is_one_or_evidence;
use mm_base::{Sink, Source};
use mm_digest::Variant;
use mm_host::{SessionFault, session};
use mm_module::Module;
use mm_move::{Accepted, Invited, Link, MoveRefusal, accept, invite, retire};
use mm_platform::Platform;
use mm_store::Store;
use std::alloc::Global;

/// What came of a crossing in which a ticket was given.
#[derive(Drop)]
pub struct Crossing {
    pub first: Result<(), SessionFault>,
    pub invited: Result<Invited, MoveRefusal>,
    pub accepted: Result<Accepted, MoveRefusal>,
    pub second: Result<(), SessionFault>,
}

/// A session on the first platform; the second one is invited; the first one is retired with this
/// offer, and unless that is refused, which is answered, its ticket is accepted on the second, and
/// a session is held there, over whatever is in its slots.
pub fn cross_over<
    M: Module,
    P: Platform,
    Q: Platform,
    T: Store,
    U: Store,
    S: Source,
    R: Source,
    K: Sink,
    L: Sink,
>(
    alloc: Global,
    module: &M,
    link: &Link,
    nonce: &[u8; 32],
    key: &[u8; 32],
    offer: &[u8],
    first: &mut P,
    first_store: &mut T,
    first_input: &mut S,
    first_out: &mut K,
    second: &mut Q,
    second_store: &mut U,
    second_input: &mut R,
    second_out: &mut L,
) -> Result<Crossing, MoveRefusal>
    ensures { CrossesOrStops (M.meaning «module».now) link.now nonce.now key.now offer.now
        (both_sites
        (site_standing (P.standing first.old) (T.kept first_store.old) (S.left first_input.old)
        (K.received first_out.old))
        (site_standing (Q.standing second.old) (U.kept second_store.old) (R.left second_input.old)
        (L.received second_out.old)))
        (both_sites
        (site_standing (P.standing first.new) (T.kept first_store.new) (S.left first_input.new)
        (K.received first_out.new))
        (site_standing (Q.standing second.new) (U.kept second_store.new) (R.left second_input.new)
        (L.received second_out.new))) result }
{
    // A law, which does nothing: the clause rests on its contract.
    world_is_one_or_evidence();
    let served = session(
        alloc,
        Variant::Basic,
        module,
        first,
        first_store,
        first_input,
        first_out,
    );
    let invited = invite(second, link, Variant::Basic, module.id(), nonce, key);
    match retire(alloc, module, Variant::Basic, first, link, nonce, offer) {
        Err(refusal) => Err(refusal),
        Ok(ticket) => {
            let accepted = accept(
                alloc,
                module,
                Variant::Basic,
                second,
                link,
                ticket.as_slice(),
            );
            let again = session(
                alloc,
                Variant::Basic,
                module,
                second,
                second_store,
                second_input,
                second_out,
            );
            Ok(Crossing {
                first: served,
                invited,
                accepted,
                second: again,
            })
        }
    }
}
