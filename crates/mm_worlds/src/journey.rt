//! A caller: a module of Basic that goes from a first platform to a second, on to a third, and
//! back to the first, with a call on each.

ghost use Rattle.std.specs.Prelude.{◌≡◌};
ghost use Rattle.mm_worlds.specs.Journey.{GoesOn, TravelsRound, accepted_snapshot, answered_snapshot, both_ends, errand, pass_of, ticket_given, three_sites};

use crate::laws::world_is_one_or_evidence;
use mm_basic::ask;
use mm_bytes::Bytes;
use mm_digest::Variant;
use mm_life::batch_calls_are_deeds;
use mm_model::{Answer, Refusal};
use mm_module::Module;
use mm_move::{Accepted, Invited, Link, MoveRefusal, accept, invite, retire};
use mm_platform::Platform;
use std::alloc::Global;

/// What a platform is invited under.
#[derive(Clone, Copy)]
pub struct Pass {
    pub nonce: [u8; 32],
    pub key: [u8; 32],
}

/// What came of a leg: of the invitation ahead, the retirement behind, the acceptance, and the call
/// that was made there.
#[derive(Drop)]
pub struct Leg {
    pub invited: Result<Invited, MoveRefusal>,
    pub left: Result<Bytes, MoveRefusal>,
    pub arrived: Result<Accepted, MoveRefusal>,
    pub asked: Result<Answer, Refusal>,
}

/// What came of a journey: of the call on the first platform, and of its three legs.
#[derive(Drop)]
pub struct Journey {
    pub asked: Result<Answer, Refusal>,
    pub out: Leg,
    pub across: Leg,
    pub home: Leg,
}

// The snapshot that came back.
fn answered(asked: &Result<Answer, Refusal>) -> &[u8]
    ensures { result.now ≡ answered_snapshot asked.now }
{
    match asked {
        Ok(answer) => answer.snapshot.as_slice(),
        Err(_) => &[],
    }
}

fn accepted(arrived: &Result<Accepted, MoveRefusal>) -> &[u8]
    ensures { result.now ≡ accepted_snapshot arrived.now }
{
    match arrived {
        Ok(there) => there.snapshot.as_slice(),
        Err(_) => &[],
    }
}

// The ticket that came back.
fn given(left: &Result<Bytes, MoveRefusal>) -> &[u8]
    ensures { result.now ≡ ticket_given left.now }
{
    match left {
        Ok(ticket) => ticket.as_slice(),
        Err(_) => &[],
    }
}

/// One leg: the platform ahead is invited, the one behind is retired with this offer, its ticket is
/// accepted ahead, and a request is asked there. After a refusal nothing is offered, so that what
/// follows is refused too.
pub fn go_on<M: Module, P: Platform, Q: Platform>(
    alloc: Global,
    module: &M,
    link: &Link,
    nonce: &[u8; 32],
    key: &[u8; 32],
    behind: &mut P,
    ahead: &mut Q,
    offer: &[u8],
    request: &[u8],
) -> Leg
    ensures { GoesOn (M.meaning «module».now) link.now (pass_of nonce.now key.now) offer.now
        request.now
        (both_ends (P.standing behind.old) (Q.standing ahead.old))
        (both_ends (P.standing behind.new) (Q.standing ahead.new)) result }
{
    // A law, which does nothing: the clause rests on its contract.
    batch_calls_are_deeds();
    let invited = invite(ahead, link, Variant::Basic, module.id(), nonce, key);
    let left = retire(alloc, module, Variant::Basic, behind, link, nonce, offer);
    let arrived = accept(alloc, module, Variant::Basic, ahead, link, given(&left));
    let asked = ask(alloc, module, ahead, accepted(&arrived), request);
    Leg {
        invited,
        left,
        arrived,
        asked,
    }
}

/// A request is asked on the first platform; the module goes on to the second, where it is asked
/// again, to the third, and back to the first.
pub fn travel_round<M: Module, P: Platform, Q: Platform, R: Platform>(
    alloc: Global,
    module: &M,
    link: &Link,
    out: &Pass,
    across: &Pass,
    home: &Pass,
    first: &mut P,
    second: &mut Q,
    third: &mut R,
    offer: &[u8],
    request: &[u8],
) -> Journey
    ensures { TravelsRound (M.meaning «module».now) link.now
        (errand out.now across.now home.now request.now) offer.now
        (three_sites (P.standing first.old) (Q.standing second.old) (R.standing third.old))
        (three_sites (P.standing first.new) (Q.standing second.new) (R.standing third.new)) result }
{
    // Laws, which do nothing: the clause rests on their contracts.
    world_is_one_or_evidence();
    batch_calls_are_deeds();
    let asked = ask(alloc, module, first, offer, request);
    let by_out = go_on(
        alloc,
        module,
        link,
        &out.nonce,
        &out.key,
        first,
        second,
        answered(&asked),
        request,
    );
    let by_across = go_on(
        alloc,
        module,
        link,
        &across.nonce,
        &across.key,
        second,
        third,
        answered(&by_out.asked),
        request,
    );
    let by_home = go_on(
        alloc,
        module,
        link,
        &home.nonce,
        &home.key,
        third,
        first,
        answered(&by_across.asked),
        request,
    );
    Journey {
        asked,
        out: by_out,
        across: by_across,
        home: by_home,
    }
}
