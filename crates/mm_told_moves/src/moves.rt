//! The three moves, whose device steps a host makes.

ghost use Rattle.mm_told.specs.CallPath.{Host, IsHostOf};
ghost use Rattle.mm_told_moves.specs.ToldMovePromise.{IsSnapshotWithin, IsTicketWithin, ToldMovePromise, acceptance_finds, invitation_finds, retirement_finds};

use crate::finding::{FoundMove, HostMove, found};
use crate::following::follow;
use mm_bytes::{Bytes, CELL_LENGTH};
use mm_digest::Variant;
use mm_module::Module;
use mm_move::{Accepted, Invited, Link, MoveRefusal};
use mm_platform::MemPlatform;
use mm_told::{MadeStep, StepsOutcome};
use std::alloc::Global;

/// An invitation to a platform.
#[derive(Drop)]
pub struct Invitation<'a> {
    alloc: Global,
    variant: Variant,
    module: u8,
    link: &'a Link,
    nonce: &'a [u8; 32],
    key: &'a [u8; 32],
}

/// A module that leaves its platform.
#[derive(Drop)]
pub struct Retirement<'a, M> {
    alloc: Global,
    module: &'a M,
    variant: Variant,
    link: &'a Link,
    nonce: &'a [u8; 32],
    offer: &'a [u8],
}

/// A module that comes to a platform.
#[derive(Drop)]
pub struct Acceptance<'a, M> {
    alloc: Global,
    module: &'a M,
    variant: Variant,
    link: &'a Link,
    ticket: &'a [u8],
}

impl HostMove for Invitation<'_> {
    ghost use Rattle.mm_told_moves.specs.ToldMovePromise.{invitation_finds};

    type Answer = Invited;

    ghost finds = { λ it.
        invitation_finds it.link.now it.variant it.«module» it.nonce.now it.key.now };

    fn find(&self, bytes: &[u8; CELL_LENGTH]) -> Result<FoundMove<Invited>, MoveRefusal> {
        let mut platform = MemPlatform::new(self.alloc, bytes);
        let came = mm_move::invite(
            &mut platform,
            self.link,
            self.variant,
            self.module,
            self.nonce,
            self.key,
        );
        found(came, &platform)
    }
}

impl<M: Module> HostMove for Retirement<'_, M> {
    ghost use Rattle.mm_told_moves.specs.ToldMovePromise.{retirement_finds};

    type Answer = Bytes;

    ghost finds = { λ it. retirement_finds (M.meaning it.«module».now) it.variant it.link.now
        it.nonce.now it.offer.now };

    fn find(&self, bytes: &[u8; CELL_LENGTH]) -> Result<FoundMove<Bytes>, MoveRefusal> {
        let mut platform = MemPlatform::new(self.alloc, bytes);
        let came = mm_move::retire(
            self.alloc,
            self.module,
            self.variant,
            &mut platform,
            self.link,
            self.nonce,
            self.offer,
        );
        found(came, &platform)
    }
}

impl<M: Module> HostMove for Acceptance<'_, M> {
    ghost use Rattle.mm_told_moves.specs.ToldMovePromise.{acceptance_finds};

    type Answer = Accepted;

    ghost finds = { λ it. acceptance_finds (M.meaning it.«module».now) it.variant it.link.now
        it.ticket.now };

    fn find(&self, bytes: &[u8; CELL_LENGTH]) -> Result<FoundMove<Accepted>, MoveRefusal> {
        let mut platform = MemPlatform::new(self.alloc, bytes);
        let came = mm_move::accept(
            self.alloc,
            self.module,
            self.variant,
            &mut platform,
            self.link,
            self.ticket,
        );
        found(came, &platform)
    }
}

/// What an invitation comes to with these steps made, of which the first was its first: how it was
/// answered or refused, once they are all of its steps; or the step that it makes next. It is over
/// after at most two steps, refused as mm_move's `invite` over the same platform.
pub fn invite(
    alloc: Global,
    variant: Variant,
    module: u8,
    made: &[MadeStep],
    link: &Link,
    nonce: &[u8; 32],
    key: &[u8; 32],
) -> StepsOutcome<Result<Invited, MoveRefusal>>
    ghost host: { Host }
    requires { IsHostOf made.now host }
    ensures { ToldMovePromise (invitation_finds link.now variant «module» nonce.now key.now) host
        made.now result }
{
    let it = Invitation {
        alloc,
        variant,
        module,
        link,
        nonce,
        key,
    };
    follow(&it, made)
}

/// The same of a module that leaves its platform, and gives its ticket. Memory may come at any
/// time: call again with the same steps.
pub fn retire<M: Module>(
    alloc: Global,
    variant: Variant,
    module: &M,
    made: &[MadeStep],
    link: &Link,
    nonce: &[u8; 32],
    offer: &[u8],
) -> StepsOutcome<Result<Bytes, MoveRefusal>>
    ghost host: { Host }
    requires { IsHostOf made.now host }
    ensures retires { ToldMovePromise
        (retirement_finds (M.meaning «module».now) variant link.now nonce.now offer.now)
        host made.now result }
    ensures room { IsTicketWithin (M.meaning «module».now).id result }
{
    let it = Retirement {
        alloc,
        module,
        variant,
        link,
        nonce,
        offer,
    };
    follow(&it, made)
}

/// The same of a module that comes to the platform that waits for it.
pub fn accept<M: Module>(
    alloc: Global,
    variant: Variant,
    module: &M,
    made: &[MadeStep],
    link: &Link,
    ticket: &[u8],
) -> StepsOutcome<Result<Accepted, MoveRefusal>>
    ghost host: { Host }
    requires { IsHostOf made.now host }
    ensures accepts { ToldMovePromise
        (acceptance_finds (M.meaning «module».now) variant link.now ticket.now)
        host made.now result }
    ensures room { IsSnapshotWithin (M.meaning «module».now).id result }
{
    let it = Acceptance {
        alloc,
        module,
        variant,
        link,
        ticket,
    };
    follow(&it, made)
}
