//! The request that waits in the store.

ghost use Rattle.std.specs.Prelude.{◌≡◌, ◌+◌, ◌^◌, IfOk, IfSome};
ghost use Rattle.std.specs.Option.{option_map};
ghost use Rattle.mm_store.specs.StoreStanding.{StoreStanding};
ghost use Rattle.mm_store.specs.PendingRecord.{pending_of};
ghost use Rattle.mm_recovery.specs.HostStanding.{IsAskable, TakesWaitingRequest, later_record, FindsWaitingRequest};

use mm_bytes::Bytes;
use mm_store::{PendingRequest, Store, StoreFault, read_pending};
use std::alloc::Global;
use std::marker::Model;

/// A request of at most 4,096 bytes without LF that waits to be asked, and the position from 1 to
/// 2^48 that it is to take. Contracts see its record.
#[derive(Drop)]
pub struct WaitingRequest {
    pub position: u64,
    pub request: Bytes,
}

impl Model for WaitingRequest {
    ghost use Rattle.mm_store.specs.PendingRecord.{PendingRecord};

    ghost Value = { PendingRecord };

    ghost view = { λ waiting. record { position = waiting.position; request = waiting.request } };
}

/// Reads slots 2 and 3, and takes the request of the later of their valid records.
pub fn find_waiting<T: Store>(
    alloc: Global,
    store: &mut T,
) -> Result<Option<WaitingRequest>, StoreFault>
    ensures finds { FindsWaitingRequest (T.kept store.old) (T.kept store.new) result }
    ensures askable { IfOk result (λ waiting. IfSome waiting IsAskable) }
{
    let two = store.read(alloc, 2)?;
    let three = store.read(alloc, 3)?;
    take_later(alloc, two.as_slice(), three.as_slice())
}

// The request of the later valid record in these bytes of slots 2 and 3.
fn take_later(alloc: Global, two: &[u8], three: &[u8]) -> Result<Option<WaitingRequest>, StoreFault>
    ensures takes { TakesWaitingRequest two.now three.now result }
    ensures askable { IfOk result (λ waiting. IfSome waiting IsAskable) }
{
    let Some(pending) = later(read_pending(2, two), read_pending(3, three)) else {
        return Ok(None);
    };
    let request = Bytes::copy_of(alloc, pending.request)?;
    Ok(Some(WaitingRequest {
        position: pending.position,
        request,
    }))
}

// The later of two records.
fn later<'a>(
    two: Option<PendingRequest<'a>>,
    three: Option<PendingRequest<'a>>,
) -> Option<PendingRequest<'a>>
    ensures { option_map pending_of result
        ≡ later_record (option_map pending_of two.entry) (option_map pending_of three.entry) }
{
    match (two, three) {
        (None, three) => three,
        (two, None) => two,
        (Some(two), Some(three)) => {
            if three.position <= two.position {
                Some(two)
            } else {
                Some(three)
            }
        }
    }
}
