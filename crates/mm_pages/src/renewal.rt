//! Renewing a slot before it is used.

ghost use Rattle.std.specs.Prelude.{◌<◌};
ghost use Rattle.mm_store.specs.StoreStanding.{unsynced_slots_of};
ghost use Rattle.mm_pages.specs.SlotWrites.{RenewsIfDue};

use crate::device::PageDevice;
use mm_bytes::Failed;
use mm_store::Four;

// Renews a slot that is due.
pub fn renew_due<D: PageDevice>(
    device: &mut D,
    due: &mut Four<bool>,
    slot: u8,
) -> Result<(), Failed>
    requires { slot < 4 }
    ensures { RenewsIfDue slot (unsynced_slots_of due.old) (unsynced_slots_of due.new)
        (D.pages device.old) (D.pages device.new) result }
{
    if !*due.get(slot) {
        return Ok(());
    }
    match device.renew(slot) {
        Ok(()) => {
            *due.get_mut(slot) = false;
            Ok(())
        }
        Err(fault) => Err(fault),
    }
}
