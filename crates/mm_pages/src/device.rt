//! A device of pages.

ghost use Rattle.std.specs.Prelude.{◌<◌, ◌≤◌};
ghost use Rattle.mm_pages.specs.PageStanding.{PageStanding, ReadsLength, ReadsPage, WritesPage, SetsLength, SyncsPages, RenewsSlot};

use mm_bytes::Failed;

/// Four slots, numbered from 0 to 3, each a list of at most 1,100,032 bytes that is read and
/// written by pages of 256. Bytes past a slot's end read as zero. What is written may wait to be on
/// the disk until the slot is synced. A system tells of a write to the disk that failed once: a
/// later sync says `Ok`, and writes nothing of it, though it can still be read. So once a change or
/// a sync failed, in an earlier program too, a slot is doubtful until it is renewed.
///
/// `pages` is what the device holds: the slots where it tells them, whether it is honest, its
/// counts of faults and of calls, and, where it is told, which slots were changed and not synced
/// since, and which are doubtful.
pub trait PageDevice {
    ghost pages: { Self → PageStanding };

    /// How many bytes the slot has.
    fn length(&mut self, slot: u8) -> Result<u32, Failed>
        requires { slot < 4 }
        ensures reads { ReadsLength slot (pages self.old) (pages self.new) result };

    /// Reads the 256 bytes of a page below 4,297.
    fn read_page(&mut self, slot: u8, page: u16, into: &mut [u8; 256]) -> Result<(), Failed>
        requires slot { slot < 4 }
        requires page { page < 4297 }
        ensures reads { ReadsPage slot page (pages self.old) (pages self.new) into.new result };

    /// Writes the 256 bytes of a page below 4,297. A hole before it is filled with zero bytes.
    /// After `Failed` the slot may have any bytes.
    fn write_page(&mut self, slot: u8, page: u16, bytes: &[u8; 256]) -> Result<(), Failed>
        requires slot { slot < 4 }
        requires page { page < 4297 }
        ensures writes { WritesPage slot page bytes.now (pages self.old) (pages self.new) result };

    /// Cuts the slot to this length of at most 1,100,032, or fills it up to there with zero bytes.
    /// After `Failed` the slot may have any bytes.
    fn set_length(&mut self, slot: u8, length: u32) -> Result<(), Failed>
        requires slot { slot < 4 }
        requires most { length ≤ 1100032 }
        ensures sets { SetsLength slot length (pages self.old) (pages self.new) result };

    /// Lets what was written to the slot be on the disk, of a doubtful one not all. After `Failed`
    /// the slot may have any bytes.
    fn sync(&mut self, slot: u8) -> Result<(), Failed>
        requires { slot < 4 }
        ensures syncs { SyncsPages slot (pages self.old) (pages self.new) result };

    /// Writes once more what the slot has, in place, and lets all of it be on the disk. The slot
    /// stays as it is, after `Failed` too.
    fn renew(&mut self, slot: u8) -> Result<(), Failed>
        requires { slot < 4 }
        ensures renews { RenewsSlot slot (pages self.old) (pages self.new) result };
}
