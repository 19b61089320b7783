//! Replies counted by their kinds.

ghost use Rattle.std.specs.Prelude.{◌≡◌, ◌+◌, ◌<◌};
ghost use Rattle.mm_bytes.specs.Limits.{most_events};
ghost use Rattle.mm_gen.specs.Schedules.{counts_after_reply, no_counts, total};

use mm_schedule::Reply;

/// How many replies there are of each kind.
#[derive(Clone, Copy)]
pub struct ReplyCounts {
    pub ok: u32,
    pub again: u32,
    pub no: u32,
    pub kept: u32,
    pub lost: u32,
    pub other: u32,
}

impl ReplyCounts {
    /// No reply.
    pub fn none() -> ReplyCounts
        ensures { result ≡ no_counts }
    {
        ReplyCounts {
            ok: 0,
            again: 0,
            no: 0,
            kept: 0,
            lost: 0,
            other: 0,
        }
    }

    /// Counts one reply more. A reply of several lines is one.
    pub fn count(&mut self, reply: &Reply)
        requires { total self.old < most_events }
        ensures counted { self.new ≡ counts_after_reply self.old reply.now }
        ensures total { total self.new ≡ total self.old + 1 }
    {
        match reply {
            Reply::Told { again: false, .. } => self.ok += 1,
            Reply::Told { again: true, .. } => self.again += 1,
            Reply::No(_) => self.no += 1,
            Reply::Kept { .. } => self.kept += 1,
            Reply::Nothing { .. } => self.lost += 1,
            _ => self.other += 1,
        }
    }
}
