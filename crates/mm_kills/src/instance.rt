//! Sessions of an instance, each of which is cut at each of its calls.

use crate::life::{Cut, Leaves, NEVER};
use crate::lives::{Remains, Wanted, held, is_one_list, started};
use mm_bytes::Memory;
use mm_digest::Variant;
use std::alloc::Global;
use std::fmt;

/// How many sessions were cut; at how many calls and effects in all; and how many lives weren't one
/// list, of two for each cut.
#[derive(Clone, Copy)]
pub struct Tally {
    sessions: u64,
    cuts: u64,
    bad: u64,
}

impl Tally {
    /// None yet.
    pub fn new() -> Tally {
        Tally {
            sessions: 0,
            cuts: 0,
            bad: 0,
        }
    }

    // Counts a life.
    fn count(&mut self, is_one_list: bool) {
        if !is_one_list {
            self.bad = self.bad.saturating_add(1);
        }
    }
}

impl fmt::Display for Tally {
    fn fmt<W: fmt::Write>(&self, f: &mut fmt::Formatter<W>) -> fmt::Result {
        let Tally {
            sessions,
            cuts,
            bad,
        } = *self;
        write!(
            f,
            "{sessions} sessions, {cuts} cuts, each with a second one and without: {bad} bad"
        )
    }
}

/// An instance: what its programs left; its position and its sum; and what chance goes on from.
#[derive(Drop)]
pub struct Instance {
    variant: Variant,
    remains: Remains,
    position: u64,
    sum: u64,
    seed: u64,
}

impl Instance {
    /// A first start.
    pub fn start(alloc: Global, variant: Variant, seed: u64) -> Result<Instance, Memory> {
        let remains = started(alloc, variant)?;
        Ok(Instance {
            variant,
            remains,
            position: 0,
            sum: 0,
            seed,
        })
    }

    // A number below this one.
    fn chance(&mut self, most: u64) -> u64 {
        self.seed = self
            .seed
            .wrapping_mul(6364136223846793005)
            .wrapping_add(1442695040888963407);
        (self.seed >> 33) % most.max(1)
    }

    // Up to three requests and one behind them.
    fn next_wanted(&mut self, alloc: Global) -> Result<Wanted, Memory> {
        let numbers = [
            self.chance(1000).saturating_add(1),
            self.chance(1000).saturating_add(1),
            self.chance(1000).saturating_add(1),
            self.chance(1000).saturating_add(1),
        ];
        let count = self.chance(4).saturating_add(1) as usize;
        let (some, _) = numbers.split_at(count.min(4));
        Wanted::new(alloc, self.position, self.sum, some)
    }

    /// A session that is cut at each of its calls, with none, half and all of that call's effect;
    /// and then held whole.
    pub fn cut_next(&mut self, alloc: Global, tally: &mut Tally) -> Result<(), Memory> {
        let wanted = self.next_wanted(alloc)?;
        let mut next = self.remains.copy(alloc)?;
        let lines = wanted.first_lines();
        let whole = held(alloc, self.variant, &mut next, lines, NEVER)?;
        let calls = u64::MAX - whole.left;
        for call in 1..calls.saturating_add(1) {
            for leaves in [Leaves::Nothing, Leaves::Half, Leaves::All] {
                self.cut_at(alloc, &wanted, Cut { call, leaves }, tally)?;
            }
        }
        tally.sessions = tally.sessions.saturating_add(1);
        self.go_on(next, &wanted);
        Ok(())
    }

    // A life in which the session is cut there, and one in which the next one is cut as well, at
    // one of its first calls.
    fn cut_at(
        &mut self,
        alloc: Global,
        wanted: &Wanted,
        cut: Cut,
        tally: &mut Tally,
    ) -> Result<(), Memory> {
        let again = Cut {
            call: self.chance(12).saturating_add(1),
            leaves: cut.leaves,
        };
        tally.cuts = tally.cuts.saturating_add(1);
        for second in [NEVER, again] {
            let is_one = is_one_list(alloc, self.variant, &self.remains, wanted, cut, second)?;
            tally.count(is_one);
        }
        Ok(())
    }

    // Goes on from behind the first requests.
    fn go_on(&mut self, next: Remains, wanted: &Wanted) {
        let count = wanted.first_lines().len();
        self.remains = next;
        self.position = self.position.saturating_add(count as u64);
        if let Some(sum) = wanted.sums.get(count) {
            self.sum = *sum;
        }
    }
}
