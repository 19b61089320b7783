//! A platform in memory, which fails as its plan says and not otherwise.

ghost use Rattle.std.specs.Prelude.{◌≡◌, ◌+◌, ◌<◌, ◌≤◌, Some, None, [], ◌∷◌, ◌++◌, map, OnOk, OnErr, IfOk, Ok, count_by, vec_len, vec_capacity};
ghost use Rattle.std.specs.Option.{option_map};
ghost use Rattle.mm_bytes.specs.Limits.{next_count};
ghost use Rattle.mm_platform.specs.Standing.{items_beside, values_by_plan, Standing, Plan, foreign_item, next_step, plan_after};
ghost use Rattle.mm_platform.specs.Standing.{item_values, register_after, due_values, quiet_plan, next_plan, standing_in_step};
ghost use Rattle.mm_platform.specs.Standing.{is_next_made, next_answer};
ghost use Rattle.mm_platform.specs.Memory.{items_of, is_own, new_platform, count_ahead, plan_with_stop, plan_with_meddle, failing_plan};
ghost use Rattle.mm_platform.specs.Memory.{standing_after_cycle};

use crate::device::{Device, Nv, Platform, Register};
use crate::extensions::{Entry, Extensions};
use crate::fate::Fate;
use crate::fault::StepFault;
use crate::plan::{Meddle, Stop};
use mm_bytes::{CELL_LENGTH, Memory};
use mm_digest::Digest;
use std::alloc::Global;
use std::marker::Model;

/// A platform in memory, which contracts see as what stands on it. It tells all of it, and its
/// plan.
#[derive(Drop)]
pub struct MemPlatform {
    cell: [u8; CELL_LENGTH],
    register: Extensions,
    spare: usize,
    is_on: bool,
    steps: u64,
    writes: u64,
    cycles: u64,
    faults: u64,
    stop: Stop,
    meddles: Vec<Meddle>,
    at: u64,
}

impl Model for MemPlatform {
    ghost Value = { Standing };

    ghost view = { λ p. record {
      cell = Some p.cell;
      items = Some (items_of p.register.entries.items);
      is_on = p.is_on;
      steps = p.steps;
      writes = p.writes;
      cycles = p.cycles;
      spare = p.spare;
      faults = p.faults;
      plan = Some (record { stop = p.stop; meddles = p.meddles.items; at = p.at });
    } };

    ghost invariant = { λ p. vec_len p.register.entries + p.spare + count_ahead p.at p.meddles.items
        ≤ vec_capacity p.register.entries };
}

impl MemPlatform {
    /// A platform with this cell of 104 bytes: on, with an empty register, no faults and a quiet
    /// plan.
    pub fn new(alloc: Global, cell: &[u8; CELL_LENGTH]) -> MemPlatform
        ensures { result ≡ new_platform cell.now }
    {
        MemPlatform {
            cell: *cell,
            register: Extensions::new(alloc),
            spare: 0,
            is_on: true,
            steps: 0,
            writes: 0,
            cycles: 0,
            faults: 0,
            stop: Stop::Quiet,
            meddles: Vec::new(alloc),
            at: 0,
        }
    }

    /// Plans what the coming steps will meet, counted from 1 from now on. After want of memory
    /// nothing has changed.
    #[inline(always)]
    pub fn plan(&mut self, stop: Stop, meddles: &[Meddle]) -> Result<(), Memory>
        ensures ok { OnOk result (self.new ≡ record self.old {
          plan = Some (record { stop = stop; meddles = meddles.now; at = 0 });
        }) }
        ensures err { OnErr result (self.new ≡ self.old) }
    {
        let kept = copy_of(*self.meddles.allocator(), meddles)?;
        self.register.reserve(self.spare + kept.len())?;
        self.stop = stop;
        self.meddles = kept;
        self.at = 0;
        Ok(())
    }

    /// Ends the plan: what of it was not reached lapses.
    #[inline(always)]
    pub fn end_plan(&mut self)
        ensures { self.new ≡ record self.old { plan = Some quiet_plan } }
    {
        self.stop = Stop::Quiet;
        self.meddles.clear();
        self.at = 0;
    }

    /// Puts this stop in place of the one that is planned. Its steps are counted from where the
    /// plan was made, and what others bring stays planned.
    pub fn stop_with(&mut self, stop: Stop)
        ensures { self.new ≡ record self.old
            { plan = option_map (plan_with_stop stop) self.old.plan } }
    {
        self.stop = stop;
    }

    /// Plans besides that others extend the register by this value just before the plan's next
    /// step. After want of memory nothing has changed.
    pub fn meddle_next(&mut self, value: &Digest) -> Result<(), Memory>
        requires { (next_plan self.old).at < 255 }
        ensures ok { OnOk result (self.new ≡ record self.old {
          plan = option_map (plan_with_meddle value.now) self.old.plan;
        }) }
        ensures err { OnErr result (self.new ≡ self.old) }
    {
        let step = self.at.saturating_add(1) as u8;
        self.register.reserve(self.spare + self.meddles.len() + 1)?;
        self.meddles.push(Meddle {
            step,
            value: *value,
        })?;
        Ok(())
    }

    /// Plans that the next step fails, with its effect where `done`, and nothing else.
    pub fn fail_next(&mut self, done: bool)
        ensures { self.new ≡ record self.old { plan = Some (failing_plan done) } }
    {
        self.stop = Stop::Fail { step: 1, done };
        self.meddles.clear();
        self.at = 0;
    }

    /// Loses power and gets it back, which is counted: the register is zero, the platform on, and
    /// all else as it was.
    pub fn lose_power(&mut self)
        ensures { self.new ≡ standing_after_cycle self.old }
    {
        self.cycles = self.cycles.saturating_add(1);
        self.register.clear();
        self.is_on = true;
    }

    /// Others extend the register by this value, now. After want of memory nothing has changed.
    pub fn foreign(&mut self, value: &Digest) -> Result<(), Memory>
        ensures ok { OnOk result
            (self.new ≡ record self.old
            { items = items_beside (value.now.bytes ∷ []) self.old.items }) }
        ensures err { OnErr result (self.new ≡ self.old) }
    {
        self.register.reserve(self.spare + self.meddles.len() + 1)?;
        self.register.push(Entry {
            own: false,
            value: *value,
        });
        Ok(())
    }

    /// The cell's 104 bytes.
    pub fn cell(&self) -> &[u8; CELL_LENGTH]
        ensures { self.now.cell ≡ Some result.now }
    {
        &self.cell
    }

    /// The register's value, which this reads without a step.
    pub fn register(&self) -> &Digest
        ensures { option_map (λ items. register_after (item_values items)) self.now.items
            ≡ Some result.now.bytes }
    {
        &self.register.value
    }

    /// The number of own items in the register.
    pub fn own_items(&self) -> usize
        ensures { option_map (count_by is_own) self.now.items ≡ Some result }
    {
        self.register.count_own()
    }

    /// How many steps have failed.
    pub fn faults(&self) -> u64
        ensures { result ≡ self.now.faults }
    {
        self.faults
    }

    /// How many writes of the cell were called.
    pub fn nv_writes(&self) -> u64
        ensures { result ≡ self.now.writes }
    {
        self.writes
    }

    // Calls a step: counts it, and lets in what is due before it.
    #[inline(always)]
    fn begin_step(&mut self) -> Fate
        ensures after { self.new ≡ standing_in_step self.old }
        ensures made { result.is_made ≡ is_next_made self.old }
        ensures fault { result.fault ≡ next_answer self.old }
    {
        let step = self.at.saturating_add(1);
        let fate = Fate::of(self.is_on, self.stop, step);
        self.let_in(step);
        self.steps = self.steps.saturating_add(1);
        self.faults = fate.count(self.faults);
        self.is_on = fate.is_on;
        fate
    }

    // Goes on to this step, and lets in what is due before it.
    #[inline(always)]
    fn let_in(&mut self, step: u64)
        requires { option_map next_step self.old.plan ≡ Some step }
        ensures { self.new ≡ record self.old {
          items = items_beside (values_by_plan self.old.is_on (next_plan self.old)) self.old.items;
          plan = option_map plan_after self.old.plan;
        } }
    {
        let before = self.at;
        self.at = step;
        if self.is_on {
            let_in_due(&mut self.register, self.meddles.as_slice(), before, step);
        }
    }
}

// A copy of these meddles. Where there are none it takes no memory.
#[inline(always)]
fn copy_of(alloc: Global, meddles: &[Meddle]) -> Result<Vec<Meddle>, Memory>
    ensures { IfOk result (λ copy. copy.items ≡ meddles.now) }
{
    if meddles.is_empty() {
        return Ok(Vec::new(alloc));
    }
    Ok(Vec::from_slice(alloc, meddles)?)
}

// Lets in those of the meddles that are due at this step, where `before` steps are over.
#[inline(always)]
fn let_in_due(register: &mut Extensions, meddles: &[Meddle], before: u64, step: u64)
    requires next { step ≡ next_count before }
    requires room { vec_len register.old.entries + count_ahead before meddles.now
        ≤ vec_capacity register.old.entries }
    ensures items { items_of register.new.entries.items
        ≡ items_of register.old.entries.items ++ map foreign_item (due_values step meddles.now) }
    ensures room { vec_len register.new.entries + count_ahead step meddles.now
        ≤ vec_len register.old.entries + count_ahead before meddles.now }
    ensures kept { vec_capacity register.new.entries ≡ vec_capacity register.old.entries }
{
    for meddle in meddles {
        if u64::from(meddle.step) == step {
            register.push(Entry {
                own: false,
                value: meddle.value,
            });
        }
    }
}

impl Device for MemPlatform {
    ghost standing = { λ p. p };
}

impl Nv for MemPlatform {
    #[inline(always)]
    fn nv_read(&mut self, into: &mut [u8; CELL_LENGTH]) -> Result<(), StepFault> {
        let fate = self.begin_step();
        if let Some(fault) = fate.fault {
            return Err(fault);
        }
        *into = self.cell;
        Ok(())
    }

    #[inline(always)]
    fn nv_write(&mut self, bytes: &[u8; CELL_LENGTH]) -> Result<(), StepFault> {
        let fate = self.begin_step();
        self.writes = self.writes.saturating_add(1);
        if !fate.is_made {
            return fate.answer();
        }
        self.cell = *bytes;
        fate.answer()
    }
}

impl Register for MemPlatform {
    #[inline(always)]
    fn reg_ready(&mut self) -> Result<(), Memory> {
        if self.spare > 0 {
            return Ok(());
        }
        self.register.reserve(self.meddles.len() + 1)?;
        self.spare = 1;
        Ok(())
    }

    #[inline(always)]
    fn reg_read(&mut self) -> Result<Digest, StepFault> {
        let fate = self.begin_step();
        if let Some(fault) = fate.fault {
            return Err(fault);
        }
        Ok(self.register.value)
    }

    #[inline(always)]
    fn reg_reset(&mut self) -> Result<(), StepFault> {
        let fate = self.begin_step();
        if !fate.is_made {
            return fate.answer();
        }
        self.register.clear();
        fate.answer()
    }

    #[inline(always)]
    fn reg_extend(&mut self, value: &Digest) -> Result<(), StepFault> {
        let fate = self.begin_step();
        if !fate.is_made {
            return fate.answer();
        }
        self.spare -= 1;
        self.register.push(Entry {
            own: true,
            value: *value,
        });
        fate.answer()
    }
}

impl Platform for MemPlatform {
    fn cycle(&mut self) -> Result<(), StepFault> {
        self.lose_power();
        Ok(())
    }
}
