//! The steps that change something.

ghost use Rattle.std.specs.Prelude.{◌≡◌};
ghost use Rattle.std.specs.Result.{result_err};

use mm_bytes::CELL_LENGTH;
use mm_digest::Digest;
use mm_platform::{Platform, StepFault};

/// What opens a segment.
#[derive(Drop)]
pub struct SegmentOpening {
    /// The value that extends the register, once it is reset.
    pub value: Digest,
    /// The cell's bytes behind that.
    pub next: [u8; CELL_LENGTH],
}

/// The changing step that comes next.
#[derive(Drop)]
pub enum Change {
    /// The register is extended by this value, and that is all.
    Extending(Digest),
    /// The register is reset, and then extended and the cell written.
    Emptying(SegmentOpening),
    /// The register was reset, and is extended; then the cell is written.
    Placing(SegmentOpening),
    /// The cell is written, and that is all.
    Writing([u8; CELL_LENGTH]),
}

impl Change {
    ghost use Rattle.std.specs.Prelude.{◌≡◌, ◌≤◌, ◌<◌, ◌^◌, true, IfOk};
    ghost use Rattle.std.specs.Result.{result_err};
    ghost use Rattle.mm_platform.specs.Standing.{StepGoes};
    ghost use Rattle.mm_machine.specs.Acts.{MayChange, act_in, change_after, is_extension_left, is_last, number_in};

    /// Whether the register is to be extended.
    #[inline(always)]
    pub fn extends(&self) -> bool
        ensures { result ≡ is_extension_left self.now }
    {
        match self {
            Change::Extending(_) | Change::Emptying(_) | Change::Placing(_) => true,
            Change::Writing(_) => false,
        }
    }

    /// Whether nothing comes after this step.
    #[inline(always)]
    pub fn is_last(&self) -> bool
        ensures { result ≡ is_last self.now }
    {
        match self {
            Change::Extending(_) | Change::Writing(_) => true,
            Change::Emptying(_) | Change::Placing(_) => false,
        }
    }

    /// The number of the step in its call, from 1, where a write alone has this one.
    pub fn number(&self, write: u8) -> u8
        ensures { result ≡ number_in write self.now }
    {
        match self {
            Change::Extending(_) | Change::Emptying(_) => 3,
            Change::Placing(_) => 4,
            Change::Writing(_) => write,
        }
    }

    /// Makes the step, and gives the one behind it, if there is one. Takes no memory.
    #[inline(always)]
    pub fn make<P: Platform>(self, platform: &mut P) -> Result<Option<Change>, StepFault>
        requires { MayChange self (P.standing platform.old) }
        ensures goes { StepGoes (act_in self) (P.standing platform.old) (P.standing platform.new)
            (result_err result) }
        ensures next { IfOk result (λ next. next ≡ change_after self) }
    {
        match self {
            Change::Extending(value) => {
                platform.reg_extend(&value)?;
                Ok(None)
            }
            Change::Emptying(opening) => {
                platform.reg_reset()?;
                Ok(Some(Change::Placing(opening)))
            }
            Change::Placing(opening) => {
                platform.reg_extend(&opening.value)?;
                Ok(Some(Change::Writing(opening.next)))
            }
            Change::Writing(next) => {
                platform.nv_write(&next)?;
                Ok(None)
            }
        }
    }
}
