//! What becomes of one step.

ghost use Rattle.std.specs.Prelude.{◌≡◌, false, Some, if◌then◌else◌};
ghost use Rattle.std.specs.Result.{result_err};
ghost use Rattle.mm_platform.specs.Standing.{fault_at, is_made_at, is_on_at, faults_after};

use crate::fault::StepFault;
use crate::plan::Stop;

/// Whether a step's effect is made, what it answers, and whether the platform is on afterwards.
#[derive(Clone, Copy)]
pub struct Fate {
    pub is_made: bool,
    pub fault: Option<StepFault>,
    pub is_on: bool,
}

impl Fate {
    /// The fate of the step with this number, on a platform that is on or off.
    pub fn of(is_on: bool, stop: Stop, step: u64) -> Fate
        ensures made { result.is_made ≡ (if is_on then is_made_at stop step else false) }
        ensures fault { result.fault ≡ (if is_on then fault_at stop step else Some StepFault.Off) }
        ensures on { result.is_on ≡ (if is_on then is_on_at stop step else false) }
    {
        if !is_on {
            return Fate {
                is_made: false,
                fault: Some(StepFault::Off),
                is_on: false,
            };
        }
        match stop {
            Stop::Cut(at) if u64::from(at) == step => Fate {
                is_made: true,
                fault: Some(StepFault::Off),
                is_on: false,
            },
            Stop::Drop(at) if u64::from(at) == step => Fate {
                is_made: true,
                fault: Some(StepFault::Off),
                is_on: true,
            },
            Stop::Fail { step: at, done } if u64::from(at) == step => Fate {
                is_made: done,
                fault: Some(StepFault::Failed),
                is_on: true,
            },
            _ => Fate {
                is_made: true,
                fault: None,
                is_on: true,
            },
        }
    }

    pub fn answer(self) -> Result<(), StepFault>
        ensures { result_err result ≡ self.fault }
    {
        match self.fault {
            None => Ok(()),
            Some(fault) => Err(fault),
        }
    }

    pub fn count(self, faults: u64) -> u64
        ensures { result ≡ faults_after self.fault faults }
    {
        match self.fault {
            None => faults,
            Some(_) => faults.saturating_add(1),
        }
    }
}
