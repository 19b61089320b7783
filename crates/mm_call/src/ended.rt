//! How a call ended.

ghost use Rattle.std.specs.Prelude.{◌≡◌};
ghost use Rattle.mm_call.specs.CallKind.{refusal_of_halt};

use mm_machine::Halt;
use mm_model::{BatchAnswer, Refusal};
use mm_platform::StepFault;

/// How a call ended over a platform.
#[derive(Drop)]
pub enum AskResult {
    /// The batch is committed, now or before: this is its answer.
    Answered(BatchAnswer),
    /// Refused, for no fault of a device.
    Refused(Refusal),
    /// Broken off by a device's fault.
    Broken {
        fault: StepFault,
        /// The position after the batch, where the step that failed is the one that commits it: it
        /// is committed exactly where that step had its effect.
        commits: Option<u64>,
    },
}

/// Why a call was refused whose reading came to nothing.
#[inline(always)]
pub fn refusal_of(halt: Halt<Refusal>) -> Refusal
    ensures { result ≡ refusal_of_halt halt }
{
    match halt {
        Halt::Fault(fault) => Refusal::Device(fault),
        Halt::Refused(refusal) => refusal,
        Halt::Lacks => Refusal::Memory,
    }
}

impl AskResult {
    ghost use Rattle.std.specs.Prelude.{◌≡◌};
    ghost use Rattle.mm_call.specs.CallKind.{result_of, end_of_refusal, end_of_machine};

    /// How a call ended that the machine made.
    #[inline(always)]
    pub fn of(end: mm_machine::OpResult<BatchAnswer, Refusal>) -> AskResult
        ensures { result ≡ end_of_machine end }
    {
        match end {
            mm_machine::OpResult::Answered(answer) => AskResult::Answered(answer),
            mm_machine::OpResult::Refused(refusal) => AskResult::refused(refusal),
            mm_machine::OpResult::Lacks => AskResult::Refused(Refusal::Memory),
            mm_machine::OpResult::Broken { fault, commits } => AskResult::Broken { fault, commits },
        }
    }

    /// A call that was refused, or broken off by a device's fault where nothing could be committed.
    pub fn refused(refusal: Refusal) -> AskResult
        ensures { result ≡ end_of_refusal refusal }
    {
        match refusal {
            Refusal::Device(fault) => AskResult::Broken {
                fault,
                commits: None,
            },
            _ => AskResult::Refused(refusal),
        }
    }

    /// What the call gives: a device's fault is handed on as it is.
    pub fn result(self) -> Result<BatchAnswer, Refusal>
        ensures { result ≡ result_of self }
    {
        match self {
            AskResult::Answered(answer) => Ok(answer),
            AskResult::Refused(refusal) => Err(refusal),
            AskResult::Broken { fault, .. } => Err(Refusal::Device(fault)),
        }
    }
}
