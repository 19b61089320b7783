//! How an error of the file system is counted, and its reason kept.

ghost use Rattle.std.specs.Prelude.{◌≡◌, Ok, Some, IsErr, MatchResult};
ghost use Rattle.mm_bytes.specs.Limits.{next_count, CountsFaults};

use crate::reason::Reason;
use mm_bytes::Failed;

/// An outcome whose error is told as `Failed`, counted once, and kept as the last reason.
pub fn counted<T>(
    faults: &mut u64,
    last: &mut Option<Reason>,
    outcome: Result<T, Reason>,
) -> Result<T, Failed>
    ensures told { MatchResult outcome
        (λ value. (result ≡ Ok value) × (faults.new ≡ faults.old))
        (λ _. IsErr result × (faults.new ≡ next_count faults.old)) }
    ensures keeps { MatchResult outcome
        (λ _. last.new ≡ last.old)
        (λ reason. last.new ≡ Some reason) }
    ensures counts { CountsFaults faults.old faults.new result }
{
    match outcome {
        Ok(value) => Ok(value),
        Err(reason) => {
            *faults = faults.saturating_add(1);
            *last = Some(reason);
            Err(Failed)
        }
    }
}
