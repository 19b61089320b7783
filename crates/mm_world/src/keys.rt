//! The secrets of each world in memory.

ghost use Rattle.std.specs.Prelude.{◌≡◌};
ghost use Rattle.mm_outcome.specs.OneRun.{world_barrier, world_key};

use mm_ask::Secrets;
use mm_outcome::{world_barrier, world_key};

/// The key and the barrier of each world.
pub fn world_secrets() -> Secrets
    ensures key { result.key ≡ world_key }
    ensures barrier { result.barrier ≡ world_barrier }
{
    Secrets {
        key: world_key(),
        barrier: world_barrier(),
    }
}
