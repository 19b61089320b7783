//! What a call answers.

ghost use Rattle.std.specs.Prelude.{◌≡◌, [], ◌∷◌, length};

use mm_bytes::Bytes;
use mm_module::Outputs;

/// The answer to one request.
#[derive(Drop)]
pub struct Answer {
    /// Whether the request had been committed before.
    pub again: bool,
    /// The position after the request.
    pub position: u64,
    /// What the module says, at most 4,096 bytes and no LF.
    pub output: Bytes,
    /// The newest snapshot.
    pub snapshot: Bytes,
}

/// The answer to a batch of requests.
#[derive(Drop)]
pub struct BatchAnswer {
    /// Whether the batch had been committed before.
    pub again: bool,
    /// The position after the batch.
    pub position: u64,
    /// What the module says to each request, in order.
    pub outputs: Outputs,
    /// The newest snapshot.
    pub snapshot: Bytes,
}

impl BatchAnswer {
    /// The answer to a batch of one request. Takes no memory.
    pub fn into_one(self) -> Answer
        requires { length self.outputs ≡ 1 }
        ensures again { result.again ≡ self.again }
        ensures position { result.position ≡ self.position }
        ensures output { self.outputs ≡ result.output ∷ [] }
        ensures snapshot { result.snapshot ≡ self.snapshot }
    {
        let BatchAnswer {
            again,
            position,
            outputs,
            snapshot,
        } = self;
        Answer {
            again,
            position,
            output: outputs.into_one(),
            snapshot,
        }
    }
}
