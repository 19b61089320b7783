//! What one step of a call comes to.

ghost use Rattle.std.specs.Prelude.{◌≡◌};

/// What one step of a call came to: a call of this kind, an answer, or a refusal.
#[derive(Drop)]
pub enum Turn<C, A, R> {
    /// The call goes on, with its next step.
    Going(C),
    /// The call is over: its last step was made.
    Done(A),
    /// The call is over: it was refused.
    Refused(R),
}

impl<C, A, R> Turn<C, A, R> {
    ghost use Rattle.std.specs.Prelude.{◌≡◌};
    ghost use Rattle.mm_call.specs.Checkpoints.{turn_with};

    /// The turn that ends a call which gives this.
    #[inline(always)]
    pub fn over(given: Result<A, R>) -> Turn<C, A, R>
        ensures { result ≡ turn_with given }
    {
        match given {
            Ok(answer) => Turn::Done(answer),
            Err(refusal) => Turn::Refused(refusal),
        }
    }
}
