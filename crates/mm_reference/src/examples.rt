//! What is said of every position of small histories, by computing the definitions.

ghost use Rattle.std.specs.Prelude.{◌≡◌, [], ◌∷◌, codes};
ghost use Rattle.mm_reference.specs.Run.{basic_verdicts};
ghost use Rattle.mm_model.specs.declared.verdict.Verdict.TheVariants.{Fresh, Again, Stale};

/// Basic, after one request: the position before it is repeated by that request alone.
pub fn after_one_request()
    ensures the_last { basic_verdicts (codes "add 5" ∷ []) (codes "add 5") ≡ Again ∷ Fresh ∷ [] }
    ensures another { basic_verdicts (codes "add 5" ∷ []) (codes "add 7") ≡ Stale ∷ Fresh ∷ [] }
{}

/// Basic, after two requests of one text: the second alone is repeated.
pub fn after_two_requests()
    ensures the_last { basic_verdicts (codes "add 1" ∷ codes "add 1" ∷ []) (codes "add 1")
        ≡ Stale ∷ Again ∷ Fresh ∷ [] }
    ensures another { basic_verdicts (codes "add 1" ∷ codes "add 1" ∷ []) (codes "read")
        ≡ Stale ∷ Stale ∷ Fresh ∷ [] }
    ensures the_last_of_fives { basic_verdicts (codes "add 5" ∷ codes "add 5" ∷ []) (codes "add 5")
        ≡ Stale ∷ Again ∷ Fresh ∷ [] }
{}
