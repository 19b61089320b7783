//! Laws of the moves, each the contract of a function that does nothing: what calls, others and
//! losses of power keep.

ghost use Rattle.std.specs.Prelude.{◌≡◌, ℕ, false, List, [], ◌∷◌};
ghost use Rattle.std.specs.List.{Contains};
ghost use Rattle.mm_digest.specs.declared.variant.Variant.TheVariants.{Basic, Opt};
ghost use Rattle.mm_module.specs.Batch.{Batch};
ghost use Rattle.mm_module.specs.Meaning.{Meaning};
ghost use Rattle.mm_seal.specs.Snapshot.{Content};
ghost use Rattle.mm_model.specs.Chains.{link_message, summary_of, basic_instance, opt_instance};
ghost use Rattle.mm_model.specs.History.{History, Move, Commit, first_history, items_of_all, history_after, commit_moves};
ghost use Rattle.mm_model.specs.History.{history_after_moves, with_batch};
ghost use Rattle.mm_model.specs.Standing.{has_value, IsSound, NamesPosition, content_of_issue};
ghost use Rattle.mm_model.specs.Verdicts.{verdict_on};
ghost use Rattle.mm_model.specs.declared.verdict.Verdict.TheVariants.{Fresh};
ghost use Rattle.mm_model.specs.Messages.{AreMessagesIn, IsClearFor, history_messages, move_messages};
ghost use Rattle.mm_model.specs.Moves.{MayMove, digests_of, digests_after, IsOutside, MoveBrings, batch_messages};

/// Opt: the first history is sound, and each move leads from a sound history to a sound one.
pub fn moves_keep_histories_sound()
    ensures first { IsSound first_history }
    ensures next { (meaning : Meaning) (key barrier : List ℕ) (y : History) (m : Move) → IsSound y →
        MayMove (opt_instance meaning key barrier) y m
        → IsSound (history_after (opt_instance meaning key barrier) y m) }
{}

/// A snapshot that names a position of a history names it after each move.
pub fn moves_keep_names()
    ensures basic { (meaning : Meaning) (key : List ℕ) (y : History) (m : Move)
        (offered : Content) → NamesPosition (basic_instance meaning key) y offered →
        NamesPosition (basic_instance meaning key) (history_after (basic_instance meaning key) y m)
        offered }
    ensures opt { (meaning : Meaning) (key barrier : List ℕ) (y : History) (m : Move)
        (offered : Content) → IsSound y → MayMove (opt_instance meaning key barrier) y m →
        NamesPosition (opt_instance meaning key barrier) y offered →
        NamesPosition (opt_instance meaning key barrier)
        (history_after (opt_instance meaning key barrier) y m) offered }
{}

/// The snapshot of an answer names the last position, in Opt where no closed segment is spoiled.
pub fn answers_name_the_last_position()
    ensures basic { (meaning : Meaning) (key : List ℕ) (y : History)
        → NamesPosition (basic_instance meaning key) y
        (content_of_issue (basic_instance meaning key) y) }
    ensures opt { (meaning : Meaning) (key barrier : List ℕ) (y : History) → IsSound y →
        has_value (items_of_all y.closed) ≡ false →
        NamesPosition (opt_instance meaning key barrier) y
        (content_of_issue (opt_instance meaning key barrier) y) }
{}

/// Opt: where others put in each value that stands for no batch and counts, they did after each
/// move too.
pub fn moves_keep_values_outside()
    ensures first { (others : List (List ℕ)) → IsOutside others first_history }
    ensures next { (meaning : Meaning) (key barrier : List ℕ) (others : List (List ℕ)) (y : History)
        (m : Move) → IsOutside others y → MayMove (opt_instance meaning key barrier) y m →
        MoveBrings Opt y.is_open others y m
        → IsOutside others (history_after (opt_instance meaning key barrier) y m) }
{}

/// A move does to the digests what the device step that makes it does.
pub fn moves_are_device_steps()
    ensures basic { (meaning : Meaning) (key : List ℕ) (y : History) (m : Move) →
        MayMove (basic_instance meaning key) y m →
        digests_of (basic_instance meaning key) (history_after (basic_instance meaning key) y m)
        ≡ digests_after (basic_instance meaning key) (digests_of (basic_instance meaning key) y) m }
    ensures opt { (meaning : Meaning) (key barrier : List ℕ) (y : History) (m : Move) →
        MayMove (opt_instance meaning key barrier) y m →
        digests_of (opt_instance meaning key barrier)
        (history_after (opt_instance meaning key barrier) y m)
        ≡ digests_after (opt_instance meaning key barrier)
        (digests_of (opt_instance meaning key barrier) y) m }
{}

/// Basic: where the messages of a history are listed, and a batch's link message is, those of the
/// history with the batch are.
pub fn basic_messages_go_on()
    ensures { (meaning : Meaning) (key : List ℕ) (y : History) (b : Batch) (all : List (List ℕ)) →
        AreMessagesIn (history_messages (basic_instance meaning key) y) all →
        Contains all (link_message (summary_of meaning.id y.batches) b) →
        AreMessagesIn (history_messages (basic_instance meaning key)
        (history_after (basic_instance meaning key) y (Commit b))) all }
{}

/// The commit of a batch as a whole is its moves: where it opens a segment, the extension of the
/// register and then the commit.
pub fn whole_commits_are_moves()
    ensures basic { (meaning : Meaning) (key : List ℕ) (y : History) (b : Batch) →
        with_batch Basic y b ≡ history_after_moves (basic_instance meaning key) y
        (commit_moves Basic y.is_open b) }
    ensures opt { (meaning : Meaning) (key barrier : List ℕ) (y : History) (b : Batch) →
        with_batch Opt y b ≡ history_after_moves (opt_instance meaning key barrier) y
        (commit_moves Opt y.is_open b) }
{}

/// Opt: where the messages of a sound history are listed, and those of a move and of its batch are,
/// those of the history after it are.
pub fn opt_messages_go_on()
    ensures { (meaning : Meaning) (key barrier : List ℕ) (y : History) (m : Move)
        (all : List (List ℕ)) → IsSound y → MayMove (opt_instance meaning key barrier) y m →
        AreMessagesIn (history_messages (opt_instance meaning key barrier) y) all →
        AreMessagesIn (move_messages (opt_instance meaning key barrier) y m) all →
        AreMessagesIn (batch_messages (opt_instance meaning key barrier) y m) all →
        AreMessagesIn (history_messages (opt_instance meaning key barrier)
        (history_after (opt_instance meaning key barrier) y m))
        all }
{}

/// Opt: an offer on which the verdict is Fresh lists, by its call's messages, what its batch adds
/// to the messages of the history.
pub fn fresh_offers_list_their_batch()
    ensures { (meaning : Meaning) (key barrier : List ℕ) (y : History) (offered : Content)
        (b : Batch) (all : List (List ℕ)) → IsSound y →
        IsClearFor all (opt_instance meaning key barrier) y offered.place b →
        NamesPosition (opt_instance meaning key barrier) y offered
        → verdict_on Opt y offered.position b ≡ Fresh →
        AreMessagesIn (batch_messages (opt_instance meaning key barrier) y (Commit b)) all }
{}
