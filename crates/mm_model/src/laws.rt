//! Laws of the definitions in specs/, each the contract of a function that does nothing.
//!
//! `all` is a list of messages in which no two share a digest and none has the digest zero
//! (`IsClear`).

ghost use Rattle.std.specs.Prelude.{◌≡◌, ◌&&◌, ℕ, false, List, [], ◌∷◌, ◌++◌, length, map};
ghost use Rattle.std.specs.Str.{bytes_eq};
ghost use Rattle.std.specs.List.{Contains, AllByRecursion};
ghost use Rattle.mm_digest.specs.declared.variant.Variant.TheVariants.{Basic, Opt};
ghost use Rattle.mm_digest.specs.Messages.{zero_bytes, start_message, start_digest_of, extended_digest_of, anchored_digest_of};
ghost use Rattle.mm_digest.specs.Messages.{successor_message, secured_message, successor_digest_of, secured_digest_of};
ghost use Rattle.mm_digest.specs.Messages.{successor_batch_digest_of, secured_batch_digest_of};
ghost use Rattle.mm_module.specs.Batch.{Batch, One, Many};
ghost use Rattle.mm_module.specs.Meaning.{Meaning};
ghost use Rattle.mm_model.specs.Chains.{trail, link_message, guard_message, closing_message, link, guard, summary_of, register_of};
ghost use Rattle.mm_model.specs.Chains.{anchor_of, Instance, basic_instance, opt_instance};
ghost use Rattle.mm_model.specs.History.{History, register_value_of, cell_digest_of};
ghost use Rattle.mm_platform.specs.Standing.{register_after as folded_of};
ghost use Rattle.mm_seal.specs.Snapshot.{Content};
ghost use Rattle.mm_model.specs.Standing.{NamesPosition, is_lost, life_of, Spoiled, Lost as LostLife, IsSound};
ghost use Rattle.mm_model.specs.Verdicts.{verdict_on, verdict_by_digests};
ghost use Rattle.mm_model.specs.Messages.{AreMessagesIn, IsClear, IsClearFor, history_messages, offer_messages, register_trail};
ghost use Rattle.mm_model.specs.Messages.{AreNoGuards, values_in, counted_entries, is_new, place_messages};
ghost use Rattle.mm_model.specs.declared.verdict.Verdict.TheVariants.{Lost, Stale};
ghost use Rattle.mm_seal.specs.declared.snapshot.Place.{Place};

/// A batch of one request has the messages and digests of that request, and a batch of several
/// those of its text.
pub fn batches_are_hashed()
    ensures link { (s request : List ℕ) → link s (One request) ≡ successor_digest_of s request }
    ensures guard { (barrier request : List ℕ)
        → guard barrier (One request) ≡ secured_digest_of barrier request }
    ensures link_many { (s text : List ℕ) → link s (Many text) ≡ successor_batch_digest_of s text }
    ensures guard_many { (barrier text : List ℕ)
        → guard barrier (Many text) ≡ secured_batch_digest_of barrier text }
{}

/// The summary, the register's value and the anchor go on by one digest, and a register reads its
/// value.
pub fn chains_go_on()
    ensures summary { (id : ℕ) (batches : List Batch) (b : Batch) →
        summary_of id (batches ++ b ∷ []) ≡ link (summary_of id batches) b }
    ensures register { (values : List (List ℕ)) (value : List ℕ) →
        register_of (values ++ value ∷ []) ≡ extended_digest_of (register_of values) value }
    ensures anchor { (id : ℕ) (segments : List (List (List ℕ))) (values : List (List ℕ)) →
        anchor_of id (segments ++ values ∷ [])
        ≡ anchored_digest_of (anchor_of id segments) (register_of values) }
    ensures reads { (values : List (List ℕ)) → folded_of values ≡ register_of values }
    ensures no_batches { (id : ℕ) → summary_of id [] ≡ start_digest_of Basic id }
    ensures no_values { register_of [] ≡ zero_bytes }
    ensures no_segments { (id : ℕ) → anchor_of id [] ≡ start_digest_of Opt id }
{}

/// Equal links or guards of two listed batches are those of one batch.
pub fn batches_are_told_apart()
    ensures link { (all : List (List ℕ)) → IsClear all → (s t : List ℕ) (b c : Batch) →
        length s ≡ 32 → length t ≡ 32 → Contains all (link_message s b) →
        Contains all (link_message t c) → link s b ≡ link t c → b ≡ c }
    ensures guard { (all : List (List ℕ)) → IsClear all → (barrier : List ℕ) (b c : Batch) →
        Contains all (guard_message barrier b) → Contains all (guard_message barrier c) →
        guard barrier b ≡ guard barrier c → b ≡ c }
{}

/// Equal values of two registers come from equal lists of values.
pub fn registers_are_told_apart()
    ensures { (all : List (List ℕ)) → IsClear all → (values others : List (List ℕ)) →
        AreMessagesIn (register_trail values) all → AreMessagesIn (register_trail others) all →
        register_of values ≡ register_of others → values ≡ others }
{}

/// Equal anchors come from equal lists of segments.
pub fn anchors_are_told_apart()
    ensures { (id : ℕ) (all : List (List ℕ)) → IsClear all → Contains all (start_message Opt id) →
        (segments others : List (List (List ℕ))) →
        AllByRecursion (λ values. AreMessagesIn (register_trail values) all) segments →
        AllByRecursion (λ values. AreMessagesIn (register_trail values) all) others →
        AreMessagesIn (trail closing_message (start_digest_of Opt id) segments) all →
        AreMessagesIn (trail closing_message (start_digest_of Opt id) others) all →
        anchor_of id segments ≡ anchor_of id others → segments ≡ others }
{}

/// Equal summaries come from equal lists of batches.
pub fn summaries_are_told_apart()
    ensures { (id : ℕ) (all : List (List ℕ)) → IsClear all → Contains all (start_message Basic id) →
        (batches others : List Batch) →
        AreMessagesIn (trail link_message (start_digest_of Basic id) batches) all →
        AreMessagesIn (trail link_message (start_digest_of Basic id) others) all →
        summary_of id batches ≡ summary_of id others → batches ≡ others }
{}

/// Basic: on an offer that names a position, the verdict by digests is the verdict on the history.
pub fn basic_verdict_is_judged()
    ensures { (meaning : Meaning) (key register : List ℕ) (y : History) (offered : Content)
        (b : Batch) (all : List (List ℕ)) → IsClearFor all (basic_instance meaning key) y
        offered.place b →
        NamesPosition (basic_instance meaning key) y offered →
        verdict_by_digests zero_bytes false (cell_digest_of (basic_instance meaning key) Basic y)
        register
        offered.place b
        ≡ verdict_on Basic y offered.position b }
{}

/// Opt: from a sound history, on an offer that names a position, the verdict by digests is the
/// verdict on the history. The flag is whether a segment is open, and the digests are the anchor
/// and the register's value that the platform has.
pub fn opt_verdict_is_judged()
    ensures { (meaning : Meaning) (key barrier : List ℕ) (y : History) (offered : Content)
        (b : Batch) (all : List (List ℕ)) → IsSound y →
        IsClearFor all (opt_instance meaning key barrier) y offered.place b →
        NamesPosition (opt_instance meaning key barrier) y offered →
        verdict_by_digests barrier y.is_open
        (cell_digest_of (opt_instance meaning key barrier) Opt y)
        (register_value_of (opt_instance meaning key barrier) y) offered.place b
        ≡ verdict_on Opt y offered.position b }
{}

/// Opt: under a set flag the register reads zero exactly where power was lost inside an open
/// segment.
pub fn zero_is_lost()
    ensures { (meaning : Meaning) (key barrier : List ℕ) (y : History) (all : List (List ℕ)) →
        IsClear all → AreMessagesIn (history_messages (opt_instance meaning key barrier) y) all →
        (y.is_open && bytes_eq (register_value_of (opt_instance meaning key barrier) y) zero_bytes)
        ≡ is_lost (life_of Opt y) }
{}

/// Opt: an offer that names a position isn't accepted once the history is Spoiled or Lost.
pub fn ended_histories_accept_nothing()
    ensures spoiled { (meaning : Meaning) (key barrier : List ℕ) (y : History) (offered : Content)
        (b : Batch) (all : List (List ℕ)) → IsSound y →
        IsClearFor all (opt_instance meaning key barrier) y offered.place b →
        NamesPosition (opt_instance meaning key barrier) y offered → life_of Opt y ≡ Spoiled →
        verdict_by_digests barrier y.is_open
        (cell_digest_of (opt_instance meaning key barrier) Opt y)
        (register_value_of (opt_instance meaning key barrier) y) offered.place b ≡ Stale }
    ensures lost { (meaning : Meaning) (key barrier : List ℕ) (y : History) (offered : Content)
        (b : Batch) (all : List (List ℕ)) → IsSound y →
        IsClearFor all (opt_instance meaning key barrier) y offered.place b →
        NamesPosition (opt_instance meaning key barrier) y offered → life_of Opt y ≡ LostLife →
        verdict_by_digests barrier y.is_open
        (cell_digest_of (opt_instance meaning key barrier) Opt y)
        (register_value_of (opt_instance meaning key barrier) y) offered.place b ≡ Lost }
{}

/// Whether an offer that names a position stands where the module does: whatever the batch, the
/// verdict by digests tells what the verdict on the history tells, and no message of a batch is
/// asked about.
pub fn offers_stand_here()
    ensures basic { (meaning : Meaning) (key register : List ℕ) (y : History) (offered : Content)
        (b : Batch) (all : List (List ℕ)) → IsClear all →
        AreMessagesIn (history_messages (basic_instance meaning key) y) all
        → NamesPosition (basic_instance meaning key) y offered →
        is_new (verdict_by_digests zero_bytes false
        (cell_digest_of (basic_instance meaning key) Basic y)
        register offered.place b)
        ≡ is_new (verdict_on Basic y offered.position b) }
    ensures opt { (meaning : Meaning) (key barrier : List ℕ) (y : History) (offered : Content)
        (b : Batch) (all : List (List ℕ)) → IsSound y → IsClear all →
        AreMessagesIn (history_messages (opt_instance meaning key barrier) y) all →
        AreMessagesIn (place_messages offered.place) all →
        AreNoGuards barrier (values_in (counted_entries y)) y.batches →
        NamesPosition (opt_instance meaning key barrier) y offered →
        is_new (verdict_by_digests barrier y.is_open
        (cell_digest_of (opt_instance meaning key barrier) Opt y)
        (register_value_of (opt_instance meaning key barrier) y) offered.place b)
        ≡ is_new (verdict_on Opt y offered.position b) }
{}

/// The messages of a history and a call alone may be that list.
pub fn histories_list_their_messages()
    ensures { (i : Instance) (y : History) (place : Place) (b : Batch) →
        IsClear (history_messages i y ++ offer_messages i place b) →
        AreNoGuards i.barrier (values_in (counted_entries y)) (b ∷ y.batches) →
        IsClearFor (history_messages i y ++ offer_messages i place b) i y place b }
{}
