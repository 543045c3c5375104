//! What is promised of the findings of a history, by the bytes, datagrams and events that came.

ghost use Rattle.wt_meaning.specs.Findings.{Finding, verdict_of};
ghost use Rattle.wt_meaning.specs.Moments.{findings, ids_from};
ghost use Rattle.wt_message.specs.Datagram.{datagram_of};
ghost use Rattle.wt_turn.specs.Reports.{datagrams_of};
ghost use Rattle.wt_turn.specs.Streams.{peer_bi, peer_count, peer_uni};
ghost use Rattle.wt_proto.specs.declared.verdict.Verdict.{Verdict};
ghost use Rattle.std.specs.Prelude.{◌≡◌, ◌∷◌, true, List, Some, filter_map, length, map, take, ℕ, ◌++◌};
ghost use Rattle.wt_meaning.specs.History.{History, Pair, is_open, events};
ghost use Rattle.wt_promise.specs.Found.{AllFound, FaultIsFirst, FoundRightly, IsSubsequence, ShownBy, classified_id, datagrams_read, said_by};
ghost use Rattle.wt_promise.specs.Promise.{IsHistory};
ghost use Rattle.wt_wire.specs.declared.side.Side.{Side};

/// A stream that was classified was opened by the peer, and its contents and its end show what it was classified as, then and from then on.
pub fn streams_are_classified_by_their_bytes()
    ensures classified { (side : Side) (h : History) → IsHistory side h → (k : ℕ) (v : Verdict) → verdict_of (findings side h) k ≡ Some v → ShownBy side h k v }
{}

/// The n-th datagram that was read is the n-th that came.
#[tactic(auto, using(crate::proofs::Facts::datagrams_as_came))]
pub fn datagrams_are_read_as_they_came()
    ensures datagrams { (side : Side) (h : History) → IsHistory side h → map (λ (d : ℕ × List ℕ). Some d) (datagrams_read side h) ≡ map (λ (piece : List ℕ). said_by (datagram_of piece)) (take (length (datagrams_read side h)) (datagrams_of (events h))) }
{}

/// The fault of a moment is the first that is looked for, and SETTINGS come where nothing before them is one.
pub fn a_fault_is_the_first_of_its_moment()
    ensures first { (side : Side) (p : Pair) (h : History) → IsHistory side (p ∷ h) → is_open h ≡ true → FaultIsFirst side p h }
{}

/// While the connection is open all was found that can be, and nothing else: streams as soon as fewer than 4 lower ones of their kind are unclassified,
/// datagrams, the ends of sessions, and SETTINGS on the peer's control stream of least id.
pub fn all_is_found_while_the_connection_is_open()
    ensures all { (side : Side) (h : History) → IsHistory side h → is_open h ≡ true → AllFound side h }
{}

/// What was found stays, and each finding of a moment rests on what came and on what was found before it: windows take 16 streams and 16 datagrams, 4 requests are held.
pub fn what_is_found_stays_and_is_kept_by_counts()
    ensures each { (side : Side) (p : Pair) (h : History) → FoundRightly side p h }
    ensures order { (side : Side) (p : Pair) (h : History) → IsHistory side (p ∷ h) → (new : List Finding) → findings side (p ∷ h) ≡ findings side h ++ new → IsSubsequence (filter_map classified_id new) (ids_from (peer_uni side) 0 (peer_count side (events (p ∷ h)) (peer_uni side)) ++ ids_from (peer_bi side) 0 (peer_count side (events (p ∷ h)) (peer_bi side))) }
{}
