//! What is promised of the answers that `wt_meaning` gives: sentences over a history's pairs, and those of them that are
//! proved, each a function with an empty body whose contract is the sentence.
#![tactic(auto)]

pub mod causes;
pub mod found;
pub mod goes_out;
pub mod lawful;
pub mod runs;
pub mod session_streams;
pub mod sides;
pub mod words;

ghost use Rattle.std.specs.List.{list_any};
ghost use Rattle.std.specs.Prelude.{List, Some, [], false, filter, filter_map, is_none, length, map, nat_le, not, take, true, ℕ, ◌&&◌, ◌==◌, ◌≡◌, ◌≤◌};
ghost use Rattle.wt_meaning.specs.Findings.{fault_of};
ghost use Rattle.wt_meaning.specs.History.{History, actions_out, events, is_open, is_reset_of, loses};
ghost use Rattle.wt_meaning.specs.Lawful.{is_lawful};
ghost use Rattle.wt_meaning.specs.Meaning.{meaning, next, run, with_pair};
ghost use Rattle.wt_meaning.specs.Moments.{findings};
ghost use Rattle.wt_meaning.specs.Windows.{admitted_datagram, is_established, received_count, session_in};
ghost use Rattle.wt_promise.specs.Causes.{body, is_over, pieces, session_answer};
ghost use Rattle.wt_promise.specs.Owed.{living, owed_by_turn, told};
ghost use Rattle.wt_promise.specs.Promise.{AllLawful, CutsFreely, EstablishedFor, GoneIsTold, HeadGoesOut, IsHistory, NoneBehind, SendsInOrder, SettingsOut, acts_on, leaves_open, payloads};
ghost use Rattle.wt_turn.specs.Reports.{unis_allowed};
ghost use Rattle.wt_turn.specs.Log.{closes};
ghost use Rattle.wt_turn.specs.declared.turn.Turn.{Turn};
ghost use Rattle.wt_wire.specs.declared.side.Side.{Side};

/// A lawful list is answered whole.
#[tactic(auto, using(crate::proofs::Theorems::whole_theorem))]
pub fn lawful_lists_are_answered_whole()
    ensures whole { (side : Side) (all : List Turn) → AllLawful side [] all → run side all ≡ record { answers = meaning side all; is_all = true } }
{}

/// A piece of a stream may be cut anywhere.
pub fn pieces_may_be_cut()
    ensures cut { (side : Side) (h : History) (k : ℕ) (first second : List ℕ) → CutsFreely side h k first second }
{}

/// Nothing goes out once the connection has ended.
#[tactic(auto, using(crate::proofs::Theorems::after_end_theorem))]
pub fn nothing_goes_out_after_the_end()
    ensures silent { (side : Side) (h : History) (turn : Turn) → is_lawful side h turn ≡ true → is_open h ≡ false → (next side h turn).actions ≡ [] }
{}

/// After a lawful history the connection stays open exactly where no loss came, the call owes no close, and no fault was found.
pub fn connections_stay_open_exactly()
    ensures stays_open { (side : Side) (h : History) (turn : Turn) → IsHistory side h → is_open (with_pair h turn (next side h turn)) ≡ (is_open h && not (loses turn) && not (list_any closes (owed_by_turn side h turn (next side h turn).reply)) && is_none (fault_of (findings side (with_pair h turn (next side h turn))))) }
{}

/// What was read of a stream is a prefix of what follows its header, and the datagrams that a session received are the first of those that were admitted for it.
pub fn what_is_received_is_in_order()
    ensures reads { (side : Side) (h : History) → IsHistory side h → (k : ℕ) → take (length (pieces h k)) (body side h k) ≡ pieces h k }
    ensures datagrams { (side : Side) (h : History) → IsHistory side h → (s : ℕ) → payloads h s ≡ take (received_count h s) (map (λ (d : ℕ × List ℕ). d.1) (filter (λ (d : ℕ × List ℕ). d.0 == s) (filter_map admitted_datagram (findings side h)))) }
{}

/// At most 4 sessions live.
pub fn few_sessions_live()
    ensures few { (side : Side) (h : History) → IsHistory side h → length (living side h) ≤ 4 }
{}

/// How a session ended stays so, from its own end or the connection's on.
pub fn results_stay()
    ensures result { (side : Side) (h : History) (turn : Turn) → IsHistory side h → is_lawful side h turn ≡ true → (s : ℕ) → is_established h s ≡ true → is_over side h s ≡ true → session_answer side (with_pair h turn (next side h turn)) s ≡ session_answer side h s }
{}

/// Where a turn leaves the connection open but for what is found, and the peer allows a unidirectional stream, this end's control stream is open and has as much of its bytes as credit allows.
pub fn settings_go_out()
    ensures settings { (side : Side) (h : History) (turn : Turn) → IsHistory side h → is_lawful side h turn ≡ true → leaves_open side h turn (next side h turn) ≡ true → nat_le 1 (unis_allowed (events (with_pair h turn (next side h turn)))) ≡ true → SettingsOut side (with_pair h turn (next side h turn)) }
{}

/// A response that still waits has sent as much of its head as credit allows, and so has a connect, once the connection and the peer's SETTINGS came and the peer allows a bidirectional stream.
pub fn heads_go_out_as_far_as_credit()
    ensures heads { (side : Side) (h : History) (turn : Turn) → IsHistory side h → is_lawful side h turn ≡ true → HeadGoesOut side h turn (next side h turn) }
{}

/// What went out on a stream is a prefix of its head and of what writes accepted, and all of it once the head is out.
pub fn sends_are_in_order()
    ensures order { (side : Side) (h : History) → IsHistory side h → (k : ℕ) → SendsInOrder side h k }
{}

/// Nothing goes out on a stream after its reset, in a later answer or behind it in the same one, nor a second reset.
pub fn nothing_goes_out_after_a_reset()
    ensures later { (side : Side) (h : History) (turn : Turn) → IsHistory side h → is_lawful side h turn ≡ true → (k : ℕ) → list_any (is_reset_of k) (actions_out h) ≡ true → list_any (acts_on k) (next side h turn).actions ≡ false }
    ensures behind { (side : Side) (h : History) (turn : Turn) → IsHistory side h → is_lawful side h turn ≡ true → (k : ℕ) → NoneBehind (is_reset_of k) (acts_on k) (next side h turn).actions }
{}

/// A session is established on an open connection, once the peer's SETTINGS and a CONNECT or a 2xx came and the whole frame of its request, or of its response of status 200, is out, and only once.
pub fn sessions_are_established_rightly()
    ensures established { (side : Side) (h : History) (turn : Turn) → IsHistory side h → is_lawful side h turn ≡ true → (s : ℕ) → session_in (next side h turn).reply ≡ Some s → EstablishedFor side h (with_pair h turn (next side h turn)) s }
{}

/// Where a session becomes gone, each of its streams that still runs is told in the same answer, also one that is admitted at that very moment.
pub fn streams_of_a_gone_session_are_told()
    ensures told { (side : Side) (h : History) (turn : Turn) → GoneIsTold side h turn (next side h turn) }
{}
