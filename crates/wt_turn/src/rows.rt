//! What the queries of a log say of each kind of entry: worked rows, each a function whose contract
//! is the answers.
ghost use Rattle.std.specs.Prelude.{◌≡◌, ◌∷◌, [], ℕ, true, false, List};
ghost use Rattle.wt_turn.specs.Log.{Log, Event, Entry, CallRecord, Received, Reported, ReportedLate, Sent, Called, Loss, PeerUni, PeerBi, Polled, events_of, all_events_of, actions_of, calls_of, is_open, with_actions};
ghost use Rattle.wt_turn.specs.declared.action.Action.{Action};
ghost use Rattle.wt_turn.specs.declared.action.Action.TheVariants as actions;
ghost use Rattle.wt_turn.specs.declared.loss.LossReason.{LossReason};

/// Entries that report an event, an action and a call, before and after the end.
pub fn queries()
    ensures events { (e : Event) (c : CallRecord)
        → events_of (Reported PeerUni ∷ ReportedLate e ∷ Called c ∷ Reported PeerBi ∷ []) ≡ PeerUni ∷ PeerBi ∷ [] }
    ensures all_events { (a : Action) → all_events_of (ReportedLate PeerUni ∷ Sent a ∷ Reported PeerBi ∷ []) ≡ PeerUni ∷ PeerBi ∷ [] }
    ensures actions { (a b : Action) (e : Event) → actions_of (Sent a ∷ Reported e ∷ Sent b ∷ []) ≡ a ∷ b ∷ [] }
    ensures calls { (a : Action) (c : CallRecord) → calls_of (Called Polled ∷ Sent a ∷ Received 2 0 ∷ Called c ∷ []) ≡ Polled ∷ c ∷ [] }
    ensures oldest_first { (a b : Action) → with_actions (a ∷ b ∷ []) [] ≡ Sent b ∷ Sent a ∷ [] }
{}

/// What ends a connection, and what doesn't.
pub fn ends()
    ensures begun { is_open [] ≡ true }
    ensures byte { (id byte : ℕ) (log : Log) → is_open (Received id byte ∷ log) ≡ is_open log }
    ensures late { (e : Event) (log : Log) → is_open (ReportedLate e ∷ log) ≡ is_open log }
    ensures call { (c : CallRecord) (log : Log) → is_open (Called c ∷ log) ≡ is_open log }
    ensures loss { (reason : LossReason) (log : Log) → is_open (Reported (Loss reason) ∷ log) ≡ false }
    ensures close { (code : ℕ) (reason : List ℕ) (log : Log) → is_open (Sent (actions.Close code reason) ∷ log) ≡ false }
{}
