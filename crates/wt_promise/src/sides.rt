//! What one side can say of another's answers by the bytes that came.

ghost use Rattle.std.specs.List.{list_any};
ghost use Rattle.std.specs.Prelude.{List, None, Some, [], false, filter_map, length, not, true, ℕ, ◌%◌, ◌&&◌, ◌==◌, ◌||◌, ◌∷◌, ◌≡◌};
ghost use Rattle.wt_meaning.specs.Findings.{control_in, first_of, is_classified, is_dequeued};
ghost use Rattle.wt_meaning.specs.History.{History, actions_out, events, exists, is_open, was_finished};
ghost use Rattle.wt_meaning.specs.Lawful.{is_lawful};
ghost use Rattle.wt_meaning.specs.Meaning.{next, with_pair};
ghost use Rattle.wt_meaning.specs.Moments.{control_walk, findings, ids_from, verdict};
ghost use Rattle.wt_meaning.specs.Windows.{lives, session_in};
ghost use Rattle.wt_promise.specs.Causes.{left_of};
ghost use Rattle.wt_promise.specs.Found.{IsSubsequence, session_walk};
ghost use Rattle.wt_promise.specs.Owed.{handshake_stream};
ghost use Rattle.wt_promise.specs.Promise.{IsHistory, NoneBehind, acts_on, payloads, sends_on};
ghost use Rattle.wt_promise.specs.Sides.{RequestGiven, SessionGiven, StillWaits, StreamGiven, arrived, brings_streams, is_about, opened_before, opened_first, opens_of};
ghost use Rattle.wt_proto.specs.Uni.{is_final};
ghost use Rattle.wt_proto.specs.declared.session_walk.SessionWalk.TheVariants as walks;
ghost use Rattle.wt_turn.specs.Reports.{end_of};
ghost use Rattle.wt_turn.specs.Sent.{finishes};
ghost use Rattle.wt_turn.specs.Streams.{local_bi, local_count, local_uni, peer_bi, peer_uni};
ghost use Rattle.wt_turn.specs.Turns.{is_call};
ghost use Rattle.wt_turn.specs.declared.action.Action.TheVariants as actions;
ghost use Rattle.wt_turn.specs.declared.action.Action.{Action};
ghost use Rattle.wt_turn.specs.declared.call.Call.TheVariants as calls;
ghost use Rattle.wt_turn.specs.declared.call.Call.{Call};
ghost use Rattle.wt_turn.specs.declared.reply.Reply.TheVariants as replies;
ghost use Rattle.wt_turn.specs.declared.stream_error.StreamReadError.TheVariants as reads;
ghost use Rattle.wt_turn.specs.declared.stream_error.StreamReadExactError.TheVariants as exacts;
ghost use Rattle.wt_turn.specs.declared.turn.Turn.TheVariants as turns;
ghost use Rattle.wt_turn.specs.declared.turn.Turn.{Turn};
ghost use Rattle.wt_wire.specs.HeaderList.{Fields};
ghost use Rattle.wt_wire.specs.declared.side.Side.TheVariants.{Client, Server};
ghost use Rattle.wt_wire.specs.declared.side.Side.{Side};
ghost use Rattle.wt_wire.specs.declared.side.StreamEnd.TheVariants as ends;

/// A stream that a reply gives answers an accept of its kind, was opened by the peer, wasn't handed out before, and has the header of the session that the call names at its front.
pub fn accepted_streams_are_the_peers()
    ensures uni { (side : Side) (h : History) (turn : Turn) → IsHistory side h → (k : ℕ) → (next side h turn).reply ≡ replies.Uni k → StreamGiven side h turn k (peer_uni side) calls.AcceptUni }
    ensures bi { (side : Side) (h : History) (turn : Turn) → IsHistory side h → (k : ℕ) → (next side h turn).reply ≡ replies.Bi k → StreamGiven side h turn k (peer_bi side) calls.AcceptBi }
{}

/// A request that a reply gives answers an `Incoming`, is new, and stands on a stream that the peer opened; so does the request of a server's session, and the peer's
/// control stream of least id has its SETTINGS.
pub fn requests_and_sessions_rest_on_bytes()
    ensures request { (side : Side) (h : History) (turn : Turn) → IsHistory side h → (k : ℕ) (headers : Fields) → (next side h turn).reply ≡ replies.Request k headers → RequestGiven side h turn k headers }
    ensures session { (side : Side) (h : History) (turn : Turn) → IsHistory side h → is_lawful side h turn ≡ true → (s : ℕ) → session_in (next side h turn).reply ≡ Some s → SessionGiven side h s }
{}

/// The payloads that a session received came for it, in that order.
pub fn payloads_came_in_order()
    ensures came { (side : Side) (h : History) → IsHistory side h → (s : ℕ) → IsSubsequence (payloads h s) (arrived h s) }
{}

/// A read says that a stream was reset only once that reset came, a `Read` once all bytes before it were read.
#[tactic(auto, using(crate::proofs::Clauses::reset_read, crate::proofs::Clauses::reset_exact))]
pub fn resets_are_read_rightly()
    ensures read { (side : Side) (h : History) (id size code : ℕ) → (next side h (turns.Call (calls.Read id size))).reply ≡ replies.ReadFailed (reads.Reset code)
        → (end_of (events h) id ≡ ends.Reset code) × (left_of side h id ≡ []) }
    ensures exact { (side : Side) (h : History) (id size code : ℕ) (piece : List ℕ) → (next side h (turns.Call (calls.ReadExact id size))).reply ≡ replies.ExactFailed (exacts.Read (reads.Reset code)) piece
        → end_of (events h) id ≡ ends.Reset code }
{}

/// A call finds nothing, unless it establishes a session.
pub fn calls_find_nothing()
    ensures nothing { (side : Side) (h : History) (call : Call) → IsHistory side h → is_lawful side h (turns.Call call) ≡ true → session_in (next side h (turns.Call call)).reply ≡ None → findings side (with_pair h (turns.Call call) (next side h (turns.Call call))) ≡ findings side h }
{}

/// A byte by which its stream doesn't become ripe, nor its control stream's or session's walk says anything new, is found nowhere, and nothing goes out at it.
#[tactic(auto, using(crate::proofs::QuietBytes::quiet_byte))]
pub fn bytes_that_complete_nothing_are_quiet()
    ensures quiet { (side : Side) (h : History) (k b : ℕ) → IsHistory side h → is_lawful side h (turns.Bytes k (b ∷ [])) ≡ true
        → (is_dequeued (findings side h) k && not (is_classified (findings side h) k) && is_final (verdict (with_pair h (turns.Bytes k (b ∷ [])) (next side h (turns.Bytes k (b ∷ [])))) k)) ≡ false
        → control_walk (with_pair h (turns.Bytes k (b ∷ [])) (next side h (turns.Bytes k (b ∷ [])))) (first_of control_in (findings side h)) ≡ control_walk h (first_of control_in (findings side h))
        → (lives h (findings side h) k ≡ true → session_walk (with_pair h (turns.Bytes k (b ∷ [])) (next side h (turns.Bytes k (b ∷ [])))) (findings side h) k ≡ walks.Running)
        → (findings side (with_pair h (turns.Bytes k (b ∷ [])) (next side h (turns.Bytes k (b ∷ [])))) ≡ findings side h) × ((next side h (turns.Bytes k (b ∷ []))).actions ≡ []) }
{}

/// The streams that an answer opens are the next ones of a kind that is this end's, in order, and each is opened before anything goes out on it, and before it is stopped.
pub fn streams_are_opened_in_order()
    ensures next { (side : Side) (h : History) (turn : Turn) → IsHistory side h → is_lawful side h turn ≡ true → (kind : ℕ) → filter_map (opens_of kind) (next side h turn).actions
        ≡ ids_from kind (local_count (actions_out h) kind) (length (filter_map (opens_of kind) (next side h turn).actions)) }
    ensures own { (side : Side) (h : History) (turn : Turn) → IsHistory side h → is_lawful side h turn ≡ true → (kind : ℕ) → (local_uni side == kind || local_bi side == kind) ≡ false → filter_map (opens_of kind) (next side h turn).actions ≡ [] }
    ensures first { (side : Side) (h : History) (turn : Turn) → IsHistory side h → is_lawful side h turn ≡ true → (k : ℕ) → (local_uni side == k % 4 || local_bi side == k % 4) ≡ true → exists side h k ≡ false → opened_first k (next side h turn).actions ≡ true }
    ensures stops { (side : Side) (h : History) (turn : Turn) → IsHistory side h → is_lawful side h turn ≡ true → (k : ℕ) → (local_uni side == k % 4 || local_bi side == k % 4) ≡ true → exists side h k ≡ false → opened_before (λ (a : Action). elim a [ actions.StopOut id code ↦ id == k | _ ↦ false ]) k (next side h turn).actions ≡ true }
{}

/// A call that would wait on a stream still would after a turn that isn't about that stream, where nothing goes out on it.
pub fn calls_on_a_stream_wait_on()
    ensures waits { (side : Side) (h : History) (turn : Turn) → IsHistory side h → is_lawful side h turn ≡ true → StillWaits side h turn (next side h turn) }
{}

/// A turn of the transport at which nothing is found and nothing goes out leaves the reply to a call that may wait as it is, unless it is about the stream on which the call
/// waits, or brings more streams where it waits for one.
pub fn calls_wait_on_under_the_transport()
    ensures alike { (side : Side) (h : History) (turn : Turn) (call : Call) → IsHistory side h → is_call turn ≡ false → is_open h ≡ true → is_open (with_pair h turn (next side h turn)) ≡ true
        → findings side (with_pair h turn (next side h turn)) ≡ findings side h → (next side h turn).actions ≡ [] → elim call [
          | calls.PollOpening id ↦ is_about id turn
          | calls.Handshake ↦ is_about (handshake_stream h) turn || elim side [ Client ↦ brings_streams turn | Server ↦ false ]
          | calls.OpenUni name ↦ brings_streams turn
          | calls.OpenBi name ↦ brings_streams turn
          | calls.AcceptUni name ↦ false
          | calls.AcceptBi name ↦ false
          | calls.ReceiveDatagram name ↦ false
          | calls.Incoming ↦ false
          | calls.Closed ↦ false
          | _ ↦ true
        ] ≡ false
        → (next side (with_pair h turn (next side h turn)) (turns.Call call)).reply ≡ (next side h (turns.Call call)).reply }
{}

/// Nothing is sent on a stream after its finish, in a later answer or behind it in the same one, nor a second finish.
pub fn nothing_is_sent_after_a_finish()
    ensures later { (side : Side) (h : History) (turn : Turn) → IsHistory side h → is_lawful side h turn ≡ true → (k : ℕ) → was_finished h k ≡ true → list_any (sends_on k) (next side h turn).actions ≡ false }
    ensures behind { (side : Side) (h : History) (turn : Turn) → IsHistory side h → is_lawful side h turn ≡ true → (k : ℕ) → NoneBehind (finishes k) (sends_on k) (next side h turn).actions }
{}
