//! Which turn may come, and that a turn is answered byte by byte.
#![tactic(auto)]

ghost use Rattle.std.specs.List.{list_any};
ghost use Rattle.std.specs.Prelude.{List, None, Some, [], false, if◌then◌else◌, is_none, is_some, nat_le, nat_lt, not, true, ℕ, ◌&&◌, ◌^◌, ◌∷◌, ◌≡◌};
ghost use Rattle.wt_meaning.specs.Handshakes.{is_success};
ghost use Rattle.wt_meaning.specs.History.{History, Pair, actions_out, all_events, can_receive, can_send, is_reset, stream_count, was_finished};
ghost use Rattle.wt_meaning.specs.Lawful.{begins, is_lawful, is_pending, is_response, polls};
ghost use Rattle.wt_meaning.specs.Meaning.{answer_to, history_after, meaning, meaning_from, next, with_pair};
ghost use Rattle.wt_message.specs.Responses.{status_of};
ghost use Rattle.wt_promise.specs.Lists.{is_up};
ghost use Rattle.wt_promise.specs.Promise.{IsHistory};
ghost use Rattle.wt_proto.specs.declared.response_walk.ResponseWalk.TheVariants as responses;
ghost use Rattle.wt_proto.specs.declared.response_walk.ResponseWalk.{ResponseWalk};
ghost use Rattle.wt_turn.specs.Reports.{bis_allowed, credit, end_of, is_acknowledged, is_connected, is_running, loss_of, stop_of, unis_allowed};
ghost use Rattle.wt_turn.specs.Sent.{has_dialled};
ghost use Rattle.wt_turn.specs.Streams.{peer_bi, peer_uni};
ghost use Rattle.wt_turn.specs.declared.answer.Answer.{Answer};
ghost use Rattle.wt_turn.specs.declared.call.Call.TheVariants as calls;
ghost use Rattle.wt_turn.specs.declared.call.Call.{Call};
ghost use Rattle.wt_turn.specs.declared.datagram_fact.DatagramFact.{DatagramFact};
ghost use Rattle.wt_turn.specs.declared.loss.LossReason.{LossReason};
ghost use Rattle.wt_turn.specs.declared.reply.Reply.TheVariants as replies;
ghost use Rattle.wt_turn.specs.declared.reply.Reply.{Reply};
ghost use Rattle.wt_turn.specs.declared.turn.Turn.TheVariants as turns;
ghost use Rattle.wt_turn.specs.declared.turn.Turn.{Turn};
ghost use Rattle.wt_wire.specs.Status.{is_successful};
ghost use Rattle.wt_wire.specs.declared.side.Side.TheVariants.{Client, Server};
ghost use Rattle.wt_wire.specs.declared.side.Side.{Side};

/// A turn of the transport may come as a QUIC connection lets it: after the connection came, which comes once, and before its loss; after the end it is judged as if it counted.
pub fn turns_of_the_transport_come_as_quic_lets_them()
    ensures connected { (side : Side) (h : History) (uni bi total : ℕ) (fact : DatagramFact) → is_lawful side h (turns.Connected uni bi total fact)
        ≡ (elim side [ Server ↦ true | Client ↦ has_dialled (actions_out h) ] && not (is_connected (all_events h)) && not (is_some (loss_of (all_events h)))
        && nat_le uni (2 ^ 60) && nat_le bi (2 ^ 60) && nat_lt total (2 ^ 62)) }
    ensures loss { (side : Side) (h : History) (reason : LossReason) → is_lawful side h (turns.Loss reason)
        ≡ elim side [ Server ↦ is_up h | Client ↦ has_dialled (actions_out h) && not (is_some (loss_of (all_events h))) ] }
    ensures uni { (side : Side) (h : History) → is_lawful side h turns.PeerUni ≡ (is_up h && nat_lt (stream_count side h (peer_uni side)) (2 ^ 60)) }
    ensures bi { (side : Side) (h : History) → is_lawful side h turns.PeerBi ≡ (is_up h && nat_lt (stream_count side h (peer_bi side)) (2 ^ 60)) }
    ensures bytes { (side : Side) (h : History) (k : ℕ) (piece : List ℕ) → is_lawful side h (turns.Bytes k piece) ≡ (is_up h && (can_receive side h k && is_running (end_of (all_events h) k))) }
    ensures end { (side : Side) (h : History) (k : ℕ) → is_lawful side h (turns.End k) ≡ (is_up h && (can_receive side h k && is_running (end_of (all_events h) k))) }
    ensures reset { (side : Side) (h : History) (k code : ℕ) → is_lawful side h (turns.Reset k code) ≡ (is_up h && (can_receive side h k && is_running (end_of (all_events h) k))) }
    ensures stop { (side : Side) (h : History) (k code : ℕ) → is_lawful side h (turns.Stop k code)
        ≡ (is_up h && (can_send side h k && (is_none (stop_of (all_events h) k) && not (is_acknowledged (all_events h) k)))) }
    ensures acked { (side : Side) (h : History) (k : ℕ) → is_lawful side h (turns.Acked k)
        ≡ (is_up h && (was_finished h k && not (is_reset h k) && (is_none (stop_of (all_events h) k) && not (is_acknowledged (all_events h) k)))) }
    ensures datagram { (side : Side) (h : History) (piece : List ℕ) → is_lawful side h (turns.Datagram piece) ≡ (is_up h && true) }
    ensures unis { (side : Side) (h : History) (total : ℕ) → is_lawful side h (turns.MaxUni total) ≡ (is_up h && (nat_le (unis_allowed (all_events h)) total && nat_le total (2 ^ 60))) }
    ensures bis { (side : Side) (h : History) (total : ℕ) → is_lawful side h (turns.MaxBi total) ≡ (is_up h && (nat_le (bis_allowed (all_events h)) total && nat_le total (2 ^ 60))) }
    ensures data { (side : Side) (h : History) (k total : ℕ) → is_lawful side h (turns.MaxData k total)
        ≡ (is_up h && (can_send side h k && nat_le (credit (all_events h) k) total && nat_lt total (2 ^ 62))) }
    ensures limit { (side : Side) (h : History) (fact : DatagramFact) → is_lawful side h (turns.DatagramLimit fact) ≡ (is_up h && true) }
{}

/// A client's first turn is its connect, which comes nowhere else. A server's `Incoming` comes while none failed and no request waits for its answer; the four
/// responses come once each, to the request that the last `Incoming` gave; a `Handshake` while the connect or response polled last waits; every other call after the first turn.
#[tactic(auto, using(crate::proofs::Turns::first_call, crate::proofs::Turns::later_call, crate::proofs::Turns::client_incoming, crate::proofs::Turns::client_response, crate::proofs::Turns::incoming_lawful, crate::proofs::Turns::response_lawful))]
pub fn calls_come_in_their_order()
    ensures first { (side : Side) (c : Call) → is_lawful side [] (turns.Call c) ≡ elim side [ Client ↦ elim c [ calls.Connect options lookup outcome ↦ true | _ ↦ false ] | Server ↦ false ] }
    ensures later { (side : Side) (p : Pair) (h : History) (c : Call) → is_lawful side (p ∷ h) (turns.Call c) ≡ elim c [
      | calls.Connect options lookup outcome ↦ false
      | calls.Incoming ↦ is_lawful side (p ∷ h) (turns.Call calls.Incoming)
      | calls.Handshake ↦ is_lawful side (p ∷ h) (turns.Call calls.Handshake)
      | calls.Accept headers ↦ is_lawful side (p ∷ h) (turns.Call calls.Forbidden)
      | calls.Forbidden ↦ is_lawful side (p ∷ h) (turns.Call calls.Forbidden)
      | calls.NotFound ↦ is_lawful side (p ∷ h) (turns.Call calls.Forbidden)
      | calls.TooManyRequests ↦ is_lawful side (p ∷ h) (turns.Call calls.Forbidden)
      | _ ↦ true
    ] }
    ensures handshake { (side : Side) (p : Pair) (h : History) → is_lawful side (p ∷ h) (turns.Call calls.Handshake)
        ≡ (if polls p.turn then is_pending p.answer.reply else is_lawful side h (turns.Call calls.Handshake)) }
    ensures client_incoming { (h : History) → is_lawful Client h (turns.Call calls.Incoming) ≡ false }
    ensures client_response { (h : History) → is_lawful Client h (turns.Call calls.Forbidden) ≡ false }
    ensures response { (p : Pair) (h : History) → IsHistory Server (p ∷ h) → is_lawful Server (p ∷ h) (turns.Call calls.Forbidden) ≡ elim p.turn [
      | turns.Call c ↦ elim c [
        | calls.Incoming ↦ elim p.answer.reply [ replies.Request id headers ↦ true | _ ↦ false ]
        | other ↦ if is_response other then false else is_lawful Server h (turns.Call calls.Forbidden)
      ]
      | _ ↦ is_lawful Server h (turns.Call calls.Forbidden)
    ] }
    ensures incoming { (p : Pair) (h : History) → IsHistory Server (p ∷ h) → is_lawful Server (p ∷ h) (turns.Call calls.Incoming) ≡ (not (list_any (λ (q : Pair). elim q.turn [
      | turns.Call c ↦ elim c [ calls.Incoming ↦ elim q.answer.reply [ replies.Failed e ↦ true | _ ↦ false ] | _ ↦ false ]
      | _ ↦ false
    ]) (p ∷ h))
        && (not (is_lawful Server (p ∷ h) (turns.Call calls.Forbidden)) && not (is_lawful Server (p ∷ h) (turns.Call calls.Handshake)))) }
{}

/// Which calls begin a connect or response, and go on with it, and which reply waits.
pub fn words_of_calls()
    ensures pending { (r : Reply) → is_pending r ≡ elim r [ replies.Pending ↦ true | _ ↦ false ] }
    ensures responds { (c : Call) → is_response c ≡ elim c [ calls.Accept headers ↦ true | calls.Forbidden ↦ true | calls.NotFound ↦ true | calls.TooManyRequests ↦ true | _ ↦ false ] }
    ensures begins { (c : Call) → begins c ≡ elim c [ calls.Connect options lookup outcome ↦ true | other ↦ is_response other ] }
    ensures success { (w : ResponseWalk) → is_success w ≡ elim w [ responses.Response fields offset ↦ elim (status_of fields) [ Some code ↦ is_successful code | None ↦ false ] | _ ↦ false ] }
    ensures polls { (turn : Turn) → polls turn ≡ elim turn [ turns.Call c ↦ elim c [ calls.Handshake ↦ true | other ↦ begins other ] | _ ↦ false ] }
{}

/// A turn is answered by the one answer to it, and a piece of many bytes by those to its bytes (how they are joined says `pieces_may_be_cut`).
pub fn turns_are_answered_one_by_one()
    ensures answer { (side : Side) (h : History) (turn : Turn) → elim turn [ turns.Bytes id piece ↦ true | _ ↦ false ] ≡ false → answer_to side h turn ≡ next side h turn }
    ensures history { (side : Side) (h : History) (turn : Turn) → elim turn [ turns.Bytes id piece ↦ true | _ ↦ false ] ≡ false → history_after side h turn ≡ record { turn = turn; answer = next side h turn } ∷ h }
    ensures byte { (side : Side) (h : History) (k b : ℕ) → answer_to side h (turns.Bytes k (b ∷ [])) ≡ next side h (turns.Bytes k (b ∷ [])) }
    ensures byte_history { (side : Side) (h : History) (k b : ℕ) → history_after side h (turns.Bytes k (b ∷ [])) ≡ record { turn = turns.Bytes k (b ∷ []); answer = next side h (turns.Bytes k (b ∷ [])) } ∷ h }
    ensures nothing { (side : Side) (h : History) (k : ℕ) → answer_to side h (turns.Bytes k []) ≡ record { reply = replies.Done; actions = [] } }
    ensures nothing_history { (side : Side) (h : History) (k : ℕ) → history_after side h (turns.Bytes k []) ≡ h }
    ensures pair { (h : History) (turn : Turn) (a : Answer) → with_pair h turn a ≡ record { turn = turn; answer = a } ∷ h }
    ensures list { (side : Side) (h : History) (turn : Turn) (later : List Turn) → meaning_from side h (turn ∷ later) ≡ answer_to side h turn ∷ meaning_from side (history_after side h turn) later }
    ensures no_list { (side : Side) (h : History) → meaning_from side h [] ≡ [] }
    ensures meaning { (side : Side) (all : List Turn) → meaning side all ≡ meaning_from side [] all }
{}
