//! What the words of the sentences say, by turns, replies, actions and bytes: each is a filter over a history or over what was found.
#![tactic(auto)]

ghost use Rattle.std.specs.List.{list_any, range_with_len};
ghost use Rattle.std.specs.Option.{option_or};
ghost use Rattle.std.specs.Prelude.{List, None, Option, Some, [], drop, false, filter, filter_map, if◌then◌else◌, is_some, length, nat_lt, not, suc, true, ℕ, ◌%◌, ◌&&◌, ◌*◌, ◌++◌, ◌+◌, ◌-◌, ◌/◌, ◌==◌, ◌||◌, ◌∷◌, ◌≡◌};
ghost use Rattle.wt_meaning.specs.Calls.{being_opened, opened_by};
ghost use Rattle.wt_meaning.specs.Findings.{Classified, DatagramRead, Dequeued, Faulted, Finding, SessionClosed, SettingsRead, control_in, decoder_in, encoder_in, fault_of, first_of, is_classified, is_dequeued, settings_came, verdict_of};
ghost use Rattle.wt_meaning.specs.Handshakes.{was_given};
ghost use Rattle.wt_meaning.specs.History.{History, Pair, actions_out, all_events, can_receive, can_send, contents, credit_left, events, exists, hands_out, is_given_up, is_handed_out, is_open, is_reset, is_reset_of, loses, may_open, next_id, out, stream_count, was_finished};
ghost use Rattle.wt_meaning.specs.Meaning.{next};
ghost use Rattle.wt_meaning.specs.Moments.{control_walk, findings, ids_from, unclassified_before, verdict};
ghost use Rattle.wt_meaning.specs.Sends.{is_of_session, stream_ids};
ghost use Rattle.wt_meaning.specs.Windows.{admitted_datagram, datagrams_in_window, establishes, gone_in, held_requests, is_established, is_gone, is_number, last_request, lives, makes_gone, named, received_count, receives, requests, session_in, session_part, shares_window, streams_in_window, waiting_datagrams};
ghost use Rattle.wt_proto.specs.Bi.{bi_verdict_of};
ghost use Rattle.wt_proto.specs.ControlWalk.{control_walk_of};
ghost use Rattle.wt_proto.specs.ResponseWalk.{response_walk_of};
ghost use Rattle.wt_proto.specs.Uni.{uni_verdict_of};
ghost use Rattle.wt_proto.specs.declared.response_walk.ResponseWalk.TheVariants as responses;
ghost use Rattle.wt_proto.specs.declared.verdict.Verdict.TheVariants as verdicts;
ghost use Rattle.wt_turn.specs.Joined.{newest_first};
ghost use Rattle.wt_turn.specs.Reports.{bis_allowed, credit, end_of, unis_allowed};
ghost use Rattle.wt_turn.specs.Sent.{is_finished, sent_on};
ghost use Rattle.wt_turn.specs.Streams.{local_count, local_uni, peer_count, peer_uni};
ghost use Rattle.wt_turn.specs.Log.{closes};
ghost use Rattle.wt_turn.specs.Turns.{event_of};
ghost use Rattle.wt_turn.specs.declared.action.Action.TheVariants as actions;
ghost use Rattle.wt_turn.specs.declared.action.Action.{Action};
ghost use Rattle.wt_turn.specs.declared.call.Call.TheVariants as calls;
ghost use Rattle.wt_turn.specs.declared.reply.Reply.TheVariants as replies;
ghost use Rattle.wt_turn.specs.declared.reply.Reply.{Reply};
ghost use Rattle.wt_turn.specs.declared.turn.Turn.TheVariants as turns;
ghost use Rattle.wt_turn.specs.declared.turn.Turn.{Turn};
ghost use Rattle.wt_wire.specs.HeaderList.{Fields};
ghost use Rattle.wt_wire.specs.Ids.{is_bidirectional};
ghost use Rattle.wt_wire.specs.declared.side.Side.{Side};

/// The connection is open until its first loss or close. Events and bytes count while it is; what came later counts for what may come next alone.
pub fn words_of_what_came()
    ensures loss { (turn : Turn) → loses turn ≡ elim turn [ turns.Loss reason ↦ true | _ ↦ false ] }
    ensures new { is_open [] ≡ true }
    ensures open { (p : Pair) (h : History) → is_open (p ∷ h) ≡ (is_open h && not (loses p.turn) && not (list_any closes p.answer.actions)) }
    ensures events { (p : Pair) (h : History) → events (p ∷ h) ≡ (if is_open h then elim (event_of p.turn) [ Some e ↦ e ∷ events h | None ↦ events h ] else events h) }
    ensures ever { (p : Pair) (h : History) → all_events (p ∷ h) ≡ elim (event_of p.turn) [ Some e ↦ e ∷ all_events h | None ↦ all_events h ] }
    ensures bytes { (p : Pair) (h : History) (k : ℕ) → contents (p ∷ h) k
        ≡ (if is_open h then elim p.turn [ turns.Bytes id piece ↦ if id == k then contents h k ++ piece else contents h k | _ ↦ contents h k ] else contents h k) }
{}

/// What went out are the actions of all answers. A reset that was answered Done counts after the end too, where nothing goes out.
pub fn words_of_what_went_out()
    ensures actions { (p : Pair) (h : History) → actions_out (p ∷ h) ≡ newest_first p.answer.actions (actions_out h) }
    ensures sent { (h : History) (k : ℕ) → out h k ≡ sent_on (actions_out h) k }
    ensures credit { (h : History) (k : ℕ) → credit_left h k ≡ credit (events h) k - length (sent_on (actions_out h) k) }
    ensures finished { (h : History) (k : ℕ) → was_finished h k ≡ is_finished (actions_out h) k }
    ensures resets { (k : ℕ) (a : Action) → is_reset_of k a ≡ elim a [ actions.ResetOut id code ↦ id == k | _ ↦ false ] }
    ensures reset { (h : History) (k : ℕ) → is_reset h k ≡ (list_any (is_reset_of k) (actions_out h)
        || list_any (λ (p : Pair). elim p.turn [ turns.Call c ↦ elim c [ calls.ResetSend id code ↦ elim p.answer.reply [ replies.Done ↦ id == k | _ ↦ false ] | _ ↦ false ] | _ ↦ false ]) h) }
{}

/// The streams: how many there are, which halves they have, which may be opened, are being opened, were handed out and given up.
pub fn words_of_streams()
    ensures count { (side : Side) (h : History) (kind : ℕ) → stream_count side h kind ≡ peer_count side (all_events h) kind + local_count (actions_out h) kind }
    ensures there { (side : Side) (h : History) (k : ℕ) → exists side h k ≡ nat_lt (k / 4) (stream_count side h (k % 4)) }
    ensures receives { (side : Side) (h : History) (k : ℕ) → can_receive side h k ≡ (exists side h k && not (k % 4 == local_uni side)) }
    ensures sends { (side : Side) (h : History) (k : ℕ) → can_send side h k ≡ (exists side h k && not (k % 4 == peer_uni side)) }
    ensures allowed { (side : Side) (h : History) (kind : ℕ) → may_open side h kind
        ≡ (is_open h && nat_lt (stream_count side h kind) (if kind == local_uni side then unis_allowed (events h) else bis_allowed (events h))) }
    ensures next { (side : Side) (h : History) (kind : ℕ) → next_id side h kind ≡ 4 * stream_count side h kind + kind }
    ensures begun { (k : ℕ) (turn : Turn) (r : Reply) → opened_by k turn r ≡ elim turn [
      | turns.Call c ↦ elim c [
        | calls.OpenUni name ↦ elim r [ replies.Opening id ↦ if id == k then Some name else None | _ ↦ None ]
        | calls.OpenBi name ↦ elim r [ replies.Opening id ↦ if id == k then Some name else None | _ ↦ None ]
        | _ ↦ None
      ]
      | _ ↦ None
    ] }
    ensures opening { (h : History) (k : ℕ) → being_opened h k ≡ (if list_any (λ (p : Pair). elim p.turn [
      | turns.Call c ↦ elim c [
        | calls.PollOpening id ↦ elim p.answer.reply [
          | replies.Pending ↦ false
          | replies.NoStream ↦ false
          | replies.NoSession ↦ false
          | _ ↦ id == k
        ]
        | _ ↦ false
      ]
      | _ ↦ false
    ]) h
        then None else first_of (λ (p : Pair). opened_by k p.turn p.answer.reply) h) }
    ensures hands { (k : ℕ) (r : Reply) → hands_out k r
        ≡ elim r [ replies.Uni id ↦ id == k | replies.Bi id ↦ id == k | replies.SendReady id ↦ id == k | replies.BiReady id ↦ id == k | _ ↦ false ] }
    ensures handed { (h : History) (k : ℕ) → is_handed_out h k ≡ list_any (λ (p : Pair). hands_out k p.answer.reply) h }
    ensures given_up { (h : History) (k : ℕ) → is_given_up h k
        ≡ list_any (λ (p : Pair). elim p.turn [ turns.Call c ↦ elim c [ calls.StopRecv id code ↦ elim p.answer.reply [ replies.Done ↦ id == k | _ ↦ false ] | _ ↦ false ] | _ ↦ false ]) h }
{}

/// The sessions: a reply establishes one, a call that names none means the first; a call or a finding makes one gone.
pub fn words_of_sessions()
    ensures given { (r : Reply) → session_in r ≡ elim r [ replies.Session id ↦ Some id | _ ↦ None ] }
    ensures established { (p : Pair) (h : History) (s : ℕ) → is_established (p ∷ h) s ≡ (is_number s (session_in p.answer.reply) || is_established h s) }
    ensures first { (p : Pair) (h : History) → named (p ∷ h) None ≡ option_or (named h None) (session_in p.answer.reply) }
    ensures named { (h : History) (s : ℕ) → named h (Some s) ≡ (if is_established h s then Some s else None) }
    ensures number { (n : ℕ) (o : Option ℕ) → is_number n o ≡ elim o [ Some m ↦ m == n | None ↦ false ] }
    ensures gives { (p : Pair) → establishes p ≡ session_in p.answer.reply }
    ensures asks { (p : Pair) → requests p ≡ elim p.answer.reply [ replies.Request id headers ↦ Some id | _ ↦ None ] }
    ensures asked { (p : Pair) (h : History) (k : ℕ) → was_given (p ∷ h) k ≡ (is_number k (requests p) || was_given h k) }
    ensures request { (p : Pair) (h : History) → last_request (p ∷ h) ≡ elim p.answer.reply [ replies.Request id headers ↦ Some id | _ ↦ last_request h ] }
    ensures gone_by_call { (h : History) (turn : Turn) (r : Reply) → gone_in h turn r ≡ elim turn [
      | turns.Call c ↦ elim c [
        | calls.EndSession name ↦ elim r [ replies.Rejected ↦ last_request h | _ ↦ if is_open h then named h name else None ]
        | _ ↦ elim r [ replies.Rejected ↦ last_request h | _ ↦ None ]
      ]
      | _ ↦ elim r [ replies.Rejected ↦ last_request h | _ ↦ None ]
    ] }
    ensures gone_by_finding { (s : ℕ) (f : Finding) → makes_gone s f ≡ elim f [
      | SessionClosed session code reason by_capsule ↦ session == s
      | Classified id v keeps ↦ elim v [ verdicts.Refused code ↦ id == s | verdicts.Request headers offset ↦ id == s && not keeps | _ ↦ false ]
      | _ ↦ false
    ] }
    ensures gone { (p : Pair) (h : History) (found : List Finding) (s : ℕ) → is_gone (p ∷ h) found s ≡ (is_number s (gone_in h p.turn p.answer.reply) || is_gone h found s) }
    ensures gone_first { (found : List Finding) (s : ℕ) → is_gone [] found s ≡ list_any (makes_gone s) found }
    ensures lives { (h : History) (found : List Finding) (s : ℕ) → lives h found s ≡ (is_established h s && not (is_gone h found s)) }
{}

/// What waits in a window: what was admitted and not given; of a session that is established, or of all that aren't and aren't gone.
pub fn words_of_windows()
    ensures shares { (h : History) (found : List Finding) (s other : ℕ) → shares_window h found s other ≡ (if is_established h s then other == s else not (is_established h other) && not (is_gone h found other)) }
    ensures streams { (h : History) (found : List Finding) (s : ℕ) → streams_in_window h found s ≡ length (filter (λ (w : ℕ × ℕ). shares_window h found s w.1)
        (filter (λ (w : ℕ × ℕ). not (is_handed_out h w.0) && not (is_gone h found w.1))
        (filter_map (λ (f : Finding). elim f [ Classified id v keeps ↦ elim v [ verdicts.WebTransport session offset ↦ if keeps then Some (id, session) else None | _ ↦ None ] | _ ↦ None ]) found))) }
    ensures admitted { (f : Finding) → admitted_datagram f ≡ elim f [ DatagramRead index session payload keeps ↦ if keeps then Some (session, payload) else None | _ ↦ None ] }
    ensures receives { (h : History) (s : ℕ) (turn : Turn) (r : Reply) → receives h s turn r
        ≡ elim turn [ turns.Call c ↦ elim c [ calls.ReceiveDatagram name ↦ elim r [ replies.Datagram payload ↦ is_number s (named h name) | _ ↦ false ] | _ ↦ false ] | _ ↦ false ] }
    ensures received { (p : Pair) (h : History) (s : ℕ) → received_count (p ∷ h) s ≡ (if receives h s p.turn p.answer.reply then suc (received_count h s) else received_count h s) }
    ensures waiting { (h : History) (found : List Finding) (s : ℕ) → waiting_datagrams h found s ≡ drop (received_count h s) (filter (λ (d : ℕ × List ℕ). d.0 == s) (filter_map admitted_datagram found)) }
    ensures datagrams { (h : History) (found : List Finding) (s : ℕ) → datagrams_in_window h found s ≡ (if is_established h s then length (waiting_datagrams h found s)
        else length (filter (λ (d : ℕ × List ℕ). shares_window h found s d.0) (filter_map admitted_datagram found))) }
    ensures requests { (h : History) (found : List Finding) → held_requests h found ≡ length (filter (λ (q : ℕ × Fields). not (is_gone h found q.0))
        (filter_map (λ (f : Finding). elim f [ Classified id v keeps ↦ elim v [ verdicts.Request headers offset ↦ if keeps then Some (id, headers) else None | _ ↦ None ] | _ ↦ None ]) found)) }
{}

/// A session's part of its stream begins behind the frame of its request or response; a control, encoder's or decoder's stream where its verdict says.
#[tactic(auto, using(crate::proofs::Turns::all_ids, crate::proofs::Turns::session_has))]
pub fn words_of_stream_parts()
    ensures part { (h : History) (found : List Finding) (s : ℕ) → session_part h found s ≡ drop (elim (verdict_of found s) [
      | Some v ↦ elim v [ verdicts.Request headers offset ↦ offset | _ ↦ elim (response_walk_of (contents h s) (end_of (events h) s)) [ responses.Response fields offset ↦ offset | _ ↦ 0 ] ]
      | None ↦ elim (response_walk_of (contents h s) (end_of (events h) s)) [ responses.Response fields offset ↦ offset | _ ↦ 0 ]
    ]) (contents h s) }
    ensures walk { (h : History) (stream : Option (ℕ × ℕ)) → control_walk h stream ≡ elim stream [
      | Some at ↦ control_walk_of (drop at.1 (contents h at.0)) (end_of (events h) at.0)
      | None ↦ record { settings = None; fault = None }
    ] }
    ensures control { (f : Finding) → control_in f ≡ elim f [ Classified id v keeps ↦ elim v [ verdicts.Control offset ↦ Some (id, offset) | _ ↦ None ] | _ ↦ None ] }
    ensures encoder { (f : Finding) → encoder_in f ≡ elim f [ Classified id v keeps ↦ elim v [ verdicts.Encoder offset ↦ Some (id, offset) | _ ↦ None ] | _ ↦ None ] }
    ensures decoder { (f : Finding) → decoder_in f ≡ elim f [ Classified id v keeps ↦ elim v [ verdicts.Decoder offset ↦ Some (id, offset) | _ ↦ None ] | _ ↦ None ] }
    ensures before { (found : List Finding) (k : ℕ) → unclassified_before found k ≡ length (filter (λ (j : ℕ). not (is_classified found j)) (ids_from (k % 4) 0 (k / 4))) }
    ensures ids { (kind n count : ℕ) → ids_from kind n (suc count) ≡ (4 * n + kind) ∷ ids_from kind (suc n) count }
    ensures of_session { (h : History) (found : List Finding) (s k : ℕ) → is_of_session h found s k ≡ (list_any (λ (f : Finding). elim f [
      | Classified id v keeps ↦ elim v [ verdicts.WebTransport session offset ↦ keeps && (id == k && session == s) | _ ↦ false ]
      | _ ↦ false
    ]) found
        || list_any (λ (p : Pair). elim (opened_by k p.turn p.answer.reply) [ Some name ↦ is_number s (named h name) | None ↦ false ]) h) }
    ensures all { (side : Side) (h : History) → stream_ids side h
        ≡ range_with_len 0 (4 * (stream_count side h 0 + stream_count side h 1 + stream_count side h 2 + stream_count side h 3)) }
{}

/// What the list of findings says: which streams are read and classified, whether SETTINGS came, which fault; and what a stream's bytes and its end show.
pub fn words_of_findings()
    ensures read { (found : List Finding) (k : ℕ) → is_dequeued found k ≡ list_any (λ (f : Finding). elim f [ Dequeued id ↦ id == k | _ ↦ false ]) found }
    ensures shown { (f : Finding) (found : List Finding) (k : ℕ) → verdict_of (f ∷ found) k ≡ elim f [ Classified id v keeps ↦ if id == k then Some v else verdict_of found k | _ ↦ verdict_of found k ] }
    ensures classified { (found : List Finding) (k : ℕ) → is_classified found k ≡ is_some (verdict_of found k) }
    ensures settings { (found : List Finding) → settings_came found ≡ list_any (λ (f : Finding). elim f [ SettingsRead ↦ true | _ ↦ false ]) found }
    ensures fault { (f : Finding) (found : List Finding) → fault_of (f ∷ found) ≡ elim f [ Faulted code ↦ Some code | _ ↦ fault_of found ] }
    ensures verdict { (h : History) (k : ℕ) → verdict h k
        ≡ (if is_bidirectional k then bi_verdict_of (contents h k) (end_of (events h) k) else uni_verdict_of (contents h k) (end_of (events h) k)) }
{}

/// Of a connection of which nothing came, and of no findings, all this is nothing.
#[tactic(auto, using(crate::proofs::Turns::none_found))]
pub fn words_of_nothing()
    ensures events { events [] ≡ [] }
    ensures ever { all_events [] ≡ [] }
    ensures bytes { (k : ℕ) → contents [] k ≡ [] }
    ensures actions { actions_out [] ≡ [] }
    ensures established { (s : ℕ) → is_established [] s ≡ false }
    ensures first { named [] None ≡ None }
    ensures request { last_request [] ≡ None }
    ensures asked { (k : ℕ) → was_given [] k ≡ false }
    ensures received { (s : ℕ) → received_count [] s ≡ 0 }
    ensures found { (side : Side) → findings side [] ≡ [] }
    ensures shown { (k : ℕ) → verdict_of [] k ≡ None }
    ensures fault { fault_of [] ≡ None }
    ensures ids { (kind n : ℕ) → ids_from kind n 0 ≡ [] }
{}
