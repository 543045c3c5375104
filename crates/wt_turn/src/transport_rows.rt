//! What the definitions say of a short run: worked rows, each a function whose contract is the answers.
ghost use Rattle.std.specs.Prelude.{◌≡◌, ◌∷◌, [], None, true, false};
ghost use Rattle.wt_wire.specs.declared.side.Side.TheVariants.{Client, Server};
ghost use Rattle.wt_wire.specs.declared.side.StreamEnd.TheVariants as ends;
ghost use Rattle.wt_turn.specs.declared.action.Action.TheVariants as actions;
ghost use Rattle.wt_turn.specs.declared.datagram_fact.DatagramFact.TheVariants.{Limit};
ghost use Rattle.wt_turn.specs.declared.loss.LossReason.TheVariants as losses;
ghost use Rattle.wt_turn.specs.declared.turn.Turn.TheVariants as turns;
ghost use Rattle.wt_turn.specs.Log.{events_of, with_actions};
ghost use Rattle.wt_turn.specs.Streams.{contents};
ghost use Rattle.wt_turn.specs.Reports.{end_of, stop_of};
ghost use Rattle.wt_turn.specs.Arrivals.{fits, log_turn};
ghost use Rattle.wt_turn.specs.Joined.{joined_actions};
ghost use Rattle.wt_turn.specs.Outgoing.{may_send, opened_id, actions_to_open, actions_to_send};
ghost use Rattle.wt_turn.specs.Unread.{at_start, position_after, given_up, unread};
ghost use Rattle.wt_turn.specs.TransportRows.{closed_log, connected_log, log_with_stream, received_log, sent_log};

/// One stream may be opened, and three bytes sent.
pub fn credit()
    ensures opens { actions_to_open Server connected_log 3 ≡ actions.Opened 3 ∷ [] }
    ensures opens_once { opened_id Server log_with_stream 3 ≡ None }
    ensures opens_no_other_kind { opened_id Server connected_log 1 ≡ None }
    ensures sends_three { actions_to_send log_with_stream 3 (97 ∷ 98 ∷ 99 ∷ 100 ∷ []) ≡ actions.Send 3 (97 ∷ 98 ∷ 99 ∷ []) ∷ [] }
    ensures sends_no_more { actions_to_send sent_log 3 (100 ∷ []) ≡ [] }
    ensures sends_what_is_raised { actions_to_send (log_turn sent_log (turns.MaxData 3 4)) 3 (100 ∷ 101 ∷ []) ≡ actions.Send 3 (100 ∷ []) ∷ [] }
    ensures never_falls { fits Server sent_log (turns.MaxData 3 2) ≡ false }
    ensures may_rise { fits Server sent_log (turns.MaxData 3 4) ≡ true }
{}

/// Which turn may come.
pub fn arrivals()
    ensures elsewhere { fits Server received_log (turns.Bytes 6 (97 ∷ [])) ≡ false }
    ensures not_on_a_sending_half { fits Server received_log (turns.Bytes 3 (97 ∷ [])) ≡ false }
    ensures ends_once { fits Server (log_turn received_log (turns.End 2)) (turns.Reset 2 7) ≡ false }
    ensures stops_once { fits Server (log_turn sent_log (turns.Stop 3 9)) (turns.Stop 3 9) ≡ false }
    ensures acknowledged_unfinished { fits Server sent_log (turns.Acked 3) ≡ false }
    ensures acknowledged { fits Server (with_actions (actions.Finish 3 ∷ []) sent_log) (turns.Acked 3) ≡ true }
    ensures after_a_loss { fits Server (log_turn received_log (turns.Loss losses.TimedOut)) (turns.End 2) ≡ false }
    ensures connects_once { fits Server connected_log (turns.Connected 1 0 3 (Limit 1200)) ≡ false }
    ensures before_a_dial { fits Client [] (turns.Connected 1 0 3 (Limit 1200)) ≡ false }
{}

/// What comes after a close is judged as if it counted, and reported by nothing else.
pub fn late()
    ensures fits_late { fits Server closed_log (turns.Stop 3 9) ≡ true }
    ensures forbids_a_second { fits Server (log_turn closed_log (turns.Stop 3 9)) (turns.Stop 3 9) ≡ false }
    ensures stops_nothing { stop_of (events_of (log_turn closed_log (turns.Stop 3 9))) 3 ≡ None }
    ensures carries_nothing { contents (log_turn closed_log (turns.Bytes 2 (99 ∷ []))) 2 ≡ 97 ∷ 98 ∷ [] }
    ensures ends_nothing { end_of (events_of (log_turn closed_log (turns.End 2))) 2 ≡ ends.Running }
    ensures forbids_more { fits Server (log_turn closed_log (turns.End 2)) (turns.Bytes 2 (99 ∷ [])) ≡ false }
    ensures sends_nothing { may_send Server closed_log 3 ≡ false }
{}

/// What is unread.
pub fn reading()
    ensures all { unread received_log at_start 2 ≡ 97 ∷ 98 ∷ [] }
    ensures rest { unread received_log (position_after at_start 2 1) 2 ≡ 98 ∷ [] }
    ensures none { unread received_log (given_up at_start 2) 2 ≡ [] }
    ensures none_later { unread (log_turn received_log (turns.Bytes 2 (99 ∷ []))) (given_up at_start 2) 2 ≡ [] }
{}

/// What goes out together.
pub fn joining()
    ensures together { joined_actions (actions.Send 3 (98 ∷ []) ∷ actions.Send 3 (97 ∷ []) ∷ []) ≡ actions.Send 3 (97 ∷ 98 ∷ []) ∷ [] }
    ensures other_stream { joined_actions (actions.Send 7 (98 ∷ []) ∷ actions.Send 3 (97 ∷ []) ∷ [])
        ≡ actions.Send 3 (97 ∷ []) ∷ actions.Send 7 (98 ∷ []) ∷ [] }
    ensures apart { joined_actions (actions.Send 3 (98 ∷ []) ∷ actions.Opened 7 ∷ actions.Send 3 (97 ∷ []) ∷ [])
        ≡ actions.Send 3 (97 ∷ []) ∷ actions.Opened 7 ∷ actions.Send 3 (98 ∷ []) ∷ [] }
{}
