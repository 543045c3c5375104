//! Worked records of a server, each with its verdict: two that are accepted, and one that breaks each rule.

ghost use Rattle.std.specs.Prelude.{Some, [], ◌∷◌, ◌≡◌};
ghost use Rattle.wt_check.specs.Rows.{connected, of_server};
ghost use Rattle.wt_check.specs.Verdict.{Accepted, Broken};
ghost use Rattle.wt_meaning.specs.Rows.{answer};
ghost use Rattle.wt_turn.specs.declared.action.Action.TheVariants as actions;
ghost use Rattle.wt_turn.specs.declared.call.Call.TheVariants as calls;
ghost use Rattle.wt_turn.specs.declared.reply.Reply.TheVariants as replies;
ghost use Rattle.wt_turn.specs.declared.turn.Turn.TheVariants as turns;

/// What no rule refuses: that nothing is recorded, and a server that sends nothing at all.
pub fn silent_records_are_accepted()
    ensures nothing { of_server [] [] ≡ Accepted }
    ensures silent { of_server (connected ∷ turns.PeerUni ∷ turns.Call calls.Incoming ∷ [])
        (answer replies.Done [] ∷ answer replies.Done [] ∷ answer replies.Pending [] ∷ []) ≡ Accepted }
{}

/// A record that breaks each rule, at the place at which it does.
pub fn each_rule_refuses()
    ensures turns { of_server (turns.Call calls.Incoming ∷ []) (answer replies.Pending [] ∷ []) ≡ Broken 0 1 }
    ensures sessions { of_server (connected ∷ turns.Call calls.Incoming ∷ []) (answer replies.Done [] ∷ answer (replies.Session 0) [] ∷ []) ≡ Broken 1 2 }
    ensures streams { of_server (connected ∷ turns.Call (calls.AcceptUni (Some 0)) ∷ []) (answer replies.Done [] ∷ answer (replies.Uni 2) [] ∷ []) ≡ Broken 1 3 }
    ensures reads { of_server (connected ∷ turns.Call (calls.PollOpening 1) ∷ turns.Call (calls.Read 1 16) ∷ [])
        (answer replies.Done [] ∷ answer (replies.BiReady 1) [] ∷ answer (replies.Read (Some (0x61 ∷ []))) [] ∷ []) ≡ Broken 2 4 }
    ensures datagrams { of_server (connected ∷ turns.Call (calls.ReceiveDatagram (Some 0)) ∷ [])
        (answer replies.Done [] ∷ answer (replies.Datagram (0x61 ∷ [])) [] ∷ []) ≡ Broken 1 5 }
    ensures sends { of_server (connected ∷ turns.Call (calls.PollOpening 1) ∷ [])
        (answer replies.Done [] ∷ answer (replies.BiReady 1) (actions.Send 1 (0x61 ∷ []) ∷ []) ∷ []) ≡ Broken 1 6 }
{}
