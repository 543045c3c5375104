//! What goes out with each answer.
#![tactic(auto)]

ghost use Rattle.wt_turn.specs.Joined.{join_all};
ghost use Rattle.wt_promise.specs.Owed.{owed_by_moment, owed_by_turn};
ghost use Rattle.std.specs.Prelude.{◌≡◌, false, true, ℕ, [], ◌++◌};
ghost use Rattle.wt_meaning.specs.History.{History};
ghost use Rattle.wt_meaning.specs.Lawful.{is_lawful};
ghost use Rattle.wt_meaning.specs.Meaning.{next};
ghost use Rattle.wt_meaning.specs.Windows.{is_established};
ghost use Rattle.wt_promise.specs.Promise.{HeaderGoesOut, IsHistory};
ghost use Rattle.wt_turn.specs.declared.call.Call.TheVariants as calls;
ghost use Rattle.wt_turn.specs.declared.connecting_error.ConnectingError.{ConnectingError};
ghost use Rattle.wt_turn.specs.declared.reply.Reply.TheVariants as replies;
ghost use Rattle.wt_turn.specs.declared.turn.Turn.{Turn};
ghost use Rattle.wt_turn.specs.declared.turn.Turn.TheVariants as turns;
ghost use Rattle.wt_wire.specs.declared.side.Side.{Side};

/// What a call, this end's control stream and each finding of the moment owe goes out in this order, each once, and nothing else does.
#[tactic(auto, using(crate::proofs::Theorems::owed_theorem))]
pub fn what_is_owed_goes_out()
    ensures owed { (side : Side) (h : History) (turn : Turn) → (next side h turn).actions ≡ join_all [] (owed_by_turn side h turn (next side h turn).reply ++ owed_by_moment side h turn (next side h turn)) }
{}

/// An opening that is polled and goes on, or is through, has sent as much of its header as credit allows.
#[tactic(auto, using(crate::proofs::Theorems::header_theorem))]
pub fn headers_go_out_as_far_as_credit()
    ensures headers { (side : Side) (h : History) (k : ℕ) → IsHistory side h → is_lawful side h (turns.Call (calls.PollOpening k)) ≡ true → HeaderGoesOut side h k (next side h (turns.Call (calls.PollOpening k))) }
{}

/// A connect that fails as it goes on, and so closes an open connection, finds no session.
#[tactic(auto, using(crate::proofs::Theorems::alone_theorem))]
pub fn connects_fail_where_no_session_is()
    ensures alone { (side : Side) (h : History) (e : ConnectingError) → IsHistory side h → is_lawful side h (turns.Call calls.Handshake) ≡ true
        → (next side h (turns.Call calls.Handshake)).reply ≡ replies.ConnectFailed e → (s : ℕ) → is_established h s ≡ false }
{}
