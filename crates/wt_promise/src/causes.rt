//! Why each turn has its reply, and when it waits.
#![tactic(auto)]

ghost use Rattle.std.specs.Prelude.{◌≡◌, true};
ghost use Rattle.wt_meaning.specs.History.{History, is_open};
ghost use Rattle.wt_meaning.specs.Lawful.{is_lawful, is_pending};
ghost use Rattle.wt_meaning.specs.Meaning.{next};
ghost use Rattle.wt_promise.specs.Causes.{reply_to};
ghost use Rattle.wt_promise.specs.Promise.{IsHistory};
ghost use Rattle.wt_turn.specs.declared.turn.Turn.{Turn};
ghost use Rattle.wt_wire.specs.declared.side.Side.{Side};

/// A call is answered by the first of its causes that holds, and waits where none does; every other turn is answered Done.
#[tactic(auto, using(crate::proofs::Theorems::cause_theorem))]
pub fn replies_have_their_causes()
    ensures caused { (side : Side) (h : History) (turn : Turn) → (next side h turn).reply ≡ reply_to side h turn }
{}

/// A call waits only while the connection is open.
#[tactic(auto, using(crate::proofs::Theorems::waits_theorem))]
pub fn calls_wait_while_the_connection_is_open()
    ensures waits { (side : Side) (h : History) (turn : Turn) → IsHistory side h → is_lawful side h turn ≡ true → is_pending (next side h turn).reply ≡ true → is_open h ≡ true }
{}
