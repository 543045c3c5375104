//! What a record of a session of any implementation has to hold to: six rules, and the verdict on a record. README.md has
//! the rules in a table, and what is proved.
#![tactic(auto)]

mod by_id;
pub mod checking;
mod facts;
mod feeding;
mod front;
pub mod program;
mod queue;
pub mod record;
pub mod rows;
mod rules;

ghost use Rattle.std.specs.Prelude.{List, [], false, length, true, ℕ, ◌++◌, ◌∷◌, ◌≡◌};
ghost use Rattle.wt_check.specs.Accepts.{accepts};
ghost use Rattle.wt_check.specs.Datagrams.{receives_rightly};
ghost use Rattle.wt_check.specs.Reads.{reads_rightly};
ghost use Rattle.wt_check.specs.Exact.{BreaksAt, KeepsAll};
ghost use Rattle.wt_check.specs.Records.{Record, recorded};
ghost use Rattle.wt_check.specs.Sends.{sends_rightly};
ghost use Rattle.wt_check.specs.Sessions.{gives_sessions};
ghost use Rattle.wt_check.specs.Turns.{follows};
ghost use Rattle.wt_check.specs.Verdict.{Accepted, Broken, holds, verdict_on};
ghost use Rattle.wt_meaning.specs.History.{Pair};
ghost use Rattle.wt_meaning.specs.Lawful.{is_lawful};
ghost use Rattle.wt_promise.specs.Lists.{history_of};
ghost use Rattle.wt_promise.specs.Promise.{AllLawful};
ghost use Rattle.wt_turn.specs.declared.answer.Answer.{Answer};
ghost use Rattle.wt_turn.specs.declared.turn.Turn.{Turn};
ghost use Rattle.wt_wire.specs.declared.side.Side.{Side};

pub use checking::{Verdicts, check};
pub use program::run_check_program;
pub use record::{Record, read_record};

/// Each lawful list of turns, recorded with its answers, keeps each rule throughout, and so is accepted.
#[tactic(auto, using(crate::proofs::OfTurns::of_turns, crate::proofs::OfSessions::of_sessions, crate::proofs::OfAccepts::of_accepts, crate::proofs::OfReads::of_reads, crate::proofs::OfDatagrams::of_datagrams, crate::proofs::OfSends::of_sends, crate::proofs::Accepted::accepted))]
pub fn lawful_sessions_are_accepted()
    ensures turns { (side : Side) (all : List Turn) → AllLawful side [] all → holds follows (recorded side all) ≡ true }
    ensures sessions { (side : Side) (all : List Turn) → AllLawful side [] all → holds gives_sessions (recorded side all) ≡ true }
    ensures streams { (side : Side) (all : List Turn) → AllLawful side [] all → holds accepts (recorded side all) ≡ true }
    ensures reads { (side : Side) (all : List Turn) → AllLawful side [] all → holds reads_rightly (recorded side all) ≡ true }
    ensures datagrams { (side : Side) (all : List Turn) → AllLawful side [] all → holds receives_rightly (recorded side all) ≡ true }
    ensures sends { (side : Side) (all : List Turn) → AllLawful side [] all → holds sends_rightly (recorded side all) ≡ true }
    ensures accepted { (side : Side) (all : List Turn) → AllLawful side [] all → verdict_on (recorded side all) ≡ Accepted }
{}

/// A turn that isn't lawful after a lawful list is refused by rule 1 at its place, whatever its answer is and whatever follows.
#[tactic(auto, using(crate::proofs::Refused::refused))]
pub fn unlawful_turns_are_refused()
    ensures refused { (side : Side) (first : List Turn) (turn : Turn) (a : Answer) (later : List Pair) → AllLawful side [] first → is_lawful side (history_of side [] first) turn ≡ false
        → verdict_on (record { side = side; pairs = (recorded side first).pairs ++ record { turn = turn; answer = a } ∷ later }) ≡ Broken (length first) 1 }
{}

/// A verdict is exact: a record is accepted exactly where each rule holds throughout; else it is broken at the least place, by the least rule there.
#[tactic(auto, using(crate::proofs::Exact::keeps_accepted, crate::proofs::Exact::accepted_keeps, crate::proofs::Exact::breaks_at))]
pub fn verdicts_are_exact()
    ensures accepted { (r : Record) → KeepsAll r → verdict_on r ≡ Accepted }
    ensures keeps { (r : Record) → verdict_on r ≡ Accepted → KeepsAll r }
    ensures broken { (r : Record) (at rule : ℕ) → verdict_on r ≡ Broken at rule → BreaksAt r at rule }
{}
