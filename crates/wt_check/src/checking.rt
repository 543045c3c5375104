//! The check of a record.
ghost use Rattle.std.specs.Prelude.{◌≡◌, ◌∷◌, [], IfOk, None};
ghost use Rattle.wt_check.specs.Datagrams.{receives_rightly};
ghost use Rattle.wt_check.specs.Judged.{IsJudged, said};
ghost use Rattle.wt_check.specs.Keeps.{RulesFollow, TellsOf};
ghost use Rattle.wt_check.specs.Records.{pairs_of};
ghost use Rattle.wt_meaning.specs.History.{History, Pair};
ghost use Rattle.wt_wire.specs.declared.side.Side.{Side};

use crate::facts::Facts;
use crate::rules::accepts::AcceptRule;
use crate::rules::datagrams::DatagramRule;
use crate::rules::reads::ReadRule;
use crate::rules::sends::SendRule;
use crate::rules::sessions::SessionRule;
use crate::rules::turns::TurnRule;
use std::alloc::Global;
use wt_turn::answer::Answer;
use wt_turn::turn::Turn;
use wt_wire::error::OutOfMemory;
use wt_wire::side::Side;

/// The verdict on a record.
#[derive(Clone, Copy, PartialEq, Eq, Debug)]
pub enum Verdicts {
    /// No place breaks a rule.
    Accepted,
    /// This place, counted from 0, is the first that breaks a rule, and this is the least rule that it breaks.
    Broken { at: u64, rule: u8 },
}

/// The six rules over the pairs so far.
#[derive(Drop)]
struct Rules {
    facts: Facts,
    turns: TurnRule,
    sessions: SessionRule,
    accepts: AcceptRule,
    reads: ReadRule,
    datagrams: DatagramRule,
    sends: SendRule,
}

impl Rules {
    /// No pair came.
    fn new(alloc: Global, side: Side) -> Rules
        ensures { RulesFollow side result [] }
    {
        Rules {
            facts: Facts::new(alloc, side),
            turns: TurnRule::new(alloc),
            sessions: SessionRule::new(alloc),
            accepts: AcceptRule::new(alloc),
            reads: ReadRule::new(alloc),
            datagrams: DatagramRule::new(alloc),
            sends: SendRule::new(alloc),
        }
    }

    /// The least rule that the pair breaks; None where all hold, and then the next pair may follow.
    #[tactic(auto, using(crate::proofs::FactLaws::same_facts))]
    fn broken_rule(&mut self, turn: &Turn, answer: &Answer) -> Result<Option<u8>, OutOfMemory>
        ensures datagrams { (side : Side) (h : History) (p : Pair) → p.turn ≡ turn.now → p.answer ≡ answer.now → RulesFollow side self.old h
            → IfOk result (λ broken. TellsOf 5 (receives_rightly side h p) broken) }
        ensures kept { (side : Side) (h : History) (p : Pair) → p.turn ≡ turn.now → p.answer ≡ answer.now → RulesFollow side self.old h
            → IfOk result (λ broken. broken ≡ None → RulesFollow side self.new (p ∷ h)) }
    {
        if !self.turns.may_follow(&self.facts, turn) {
            return Ok(Some(1));
        }
        self.facts.take_turn(turn)?;
        if !self.sessions.holds(&self.facts, turn, answer)? {
            return Ok(Some(2));
        }
        if !self.accepts.holds(&self.facts, turn, &answer.reply)? {
            return Ok(Some(3));
        }
        if !self.reads.holds(&self.facts, turn, &answer.reply)? {
            return Ok(Some(4));
        }
        if !self.datagrams.holds(&self.facts, turn, &answer.reply)? {
            return Ok(Some(5));
        }
        if !self.sends.holds(&self.facts, turn, answer)? {
            return Ok(Some(6));
        }
        self.turns.take(turn, answer)?;
        self.facts.take_answer(turn, answer);
        Ok(None)
    }
}

/// The verdict on the turns of this side, each with its answer, in order.
///
/// # Errors
///
/// `OutOfMemory` where what the rules keep found no memory.
#[tactic(auto, using(crate::proofs::CheckLaws::judged_accepted, crate::proofs::CheckLaws::judged_broken, crate::proofs::CheckLaws::so_far_next, crate::proofs::CheckLaws::holds_next))]
pub fn check(alloc: Global, side: Side, pairs: &[(Turn, Answer)]) -> Result<Verdicts, OutOfMemory>
    ensures { IfOk result (λ v. IsJudged (record { side = side; pairs = pairs_of pairs.now }) (said v)) }
{
    let mut rules = Rules::new(alloc, side);
    for (index, pair) in pairs.iter().enumerate() {
        let broken = rules.broken_rule(&pair.0, &pair.1)?;
        match broken {
            Some(rule) => {
                return Ok(Verdicts::Broken {
                    at: index as u64,
                    rule,
                });
            }
            None => {}
        }
    }
    Ok(Verdicts::Accepted)
}
