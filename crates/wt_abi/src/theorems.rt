//! Laws, each a function whose contract states it.
ghost use Rattle.std.specs.Prelude.{◌≡◌, Some};
ghost use Rattle.wt_abi.specs.Heads.{IsTurn, bytes_of, head_of};
ghost use Rattle.wt_abi.specs.Turns.{turn_of};
ghost use Rattle.wt_turn.specs.declared.turn.Turn.{Turn};

/// Each turn has a head and bytes that give it, so nothing of a connection is out of reach.
#[tactic(auto, using(crate::proofs::HeadLaws::turn_again))]
pub fn each_turn_has_a_head()
    ensures { (turn : Turn) → IsTurn turn → turn_of (head_of turn) (bytes_of turn) ≡ Some turn }
{}
