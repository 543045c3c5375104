//! What the session layer does with several sessions on a connection, as definitions over a log: the driver's table and its
//! moments, what is kept of them, what each call and each event is answered with, which turn may come next.
//! There is no code here: the crates that run are to stand above, and wt_sessions_agree ties these definitions to wt_meaning's.
#![tactic(auto)]

ghost use Rattle.wt_sessions.specs.Claims.{ActionsFollow, LawfulTurnsFit, StateFollows};
ghost use Rattle.wt_wire.specs.declared.side.Side.{Side};

/// What a driver keeps follows the log of every list of lawful turns: what is kept, and what goes out.
#[tactic(auto, using(crate::proofs::Theorems::fit_theorem, crate::proofs::Theorems::state_theorem, crate::proofs::Theorems::actions_theorem))]
pub fn drivers_follow_the_log()
    ensures fit { (side : Side) → LawfulTurnsFit side }
    ensures state { (side : Side) → StateFollows side }
    ensures actions { (side : Side) → ActionsFollow side }
{}
