//! The definitions for code (`wt_sessions`) give the answers that `wt_meaning` gives: each theorem a function with an empty body whose
//! contract says it.
#![tactic(auto)]

ghost use Rattle.wt_sessions_agree.specs.Agreement.{ListsAgree, RunsAgree};
ghost use Rattle.wt_wire.specs.declared.side.Side.{Side};

/// What a lawful list of turns means is what the definitions for code answer.
#[tactic(auto, using(crate::proofs::Theorems::lists_theorem))]
pub fn lawful_lists_are_answered_alike()
    ensures alike { (side : Side) → ListsAgree side }
{}

/// Any list of turns runs as far in both, with the same answers.
#[tactic(auto, using(crate::proofs::Theorems::runs_theorem))]
pub fn lists_run_alike()
    ensures alike { (side : Side) → RunsAgree side }
{}
