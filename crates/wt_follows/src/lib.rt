//! That what the driver of a connection keeps follows the log: the tie between both, and a lemma for each step and each call.
//! There is no code here: what is proved of turns of the transport is the contract of a function with an empty body.
#![tactic(auto)]

ghost use Rattle.wt_follows.specs.Answering.{AnswersTransport};
ghost use Rattle.wt_wire.specs.declared.side.Side.{Side};

/// A driver that begins, and that keeps what the definitions say turn by turn, answers every list of turns of the transport that
/// may come as is due: each is done, and what is collected after it are the actions that went out at it.
#[tactic(auto, using(crate::proofs::WholePiece::transport_answers))]
pub fn turns_of_the_transport_are_answered()
    ensures alike { (side : Side) → AnswersTransport side }
{}
