//! What is promised of lists of turns.

ghost use Rattle.std.specs.Prelude.{List, [], false, ◌++◌, ◌≡◌};
ghost use Rattle.wt_meaning.specs.History.{History, is_open};
ghost use Rattle.wt_meaning.specs.Meaning.{answer_to, history_after, meaning, meaning_from};
ghost use Rattle.wt_promise.specs.Lists.{LongestPrefix, history_of};
ghost use Rattle.wt_promise.specs.Promise.{AllLawful, IsHistory};
ghost use Rattle.wt_turn.specs.Turns.{is_call};
ghost use Rattle.wt_turn.specs.declared.reply.Reply.TheVariants as replies;
ghost use Rattle.wt_turn.specs.declared.turn.Turn.{Turn};
ghost use Rattle.wt_wire.specs.declared.side.Side.{Side};

/// A list of any turns is answered as far as its turns are lawful: its longest lawful prefix, behind which it ends or has a turn that isn't lawful.
#[tactic(auto, using(crate::proofs::Prefixes::longest_prefix))]
pub fn the_longest_lawful_prefix_is_answered()
    ensures longest { (side : Side) (all : List Turn) → LongestPrefix side all }
{}

/// Each prefix of a lawful list leads to a history, of which all sentences hold, and what comes later is answered after it.
#[tactic(auto, using(crate::proofs::Clauses::history_of_prefix, crate::proofs::Clauses::answers_of_parts))]
pub fn lawful_lists_lead_to_histories()
    ensures history { (side : Side) (first later : List Turn) → AllLawful side [] (first ++ later) → IsHistory side (history_of side [] first) }
    ensures answers { (side : Side) (first later : List Turn) → AllLawful side [] (first ++ later) → meaning side (first ++ later) ≡ meaning side first ++ meaning_from side (history_of side [] first) later }
{}

/// A turn of the transport is answered `Done`; once the connection has ended nothing goes out, and it changes no later answer, but only which turn is lawful.
#[tactic(auto, using(crate::proofs::Clauses::transport_done, crate::proofs::Clauses::transport_silent, crate::proofs::Clauses::transport_alike))]
pub fn turns_of_the_transport_are_done()
    ensures done { (side : Side) (h : History) (turn : Turn) → is_call turn ≡ false → (answer_to side h turn).reply ≡ replies.Done }
    ensures silent { (side : Side) (h : History) (turn : Turn) → is_call turn ≡ false → is_open h ≡ false → (answer_to side h turn).actions ≡ [] }
    ensures alike { (side : Side) (h : History) (turn : Turn) → is_call turn ≡ false → is_open h ≡ false → (later : List Turn) → meaning_from side (history_after side h turn) later ≡ meaning_from side h later }
{}
