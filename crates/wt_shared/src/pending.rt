//! Whether something came of a turn.
ghost use Rattle.std.specs.Prelude.{◌≡◌, if◌then◌else◌};
ghost use Rattle.wt_meaning.specs.Lawful.{is_pending};

use wt_turn::{Answer, Reply};

/// Whether the reply is Pending.
pub fn is_pending(reply: &Reply) -> bool
    ensures { result ≡ is_pending reply.now }
{
    matches!(reply, Reply::Pending)
}

/// By how much the count of changes rises with this answer: not at all where it is Pending, else by one.
pub fn changes_by(answer: &Answer) -> u64
    ensures { result ≡ (if is_pending answer.now.reply then 0 else 1) }
{
    if is_pending(&answer.reply) { 0 } else { 1 }
}
