//! What a poll answers.
ghost use Rattle.std.specs.Prelude.{◌≡◌, ⊤, not};
ghost use Rattle.wt_turn.specs.Poll.{IsReadyAnd, MatchPoll, is_ready};
ghost use Rattle.wt_turn.specs.declared.poll.Poll.TheVariants.{Pending};

/// What a call that may have to wait answers. A call that is pending is made again later.
#[derive(Debug, Drop, PartialEq, Eq)]
pub enum Poll<T> {
    /// The call is through, with this answer.
    Ready(T),
    /// Nothing is there to give yet; nothing is handed out, and what was begun is kept.
    Pending,
}

impl<T> Poll<T> {
    /// The same with another answer, which `f` makes of this one.
    pub fn map<U, F: FnOnce(T) -> U>(self, f: F) -> Poll<U>
        requires { MatchPoll self (F.pre f) ⊤ }
        ensures { MatchPoll self (λ value. IsReadyAnd result (F.post f value)) (result ≡ Pending) }
    {
        match self {
            Poll::Ready(value) => Poll::Ready(f(value)),
            Poll::Pending => Poll::Pending,
        }
    }

    /// Whether the call is through.
    pub fn is_ready(&self) -> bool
        ensures { result ≡ is_ready self.now }
    {
        matches!(self, Poll::Ready(_))
    }

    /// Whether the call has to be made again.
    pub fn is_pending(&self) -> bool
        ensures { result ≡ not (is_ready self.now) }
    {
        matches!(self, Poll::Pending)
    }
}
