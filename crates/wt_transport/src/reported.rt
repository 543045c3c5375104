//! What is reported once of a half of a stream.
ghost use Rattle.std.specs.Prelude.{◌≡◌};
ghost use Rattle.wt_transport.specs.Reporting.{in_time};

/// What the peer reports once of a half. What comes after the connection's end decides what else may come, and
/// no answer.
#[derive(Clone, Copy, Debug)]
pub struct Reported<T> {
    /// What was reported.
    pub value: T,
    /// It came after the connection's end.
    pub is_late: bool,
}

impl<T: Copy> Reported<T> {
    /// What was reported while the connection was open; else this, which stands for nothing.
    pub fn in_time(&self, nothing: T) -> T
        ensures { result ≡ in_time nothing self.now }
    {
        if self.is_late { nothing } else { self.value }
    }
}
