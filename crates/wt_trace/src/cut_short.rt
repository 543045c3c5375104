//! Why no whole answer was given.
use thiserror::Error;
use wt_wire::error::OutOfMemory;

/// Why no whole answer was given.
#[derive(Clone, Copy, PartialEq, Eq, Debug, Error)]
pub enum CutShort {
    /// The source failed.
    #[error("source failed")]
    SourceFailed,
    /// The sink failed.
    #[error("sink failed")]
    SinkFailed,
    /// The program ran out of memory.
    #[error("out of memory")]
    OutOfMemory,
}

impl From<OutOfMemory> for CutShort {
    ghost use Rattle.std.specs.Prelude.{◌≡◌};
    ghost use Rattle.wt_trace.specs.declared.cut_short.CutShort.TheVariants as cuts;

    ghost from_gives = { λ _ failure. failure ≡ cuts.OutOfMemory };

    fn from(_error: OutOfMemory) -> CutShort {
        CutShort::OutOfMemory
    }
}
