//! Where the bytes of a script come from, and where the text goes.
ghost use Rattle.std.specs.Prelude.{◌≡◌, ◌++◌, ◌<◌, ◌≤◌, ℕ, List, Option, IfOk, OnOk, OnErr, length};
ghost use Rattle.std.specs.Io.{ReadsAtMost, WritesAtMost};
ghost use Rattle.std.specs.Io.KnownBytes.{ReadConsumes, WriteAppends};
ghost use Rattle.wt_trace.specs.Outside.{Rose};

pub mod mem;
pub mod standard;
pub mod sure;

use thiserror::Error;

/// A read or a write failed.
#[derive(Clone, Copy, PartialEq, Eq, Debug, Error)]
#[error("read or write failed")]
pub struct Failed;

/// Where bytes come from.
pub trait Source {
    // The bytes that it has left, where it reports them.
    ghost left: { Self → Option (List ℕ) };

    // How often it failed.
    ghost faults: { Self → ℕ };

    /// Reads bytes into the front of the buffer, and answers how many; 0 for a buffer that isn't
    /// empty is the end. Fails only where the count of faults rises.
    fn read(&mut self, buf: &mut [u8]) -> Result<usize, Failed>
        ensures bound { ReadsAtMost result buf.new }
        ensures bytes { ReadConsumes (left self.old) (left self.new) result buf.new }
        ensures later { faults self.old ≤ faults self.new }
        ensures failed { OnErr result (Rose (faults self.old) (faults self.new)) }
        ensures same { OnOk result (faults self.new ≡ faults self.old) };
}

/// Where text goes.
pub trait Sink {
    // The bytes that it took, where it reports them.
    ghost took: { Self → Option (List ℕ) };

    // How often it failed.
    ghost faults: { Self → ℕ };

    /// Takes bytes from the front of the piece, and answers how many: at least one where the piece
    /// isn't empty. Fails only where the count of faults rises, and takes nothing then.
    fn write(&mut self, piece: &[u8]) -> Result<usize, Failed>
        ensures bound { WritesAtMost result piece.now }
        ensures some { IfOk result (λ n. 0 < length piece.now → 0 < n) }
        ensures bytes { WriteAppends (took self.old) (took self.new) result piece.now }
        ensures later { faults self.old ≤ faults self.new }
        ensures failed { OnErr result (Rose (faults self.old) (faults self.new)) }
        ensures same { OnOk result (faults self.new ≡ faults self.old) };
}
