//! Reserved types of frames and streams, which are there to be skipped.
ghost use Rattle.std.specs.Prelude.{◌≡◌};
ghost use Rattle.wt_wire.specs.Frames.{is_exercise};

/// Whether the type is 0x1f * N + 0x21 (RFC 9114, sections 6.2.3 and 7.2.8).
pub fn is_exercise(kind: u64) -> bool
    ensures { result ≡ is_exercise kind }
{
    // 0x21 is 1 * 0x1f + 2, so the types are those that leave 2; 2 itself is below the first.
    kind % 0x1f == 2 && kind > 0x20
}
