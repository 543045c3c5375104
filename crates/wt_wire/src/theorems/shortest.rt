//! No shorter encoding is read as the same number.
ghost use Rattle.std.specs.Prelude.{◌≡◌, ◌≤◌, ◌<◌, List, ℕ, length, All, Some};
ghost use Rattle.wt_wire.specs.PrefixedInteger.{prefixed_at, prefixed_bytes};
ghost use Rattle.wt_wire.specs.Varint.{varint_at, varint_bytes};

/// Of a variable-length integer (RFC 9000, section 16).
#[tactic(auto, using(crate::proofs::ShortestVarints::varint_shortest))]
pub fn integer_is_shortest()
    ensures { (bytes : List ℕ) (n size : ℕ) → All (λ b. b < 256) bytes →
        varint_at bytes ≡ Some (n, size) → length (varint_bytes n) ≤ size }
{}

/// Of a prefixed integer, whatever the bits above its prefix (RFC 7541, section 5.1).
#[tactic(auto, using(crate::proofs::ShortestPrefixed::prefixed_shortest))]
pub fn prefixed_integer_is_shortest()
    ensures { (bytes : List ℕ) (high full n size : ℕ) → All (λ b. b < 256) bytes →
        prefixed_at full bytes ≡ Some (n, size) → length (prefixed_bytes high full n) ≤ size }
{}
