//! What the definitions say of bytes that come from outside: worked rows, each a function whose
//! contract is the answers.
#![tactic(auto, unfolding(crate::specs::Varint::varint_at, crate::specs::Varint::varint_bytes))]

ghost use Rattle.std.specs.Prelude.{◌≡◌, ◌∷◌, ◌^◌, ◌-◌, [], Some, None};
ghost use Rattle.wt_wire.specs.Varint.{varint_at, varint_bytes};

use crate::varint::VarInt;

/// The greatest integer is 2^62 - 1 (RFC 9000, section 16).
pub fn greatest_integer() -> VarInt
    ensures { result ≡ 2 ^ 62 - 1 }
{
    VarInt::MAX
}

/// Encodings of integers, at the bounds of each length (RFC 9000, section 16 and appendix A.1).
pub fn integer_rows()
    ensures one { varint_bytes 63 ≡ 0x3f ∷ [] }
    ensures two_least { varint_bytes 64 ≡ 0x40 ∷ 0x40 ∷ [] }
    ensures two_most { varint_bytes 16383 ≡ 0x7f ∷ 0xff ∷ [] }
    ensures four_least { varint_bytes 16384 ≡ 0x80 ∷ 0x00 ∷ 0x40 ∷ 0x00 ∷ [] }
    ensures eight_most { varint_bytes (2 ^ 62 - 1) ≡ 0xff ∷ 0xff ∷ 0xff ∷ 0xff ∷ 0xff ∷ 0xff ∷ 0xff ∷ 0xff ∷ [] }
    ensures longer { varint_at (0x40 ∷ 0x25 ∷ []) ≡ Some (37, 2) }
    ensures eight { varint_at (0xc2 ∷ 0x19 ∷ 0x7c ∷ 0x5e ∷ 0xff ∷ 0x14 ∷ 0xe8 ∷ 0x8c ∷ []) ≡ Some (151288809941952652, 8) }
    ensures incomplete { varint_at (0x9d ∷ 0x7f ∷ 0x3e ∷ []) ≡ None }
{}
