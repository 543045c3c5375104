//! What is written is read back: laws, each a function whose contract is the law.
ghost use Rattle.std.specs.Prelude.{◌≡◌, ◌<◌, ◌^◌, ◌++◌, List, ℕ, length, Ok, Some};
ghost use Rattle.wt_wire.specs.FieldSection.{AreShort, headers_of, section_bytes};
ghost use Rattle.wt_wire.specs.HeaderList.{IsHeaderList};
ghost use Rattle.wt_wire.specs.Varint.{varint_at, varint_bytes};

/// An integer, whatever follows.
#[tactic(auto, using(crate::proofs::VarintAgain::varint_again))]
pub fn integer_read_back()
    ensures { (n : ℕ) (more : List ℕ) → n < 2 ^ 62 → varint_at (varint_bytes n ++ more) ≡ Some (n, length (varint_bytes n)) }
{}

/// The fields of a field section, where each text is shorter than 2^28 bytes.
#[tactic(auto, using(crate::proofs::SectionAgain::fields_again))]
pub fn headers_read_back()
    ensures { (fields : List (List ℕ × List ℕ)) → IsHeaderList fields → AreShort fields → headers_of (section_bytes fields) ≡ Ok fields }
{}
