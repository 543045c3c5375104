//! Header fields in their order.
ghost use Rattle.std.specs.Prelude.{◌≡◌, ◌<◌, ◌≤◌, ◌∷◌, [], IfOk, OnOk, OnErr, IsTrue, ◌↔◌, length, take, drop, ◌++◌, slice_get, slice_set, insert, slice_index_or, Some, List, ℕ, MatchResult, IfErr, false};
ghost use Rattle.std.specs.Option.{option_copied};
ghost use Rattle.std.specs.Str.{bytes_eq};
ghost use Rattle.wt_wire.specs.HeaderList.{IsHeaderList, compare_names, is_pseudo, value_of, with_field};

use crate::error::OutOfMemory;
use crate::text::Text;
use std::alloc::Global;
use std::cmp::Ordering;
use std::marker::Model;

/// Header fields with distinct names in one order: first those whose names begin with `:` (the
/// pseudo-header fields of RFC 9114, section 4.3), then the others, each group ascending by bytes.
#[derive(Debug, Drop)]
pub struct HeaderList {
    fields: Vec<(Text, Text)>,
}

impl Model for HeaderList {
    ghost use Rattle.std.specs.Prelude.{List, ℕ};
    ghost use Rattle.wt_wire.specs.HeaderList.{IsHeaderList};

    ghost Value = { List (List ℕ × List ℕ) };

    ghost view = { λ h. h.fields.items };

    ghost invariant = { λ h. IsHeaderList h.fields.items };
}

fn begins_with_colon(name: &str) -> bool
    ensures { result ≡ is_pseudo name.now }
{
    match name.as_bytes() {
        [b':', ..] => true,
        _ => false,
    }
}

fn compare(a: &str, b: &str) -> Ordering
    ensures { result ≡ compare_names a.now b.now }
{
    match (begins_with_colon(a), begins_with_colon(b)) {
        // Pseudo-header fields come before all others (RFC 9114, section 4.3).
        (true, false) => Ordering::Less,
        (false, true) => Ordering::Greater,
        _ => a.as_bytes().cmp(b.as_bytes()),
    }
}

/// The index of the field with this name, or else the index at which it belongs.
fn find_index(fields: &[(Text, Text)], name: &str) -> Result<usize, usize>
    requires ordered { IsHeaderList fields.now }
    ensures within { MatchResult result (λ index. index < length fields.now) (λ index. index ≤ length fields.now) }
    ensures found { (value : List ℕ) (d : List ℕ × List ℕ) → IfOk result (λ index. with_field name.now value fields.now
        ≡ slice_set fields.now index ((slice_index_or fields.now index d).0, value)) }
    ensures absent { (value : List ℕ) → IfErr result (λ index. with_field name.now value fields.now
        ≡ insert fields.now index (name.now, value)) }
{
    fields.binary_search_by(|field| compare(field.0.as_str(), name))
}

fn value_at<'a>(fields: &'a [(Text, Text)], name: &str) -> Option<&'a str>
    ensures { option_copied result ≡ value_of name.now fields.now }
{
    for field in fields {
        if name.as_bytes() == field.0.as_str().as_bytes() {
            return Some(field.1.as_str());
        }
    }
    None
}

fn copy_fields(alloc: Global, fields: &[(Text, Text)]) -> Result<Vec<(Text, Text)>, OutOfMemory>
    ensures { IfOk result (λ v. v.items ≡ fields.now) }
{
    let mut copied = Vec::new(alloc);
    for field in fields {
        copied.push((field.0.copy()?, field.1.copy()?))?;
    }
    Ok(copied)
}

fn set_field(fields: &mut Vec<(Text, Text)>, name: &str, value: &str) -> Result<(), OutOfMemory>
    requires ordered { IsHeaderList fields.old.items }
    ensures ok { OnOk result (fields.new.items ≡ with_field name.now value.now fields.old.items) }
    ensures err { OnErr result (fields.new.items ≡ fields.old.items) }
{
    let alloc = *fields.allocator();
    let value = Text::from_text(alloc, value)?;
    match find_index(fields.as_slice(), name) {
        // Of a repeated name the last value holds (this repository's rule).
        Ok(index) => fields[index].1 = value,
        Err(index) => fields.insert(index, (Text::from_text(alloc, name)?, value))?,
    }
    Ok(())
}

impl HeaderList {
    /// The list with no field.
    pub fn new(alloc: Global) -> HeaderList
        ensures { result ≡ [] }
    {
        HeaderList {
            fields: Vec::new(alloc),
        }
    }

    /// How many fields it has.
    pub fn len(&self) -> usize
        ensures len { result ≡ length self.now }
        ensures ordered { IsHeaderList self.now }
    {
        self.fields.len()
    }

    /// Whether it has no field.
    pub fn is_empty(&self) -> bool
        ensures { IsTrue result ↔ (self.now ≡ []) }
    {
        self.len() == 0
    }

    /// The name and the value of the field at this index of the order.
    pub fn at(&self, index: usize) -> (&str, &str)
        requires { index < length self.now }
        ensures { slice_get self.now index ≡ Some (result.0.now, result.1.now) }
    {
        let field = &self.fields[index];
        (field.0.as_str(), field.1.as_str())
    }

    /// The value of the field with this name; `None` exactly where there is none.
    pub fn get(&self, name: &str) -> Option<&str>
        ensures { option_copied result ≡ value_of name.now self.now }
    {
        value_at(self.fields.as_slice(), name)
    }

    /// Puts a field, in place of the one with an equal name. Where memory is short, nothing changes.
    #[tactic(auto, using(crate::proofs::OrderLaws::with_field_keeps, crate::proofs::ValueLaws::value_of_set, crate::proofs::ValueLaws::value_of_other))]
    pub fn set(&mut self, name: &str, value: &str) -> Result<(), OutOfMemory>
        ensures ok { OnOk result (self.new ≡ with_field name.now value.now self.old) }
        ensures there { OnOk result (value_of name.now self.new ≡ Some value.now) }
        ensures others { (other : List ℕ) → bytes_eq other name.now ≡ false → OnOk result (value_of other self.new ≡ value_of other self.old) }
        ensures err { OnErr result (self.new ≡ self.old) }
    {
        set_field(&mut self.fields, name, value)?;
        Ok(())
    }

    /// Gives its fields back, in their order.
    pub fn into_vec(self) -> Vec<(Text, Text)>
        ensures { result.items ≡ self }
    {
        self.fields
    }

    /// Whether both have the same fields.
    #[tactic(auto, using(crate::proofs::EqualityLaws::fields_same))]
    pub fn is_equal(&self, other: &HeaderList) -> bool
        ensures { IsTrue result ↔ (self.now ≡ other.now) }
    {
        self == other
    }

    /// A list with the same fields.
    pub fn copy(&self) -> Result<HeaderList, OutOfMemory>
        ensures { IfOk result (λ h. h ≡ self.now) }
    {
        Ok(HeaderList {
            fields: copy_fields(*self.fields.allocator(), self.fields.as_slice())?,
        })
    }

    /// The allocator that gives its memory.
    pub(crate) fn allocator(&self) -> &Global {
        self.fields.allocator()
    }
}

impl PartialEq for HeaderList {
    ghost use Rattle.std.specs.Cmp.{partial_equiv_from_equiv};
    ghost use Rattle.wt_wire.specs.Equality.{fields_eq, fields_equiv};

    ghost eq = { fields_eq };

    ghost laws = { partial_equiv_from_equiv fields_equiv };

    fn eq(&self, other: &HeaderList) -> bool {
        self.fields.as_slice() == other.fields.as_slice()
    }
}

impl Eq for HeaderList {
    ghost use Rattle.wt_wire.specs.Equality.{fields_equiv};

    ghost laws = { fields_equiv };
}
