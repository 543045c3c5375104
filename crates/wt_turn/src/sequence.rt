//! Lists of turns, of actions and of answers.
ghost use Rattle.std.specs.Prelude.{◌≡◌, ◌↔◌, ◌++◌, ◌∷◌, [], IfOk, IsTrue, OnErr, OnOk};

use std::alloc::Global;
use std::fmt::Debug;
use std::marker::Model;
use wt_wire::error::OutOfMemory;

/// What a list keeps: it can be copied and compared.
pub trait Element: Debug + Drop {
    /// One that is equal to this.
    fn copied(&self, alloc: Global) -> Result<Self, OutOfMemory>
    where
        Self: Sized,
        ensures { IfOk result (λ a. a ≡ self.now) };

    /// Whether both are equal.
    fn is_same(&self, other: &Self) -> bool
        ensures { IsTrue result ↔ (self.now ≡ other.now) };
}

/// A list in its order. Contracts see it as the list.
#[derive(Debug, Drop)]
pub struct Sequence<T: Debug + Drop> {
    items: Vec<T>,
}

impl<T: Debug + Drop> Model for Sequence<T> {
    ghost use Rattle.std.specs.Prelude.{List};

    ghost Value = { List T };

    ghost view = { λ s. s.items.items };
}

impl<T: Element> Sequence<T> {
    /// The empty list.
    pub fn new(alloc: Global) -> Sequence<T>
        ensures { result ≡ [] }
    {
        Sequence {
            items: Vec::new(alloc),
        }
    }

    /// Adds one at the end. Where no memory is there for it, nothing changes.
    pub fn push(&mut self, item: T) -> Result<(), OutOfMemory>
        ensures ok { OnOk result (self.new ≡ self.old ++ item ∷ []) }
        ensures err { OnErr result (self.new ≡ self.old) }
    {
        self.items.push(item)?;
        Ok(())
    }

    /// A list that keeps this vector.
    pub fn from_vec(items: Vec<T>) -> Sequence<T>
        ensures { result ≡ items.items }
    {
        Sequence { items }
    }

    /// Its vector.
    pub fn into_vec(self) -> Vec<T>
        ensures { result.items ≡ self }
    {
        self.items
    }

    /// It as a slice.
    pub fn as_slice(&self) -> &[T]
        ensures { result.now ≡ self.now }
    {
        self.items.as_slice()
    }

    /// The allocator that gives its memory.
    pub fn allocator(&self) -> &Global {
        self.items.allocator()
    }

    /// A list of equal ones.
    pub fn copy(&self) -> Result<Sequence<T>, OutOfMemory>
        ensures { IfOk result (λ copied. copied ≡ self.now) }
    {
        let alloc = *self.items.allocator();
        let mut copied = Sequence::new(alloc);
        for item in self.items.as_slice() {
            copied.push(item.copied(alloc)?)?;
        }
        Ok(copied)
    }

    /// Whether both are equal ones in the same order.
    pub fn is_equal(&self, other: &Sequence<T>) -> bool
        ensures { IsTrue result ↔ (self.now ≡ other.now) }
    {
        are_same(self.items.as_slice(), other.items.as_slice())
    }
}

/// Whether both have the same length and equal elements.
fn are_same<T: Element>(items: &[T], others: &[T]) -> bool
    ensures { IsTrue result ↔ (items.now ≡ others.now) }
{
    if items.len() != others.len() {
        return false;
    }
    for index in 0..items.len() {
        if !items[index].is_same(&others[index]) {
            return false;
        }
    }
    true
}

impl<T: PartialEq + Debug + Drop> PartialEq for Sequence<T> {
    ghost use Rattle.std.specs.Cmp.Lexicographic.{pointwise, lists_per};

    ghost eq = { pointwise T.eq };

    ghost laws = { lists_per T.PartialEq.laws };

    fn eq(&self, other: &Sequence<T>) -> bool {
        self.items.as_slice() == other.items.as_slice()
    }
}

impl<T: Eq + Debug + Drop> Eq for Sequence<T> {
    ghost use Rattle.std.specs.Cmp.Lexicographic.{lists_equiv};

    ghost laws = { lists_equiv T.Eq.laws };
}
