ghost use Rattle.std.specs.Prelude.{◌≡◌, IfOk};

use crate::{NoMemory, TryClone};
use std::alloc::Global;
use std::boxed::Box as HeapBox;
use std::cmp::Ordering;
use std::hash::{Hash, Hasher};
use std::marker::Model;

/// A value on the heap, which contracts see as the value.
#[derive(Debug, Drop)]
pub struct Box<T> {
    inner: HeapBox<T>,
}

impl<T> Model for Box<T> {
    ghost Value = { T };

    ghost coded = { T.code };

    ghost view = { λ b. b.inner.value };
}

impl<T> Box<T> {
    /// The value.
    pub fn as_ref(&self) -> &T
        ensures { result.now ≡ self.now }
    {
        &self.inner
    }

    /// The value, off the heap.
    pub fn into_inner(self) -> T
        ensures { result ≡ self }
    {
        let Box { inner } = self;
        HeapBox::into_inner(inner)
    }
}

impl<T: Drop> Box<T> {
    /// Puts a value on the heap.
    pub fn new(alloc: Global, value: T) -> Result<Box<T>, NoMemory>
        ensures { IfOk result (λ b. b ≡ value) }
    {
        let inner = HeapBox::new(alloc, value)?;
        Ok(Box { inner })
    }
}

impl<T: TryClone + Drop> TryClone for Box<T> {
    fn try_clone(&self, alloc: Global) -> Result<Box<T>, NoMemory> {
        let value = self.as_ref().try_clone(alloc)?;
        Box::new(alloc, value)
    }
}

impl<T: PartialEq> PartialEq for Box<T> {
    ghost eq = { T.eq };

    ghost laws = { T.laws };

    fn eq(&self, other: &Box<T>) -> bool {
        self.as_ref() == other.as_ref()
    }
}

impl<T: Eq> Eq for Box<T> {
    ghost laws = { T.Eq.laws };
}

impl<T: PartialOrd> PartialOrd for Box<T> {
    ghost partial_cmp = { T.partial_cmp };

    ghost laws = { T.PartialOrd.laws };

    fn partial_cmp(&self, other: &Box<T>) -> Option<Ordering> {
        self.as_ref().partial_cmp(other.as_ref())
    }
}

impl<T: Ord> Ord for Box<T> {
    ghost cmp = { T.cmp };

    ghost total = { T.total };

    ghost matches_partial_cmp = { T.matches_partial_cmp };

    ghost matches_eq = { T.matches_eq };

    fn cmp(&self, other: &Box<T>) -> Ordering {
        self.as_ref().cmp(other.as_ref())
    }
}

impl<T: Hash> Hash for Box<T> {
    ghost hash_input = { T.hash_input };

    ghost respects_eq = { T.respects_eq };

    fn hash<H: Hasher>(&self, state: &mut H) {
        self.as_ref().hash(state);
    }
}
