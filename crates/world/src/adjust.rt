//! What is done to a value before it is used, without being written.

use crate::{Mutability, NoMemory, TryClone, Ty};
use std::alloc::Global;

/// One step, and the type that it leads to.
#[derive(PartialEq, Eq, PartialOrd, Ord, Hash)]
pub struct Adjustment {
    pub kind: Adjust,
    pub target: Ty,
}

impl Drop for Adjustment {
    fn drop(self) {
        let Adjustment {
            kind: _kind,
            target: _target,
        } = self;
    }
}

/// What a step does.
#[derive(Clone, Copy, PartialEq, Eq, PartialOrd, Ord, Hash)]
pub enum Adjust {
    NeverToAny,
    Deref(Option<OverloadedDeref>),
    Borrow(AutoBorrow),
    Pointer(PointerCast),
}

/// A dereference by `Deref` or `DerefMut`, whichever is known.
#[derive(Clone, Copy, PartialEq, Eq, PartialOrd, Ord, Hash)]
pub struct OverloadedDeref {
    pub mutability: Option<Mutability>,
}

/// A borrow.
#[derive(Clone, Copy, PartialEq, Eq, PartialOrd, Ord, Hash)]
pub enum AutoBorrow {
    Ref(Mutability),
    RawPtr(Mutability),
}

/// A coercion from pointer to pointer.
#[derive(Clone, Copy, PartialEq, Eq, PartialOrd, Ord, Hash)]
pub enum PointerCast {
    ReifyFnPointer,
    UnsafeFnPointer,
    ClosureFnPointer,
    MutToConstPointer,
    ArrayToPointer,
    Unsize,
}

impl TryClone for Adjustment {
    fn try_clone(&self, alloc: Global) -> Result<Adjustment, NoMemory> {
        Ok(Adjustment {
            kind: self.kind,
            target: self.target.try_clone(alloc)?,
        })
    }
}

impl TryClone for Adjust {
    fn try_clone(&self, _alloc: Global) -> Result<Adjust, NoMemory> {
        Ok(*self)
    }
}

impl TryClone for OverloadedDeref {
    fn try_clone(&self, _alloc: Global) -> Result<OverloadedDeref, NoMemory> {
        Ok(*self)
    }
}

impl TryClone for AutoBorrow {
    fn try_clone(&self, _alloc: Global) -> Result<AutoBorrow, NoMemory> {
        Ok(*self)
    }
}

impl TryClone for PointerCast {
    fn try_clone(&self, _alloc: Global) -> Result<PointerCast, NoMemory> {
        Ok(*self)
    }
}
