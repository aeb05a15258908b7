//! Kinds of numbers, and whether what is pointed to may be changed.

use crate::{NoMemory, TryClone};
use std::alloc::Global;

/// A signed integer type.
#[derive(Clone, Copy, PartialEq, Eq, PartialOrd, Ord, Hash, Debug)]
pub enum IntTy {
    I8,
    I16,
    I32,
    I64,
    I128,
    Isize,
}

/// An unsigned integer type.
#[derive(Clone, Copy, PartialEq, Eq, PartialOrd, Ord, Hash, Debug)]
pub enum UintTy {
    U8,
    U16,
    U32,
    U64,
    U128,
    Usize,
}

/// A type of floating-point numbers.
#[derive(Clone, Copy, PartialEq, Eq, PartialOrd, Ord, Hash, Debug)]
pub enum FloatTy {
    F16,
    F32,
    F64,
    F128,
}

/// Whether what is pointed to may be changed.
#[derive(Clone, Copy, PartialEq, Eq, PartialOrd, Ord, Hash, Debug)]
pub enum Mutability {
    Not,
    Mut,
}

impl TryClone for IntTy {
    fn try_clone(&self, _alloc: Global) -> Result<IntTy, NoMemory> {
        Ok(*self)
    }
}

impl TryClone for UintTy {
    fn try_clone(&self, _alloc: Global) -> Result<UintTy, NoMemory> {
        Ok(*self)
    }
}

impl TryClone for FloatTy {
    fn try_clone(&self, _alloc: Global) -> Result<FloatTy, NoMemory> {
        Ok(*self)
    }
}

impl TryClone for Mutability {
    fn try_clone(&self, _alloc: Global) -> Result<Mutability, NoMemory> {
        Ok(*self)
    }
}
