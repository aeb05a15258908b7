//! Literals.

use crate::{Bytes, FloatTy, IntTy, NoMemory, Text, TryClone, UintTy};
use std::alloc::Global;

/// A literal, with the type that its suffix names.
#[derive(PartialEq, Eq, PartialOrd, Ord, Hash)]
pub enum Literal {
    Str(Text),
    /// The bytes of a C string, without the zero at its end.
    CStr(Bytes),
    ByteStr(Bytes),
    /// The number of a `char`.
    Char(u32),
    Bool(bool),
    Int(i128, Option<IntTy>),
    Uint(u128, Option<UintTy>),
    /// The number as it is written.
    Float(Text, Option<FloatTy>),
}

impl Drop for Literal {
    fn drop(self) {
        match self {
            Literal::Str(_part) => {}
            Literal::CStr(_part) => {}
            Literal::ByteStr(_part) => {}
            Literal::Char(_part) => {}
            Literal::Bool(_part) => {}
            Literal::Int(_first, _second) => {}
            Literal::Uint(_first, _second) => {}
            Literal::Float(_first, _second) => {}
        }
    }
}

impl TryClone for Literal {
    fn try_clone(&self, alloc: Global) -> Result<Literal, NoMemory> {
        match self {
            Literal::Str(text) => Ok(Literal::Str(text.try_clone(alloc)?)),
            Literal::CStr(bytes) => Ok(Literal::CStr(bytes.try_clone(alloc)?)),
            Literal::ByteStr(bytes) => Ok(Literal::ByteStr(bytes.try_clone(alloc)?)),
            Literal::Char(number) => Ok(Literal::Char(*number)),
            Literal::Bool(truth) => Ok(Literal::Bool(*truth)),
            Literal::Int(number, suffix) => Ok(Literal::Int(*number, *suffix)),
            Literal::Uint(number, suffix) => Ok(Literal::Uint(*number, *suffix)),
            Literal::Float(number, suffix) => Ok(Literal::Float(number.try_clone(alloc)?, *suffix)),
        }
    }
}
