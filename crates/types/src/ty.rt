//! Types, generic arguments, and constants as values. Their drops are written by hand: a derived one is proved again in each crate that drops such a value.

use crate::{
    AdtId, AliasId, Box, Bytes, CallableDefId, ConstParamId, FloatTy, GeneralConstId, IntTy,
    InternedClosureId, List, Map, Mutability, NoMemory, TraitId, TryClone, TypeParamId, UintTy,
};
use std::alloc::Global;

/// A type, as a tree.
#[cycle(types)]
#[derive(PartialEq, Eq, PartialOrd, Ord, Hash, Debug)]
pub enum Ty {
    Bool,
    Char,
    Int(IntTy),
    Uint(UintTy),
    Float(FloatTy),
    Str,
    Never,
    Tuple(List<Ty>),
    /// The type of the elements, and how many there are.
    Array(Box<Ty>, Box<Const>),
    Slice(Box<Ty>),
    Ref(Box<Ty>, Mutability),
    RawPtr(Box<Ty>, Mutability),
    Adt(AdtId, GenericArgs),
    /// The type of one function, or of the constructor of a struct or variant.
    FnDef(CallableDefId, GenericArgs),
    /// The types of the parameters, and of the result.
    FnPtr(List<Ty>, Box<Ty>),
    Closure(InternedClosureId, GenericArgs),
    Dynamic(List<TraitRef>),
    Alias(AliasId, GenericArgs),
    Param(ParamTy),
    /// A type that inference did not find.
    Error,
}

impl Drop for Ty {
    #[cycle(drops)]
    fn drop(self) {
        match self {
            Ty::Bool
            | Ty::Char
            | Ty::Int(_)
            | Ty::Uint(_)
            | Ty::Float(_)
            | Ty::Str
            | Ty::Never
            | Ty::Param(_)
            | Ty::Error => {}
            Ty::Tuple(fields) => drop_tys(fields),
            Ty::Array(element, len) => {
                let _element = element.into_inner();
                let _len = len.into_inner();
            }
            Ty::Slice(element) => {
                let _element = element.into_inner();
            }
            Ty::Ref(to, _) | Ty::RawPtr(to, _) => {
                let _to = to.into_inner();
            }
            Ty::Adt(_, _args) => {}
            Ty::FnDef(_, _args) => {}
            Ty::FnPtr(params, ret) => {
                drop_tys(params);
                let _ret = ret.into_inner();
            }
            Ty::Closure(_, _args) => {}
            Ty::Dynamic(bounds) => {
                let mut left = bounds;
                while let Some(_bound) = left.pop() {}
                left.destroy_empty();
            }
            Ty::Alias(_, _args) => {}
        }
    }
}

/// A trait with its arguments.
#[cycle(types)]
#[derive(PartialEq, Eq, PartialOrd, Ord, Hash, Debug)]
pub struct TraitRef {
    pub def: TraitId,
    pub args: GenericArgs,
}

impl Drop for TraitRef {
    #[cycle(drops)]
    fn drop(self) {
        let TraitRef {
            def: _def,
            args: _args,
        } = self;
    }
}

/// A type parameter.
#[derive(Clone, Copy, PartialEq, Eq, PartialOrd, Ord, Hash, Debug)]
pub struct ParamTy {
    pub id: TypeParamId,
    /// Its place among the generic arguments, the parent's first.
    pub index: u32,
}

/// A const parameter.
#[derive(Clone, Copy, PartialEq, Eq, PartialOrd, Ord, Hash, Debug)]
pub struct ParamConst {
    pub id: ConstParamId,
    /// Its place among the generic arguments, the parent's first.
    pub index: u32,
}

/// A generic argument.
#[cycle(types)]
#[derive(PartialEq, Eq, PartialOrd, Ord, Hash, Debug)]
pub enum GenericArg {
    Ty(Ty),
    Konst(Const),
}

impl Drop for GenericArg {
    #[cycle(drops)]
    fn drop(self) {
        match self {
            GenericArg::Ty(_ty) => {}
            GenericArg::Konst(_konst) => {}
        }
    }
}

/// Generic arguments, the parent's first. A trait's `Self` has index 0.
#[cycle(types)]
#[derive(PartialEq, Eq, PartialOrd, Ord, Hash, Debug)]
pub struct GenericArgs(pub List<GenericArg>);

impl Drop for GenericArgs {
    #[cycle(drops)]
    fn drop(self) {
        let GenericArgs(args) = self;
        let mut left = args;
        while let Some(_arg) = left.pop() {}
        left.destroy_empty();
    }
}

/// A constant.
#[cycle(types)]
#[derive(PartialEq, Eq, PartialOrd, Ord, Hash, Debug)]
pub enum Const {
    Value(ValueConst),
    Param(ParamConst),
    Unevaluated(UnevaluatedConst),
    /// A constant that could not be found.
    Error,
}

impl Drop for Const {
    #[cycle(drops)]
    fn drop(self) {
        match self {
            Const::Value(_value) => {}
            Const::Param(_) => {}
            Const::Unevaluated(_named) => {}
            Const::Error => {}
        }
    }
}

/// A constant's value: its type, its bytes, and the memory that addresses in the bytes point to.
#[cycle(types)]
#[derive(PartialEq, Eq, PartialOrd, Ord, Hash, Debug)]
pub struct ValueConst {
    pub ty: Ty,
    pub memory: Bytes,
    pub memory_map: MemoryMap,
}

impl Drop for ValueConst {
    #[cycle(drops)]
    fn drop(self) {
        let ValueConst {
            ty: _ty,
            memory: _memory,
            memory_map: _memory_map,
        } = self;
    }
}

/// A constant by its name, with its arguments.
#[cycle(types)]
#[derive(PartialEq, Eq, PartialOrd, Ord, Hash, Debug)]
pub struct UnevaluatedConst {
    pub def: GeneralConstId,
    pub args: GenericArgs,
}

impl Drop for UnevaluatedConst {
    #[cycle(drops)]
    fn drop(self) {
        let UnevaluatedConst {
            def: _def,
            args: _args,
        } = self;
    }
}

/// The memory that a constant refers to, by address.
#[cycle(types)]
#[derive(PartialEq, Eq, PartialOrd, Ord, Hash, Debug)]
pub enum MemoryMap {
    Empty,
    /// Bytes at address 0.
    Simple(Bytes),
    Complex(ComplexMemoryMap),
}

impl Drop for MemoryMap {
    #[cycle(drops)]
    fn drop(self) {
        match self {
            MemoryMap::Empty => {}
            MemoryMap::Simple(_bytes) => {}
            MemoryMap::Complex(_complex) => {}
        }
    }
}

/// Bytes at several addresses, and the types that vtable ids stand for.
#[cycle(types)]
#[derive(PartialEq, Eq, PartialOrd, Ord, Hash, Debug)]
pub struct ComplexMemoryMap {
    pub memory: Map<u64, Bytes>,
    pub vtable: List<Ty>,
}

impl Drop for ComplexMemoryMap {
    #[cycle(drops)]
    fn drop(self) {
        let ComplexMemoryMap {
            memory: _memory,
            vtable,
        } = self;
        drop_tys(vtable);
    }
}

impl TryClone for ParamTy {
    fn try_clone(&self, _alloc: Global) -> Result<ParamTy, NoMemory> {
        Ok(*self)
    }
}

impl TryClone for ParamConst {
    fn try_clone(&self, _alloc: Global) -> Result<ParamConst, NoMemory> {
        Ok(*self)
    }
}

/// Drops a list of types, element by element.
#[cycle(drops)]
fn drop_tys(tys: List<Ty>) {
    let mut left = tys;
    while let Some(_ty) = left.pop() {}
    left.destroy_empty();
}
