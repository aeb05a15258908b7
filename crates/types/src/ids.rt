//! What names an item of the world, or a node of one body: a place in its table.

use crate::{NoMemory, TryClone};
use std::alloc::Global;

/// A crate: a place in `HirDatabase::crates`.
#[derive(Clone, Copy, PartialEq, Eq, PartialOrd, Ord, Hash, Debug)]
pub struct Crate(pub u32);

/// A function: a place in `HirDatabase::functions`.
#[derive(Clone, Copy, PartialEq, Eq, PartialOrd, Ord, Hash, Debug)]
pub struct FunctionId(pub u32);

/// A constant: a place in `HirDatabase::consts`.
#[derive(Clone, Copy, PartialEq, Eq, PartialOrd, Ord, Hash, Debug)]
pub struct ConstId(pub u32);

/// A static: a place in `HirDatabase::statics`.
#[derive(Clone, Copy, PartialEq, Eq, PartialOrd, Ord, Hash, Debug)]
pub struct StaticId(pub u32);

/// A struct: a place in `HirDatabase::structs`.
#[derive(Clone, Copy, PartialEq, Eq, PartialOrd, Ord, Hash, Debug)]
pub struct StructId(pub u32);

/// A union: a place in `HirDatabase::unions`.
#[derive(Clone, Copy, PartialEq, Eq, PartialOrd, Ord, Hash, Debug)]
pub struct UnionId(pub u32);

/// An enum: a place in `HirDatabase::enums`.
#[derive(Clone, Copy, PartialEq, Eq, PartialOrd, Ord, Hash, Debug)]
pub struct EnumId(pub u32);

/// A variant of an enum: a place in `HirDatabase::variants`.
#[derive(Clone, Copy, PartialEq, Eq, PartialOrd, Ord, Hash, Debug)]
pub struct EnumVariantId(pub u32);

/// A trait: a place in `HirDatabase::traits`.
#[derive(Clone, Copy, PartialEq, Eq, PartialOrd, Ord, Hash, Debug)]
pub struct TraitId(pub u32);

/// A type alias, or an associated type: a place in `HirDatabase::aliases`.
#[derive(Clone, Copy, PartialEq, Eq, PartialOrd, Ord, Hash, Debug)]
pub struct AliasId(pub u32);

/// A type parameter: a place in `HirDatabase::type_params`.
#[derive(Clone, Copy, PartialEq, Eq, PartialOrd, Ord, Hash, Debug)]
pub struct TypeParamId(pub u32);

/// A const parameter: a place in `HirDatabase::const_params`.
#[derive(Clone, Copy, PartialEq, Eq, PartialOrd, Ord, Hash, Debug)]
pub struct ConstParamId(pub u32);

/// A closure: a place in `HirDatabase::closures`.
#[derive(Clone, Copy, PartialEq, Eq, PartialOrd, Ord, Hash, Debug)]
pub struct InternedClosureId(pub u32);

/// An expression of a body: a place in `Body::exprs`.
#[derive(Clone, Copy, PartialEq, Eq, PartialOrd, Ord, Hash, Debug)]
pub struct ExprId(pub u32);

/// A pattern of a body: a place in `Body::pats`.
#[derive(Clone, Copy, PartialEq, Eq, PartialOrd, Ord, Hash, Debug)]
pub struct PatId(pub u32);

/// A binding of a body: a place in `Body::bindings`.
#[derive(Clone, Copy, PartialEq, Eq, PartialOrd, Ord, Hash, Debug)]
pub struct BindingId(pub u32);

/// A label of a body: a place in `Body::labels`.
#[derive(Clone, Copy, PartialEq, Eq, PartialOrd, Ord, Hash, Debug)]
pub struct LabelId(pub u32);

/// A struct, union or enum.
#[derive(Clone, Copy, PartialEq, Eq, PartialOrd, Ord, Hash, Debug)]
pub enum AdtId {
    StructId(StructId),
    UnionId(UnionId),
    EnumId(EnumId),
}

/// What has fields: a variant of an enum, a struct or a union.
#[derive(Clone, Copy, PartialEq, Eq, PartialOrd, Ord, Hash, Debug)]
pub enum VariantId {
    EnumVariantId(EnumVariantId),
    StructId(StructId),
    UnionId(UnionId),
}

/// What a path can call: a function, or the constructor of a struct or variant.
#[derive(Clone, Copy, PartialEq, Eq, PartialOrd, Ord, Hash, Debug)]
pub enum CallableDefId {
    FunctionId(FunctionId),
    StructId(StructId),
    EnumVariantId(EnumVariantId),
}

/// What has a body that can be evaluated. A variant's body is its discriminant.
#[derive(Clone, Copy, PartialEq, Eq, PartialOrd, Ord, Hash, Debug)]
pub enum DefWithBodyId {
    FunctionId(FunctionId),
    StaticId(StaticId),
    ConstId(ConstId),
    VariantId(EnumVariantId),
}

/// A generic parameter.
#[derive(Clone, Copy, PartialEq, Eq, PartialOrd, Ord, Hash, Debug)]
pub enum GenericParamId {
    TypeParamId(TypeParamId),
    ConstParamId(ConstParamId),
}

/// What a constant can be named by.
#[derive(Clone, Copy, PartialEq, Eq, PartialOrd, Ord, Hash, Debug)]
pub enum GeneralConstId {
    ConstId(ConstId),
    StaticId(StaticId),
}

/// A field of a variant, struct or union.
#[derive(Clone, Copy, PartialEq, Eq, PartialOrd, Ord, Hash, Debug)]
pub struct FieldId {
    pub parent: VariantId,
    /// A place among the parent's fields.
    pub local_id: u32,
}

/// A field of a tuple.
#[derive(Clone, Copy, PartialEq, Eq, PartialOrd, Ord, Hash, Debug)]
pub struct TupleFieldId {
    /// Which tuple of its body. Nothing rests on it.
    pub tuple: u32,
    /// A place among the tuple's fields.
    pub index: u32,
}

impl TryClone for Crate {
    fn try_clone(&self, _alloc: Global) -> Result<Crate, NoMemory> {
        Ok(*self)
    }
}

impl TryClone for FunctionId {
    fn try_clone(&self, _alloc: Global) -> Result<FunctionId, NoMemory> {
        Ok(*self)
    }
}

impl TryClone for ConstId {
    fn try_clone(&self, _alloc: Global) -> Result<ConstId, NoMemory> {
        Ok(*self)
    }
}

impl TryClone for StaticId {
    fn try_clone(&self, _alloc: Global) -> Result<StaticId, NoMemory> {
        Ok(*self)
    }
}

impl TryClone for StructId {
    fn try_clone(&self, _alloc: Global) -> Result<StructId, NoMemory> {
        Ok(*self)
    }
}

impl TryClone for UnionId {
    fn try_clone(&self, _alloc: Global) -> Result<UnionId, NoMemory> {
        Ok(*self)
    }
}

impl TryClone for EnumId {
    fn try_clone(&self, _alloc: Global) -> Result<EnumId, NoMemory> {
        Ok(*self)
    }
}

impl TryClone for EnumVariantId {
    fn try_clone(&self, _alloc: Global) -> Result<EnumVariantId, NoMemory> {
        Ok(*self)
    }
}

impl TryClone for TraitId {
    fn try_clone(&self, _alloc: Global) -> Result<TraitId, NoMemory> {
        Ok(*self)
    }
}

impl TryClone for AliasId {
    fn try_clone(&self, _alloc: Global) -> Result<AliasId, NoMemory> {
        Ok(*self)
    }
}

impl TryClone for TypeParamId {
    fn try_clone(&self, _alloc: Global) -> Result<TypeParamId, NoMemory> {
        Ok(*self)
    }
}

impl TryClone for ConstParamId {
    fn try_clone(&self, _alloc: Global) -> Result<ConstParamId, NoMemory> {
        Ok(*self)
    }
}

impl TryClone for InternedClosureId {
    fn try_clone(&self, _alloc: Global) -> Result<InternedClosureId, NoMemory> {
        Ok(*self)
    }
}

impl TryClone for ExprId {
    fn try_clone(&self, _alloc: Global) -> Result<ExprId, NoMemory> {
        Ok(*self)
    }
}

impl TryClone for PatId {
    fn try_clone(&self, _alloc: Global) -> Result<PatId, NoMemory> {
        Ok(*self)
    }
}

impl TryClone for BindingId {
    fn try_clone(&self, _alloc: Global) -> Result<BindingId, NoMemory> {
        Ok(*self)
    }
}

impl TryClone for LabelId {
    fn try_clone(&self, _alloc: Global) -> Result<LabelId, NoMemory> {
        Ok(*self)
    }
}

impl TryClone for AdtId {
    fn try_clone(&self, _alloc: Global) -> Result<AdtId, NoMemory> {
        Ok(*self)
    }
}

impl TryClone for VariantId {
    fn try_clone(&self, _alloc: Global) -> Result<VariantId, NoMemory> {
        Ok(*self)
    }
}

impl TryClone for CallableDefId {
    fn try_clone(&self, _alloc: Global) -> Result<CallableDefId, NoMemory> {
        Ok(*self)
    }
}

impl TryClone for DefWithBodyId {
    fn try_clone(&self, _alloc: Global) -> Result<DefWithBodyId, NoMemory> {
        Ok(*self)
    }
}

impl TryClone for GenericParamId {
    fn try_clone(&self, _alloc: Global) -> Result<GenericParamId, NoMemory> {
        Ok(*self)
    }
}

impl TryClone for GeneralConstId {
    fn try_clone(&self, _alloc: Global) -> Result<GeneralConstId, NoMemory> {
        Ok(*self)
    }
}

impl TryClone for FieldId {
    fn try_clone(&self, _alloc: Global) -> Result<FieldId, NoMemory> {
        Ok(*self)
    }
}

impl TryClone for TupleFieldId {
    fn try_clone(&self, _alloc: Global) -> Result<TupleFieldId, NoMemory> {
        Ok(*self)
    }
}
