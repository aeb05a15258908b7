//! What types mention.

use types::{
    AliasId, ConstId, ConstParamId, EnumId, EnumVariantId, FunctionId, InternedClosureId, StaticId,
    StructId, TraitId, TypeParamId, UnionId,
};

/// Something that a type, a constant or generic arguments mention.
#[derive(Clone, Copy)]
pub enum Mention {
    Function(FunctionId),
    Const(ConstId),
    Static(StaticId),
    Struct(StructId),
    Union(UnionId),
    Enum(EnumId),
    Variant(EnumVariantId),
    Trait(TraitId),
    Alias(AliasId),
    TypeParam(TypeParamId),
    ConstParam(ConstParamId),
    Closure(InternedClosureId),
    /// A type or a constant that could not be found.
    Error,
    /// How many entries a list has whose places numbers of 32 bits name.
    Entries(u64),
}
