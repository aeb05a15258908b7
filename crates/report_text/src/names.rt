//! The names that the world gives to items and parameters.

ghost use Rattle.std.specs.Prelude.{◌≡◌, slice_get};
ghost use Rattle.std.specs.Option.{option_map};
ghost use Rattle.report_text.specs.Names.{name_or_error, name_or_underscore, adt_name, callable_name, general_const_name, trait_name, alias_name, type_param_name, const_param_name};

use world::{
    AdtId, AliasId, CallableDefId, ConstParamId, GeneralConstId, HirDatabase, List, StructRow,
    Text, TraitId, TypeParamId,
};

/// The name at an index of a table of names; `{error}` where the index is out of range.
fn name_at(names: &List<Text>, place: u32) -> &[u8]
    ensures { result.now ≡ name_or_error (slice_get names.now place) }
{
    match names.get(place as u64) {
        Some(name) => name.as_str().as_bytes(),
        None => b"{error}",
    }
}

/// The name of a struct or union.
fn struct_name(rows: &List<StructRow>, place: u32) -> &[u8]
    ensures { result.now ≡ name_or_error (option_map (λ row. row.name) (slice_get rows.now place)) }
{
    match rows.get(place as u64) {
        Some(row) => row.name.as_str().as_bytes(),
        None => b"{error}",
    }
}

/// The name of a struct, union or enum.
pub(crate) fn adt_name(db: &HirDatabase, id: AdtId) -> &[u8]
    ensures { result.now ≡ adt_name db.now id }
{
    match id {
        AdtId::StructId(id) => struct_name(&db.structs, id.0),
        AdtId::UnionId(id) => struct_name(&db.unions, id.0),
        AdtId::EnumId(id) => match db.enums.get(id.0 as u64) {
            Some(row) => row.name.as_str().as_bytes(),
            None => b"{error}",
        },
    }
}

/// The name of a function, or of the struct or enum variant whose constructor is called as a function.
pub(crate) fn callable_name(db: &HirDatabase, id: CallableDefId) -> &[u8]
    ensures { result.now ≡ callable_name db.now id }
{
    match id {
        CallableDefId::FunctionId(id) => match db.functions.get(id.0 as u64) {
            Some(row) => row.name.as_str().as_bytes(),
            None => b"{error}",
        },
        CallableDefId::StructId(id) => struct_name(&db.structs, id.0),
        CallableDefId::EnumVariantId(id) => match db.variants.get(id.0 as u64) {
            Some(row) => row.name.as_str().as_bytes(),
            None => b"{error}",
        },
    }
}

/// A constant's name; `_` for a `const _`, which has none.
fn name_or_underscore(name: &Option<Text>) -> &[u8]
    ensures { result.now ≡ name_or_underscore name.now }
{
    match name {
        Some(name) => name.as_str().as_bytes(),
        None => b"_",
    }
}

/// The name of a constant or a static.
pub(crate) fn general_const_name(db: &HirDatabase, id: GeneralConstId) -> &[u8]
    ensures { result.now ≡ general_const_name db.now id }
{
    match id {
        GeneralConstId::ConstId(id) => match db.consts.get(id.0 as u64) {
            Some(row) => name_or_underscore(&row.name),
            None => b"{error}",
        },
        GeneralConstId::StaticId(id) => match db.statics.get(id.0 as u64) {
            Some(row) => row.name.as_str().as_bytes(),
            None => b"{error}",
        },
    }
}

/// The name of a trait.
pub(crate) fn trait_name(db: &HirDatabase, id: TraitId) -> &[u8]
    ensures { result.now ≡ trait_name db.now id }
{
    name_at(&db.traits, id.0)
}

/// The name of a type alias or an associated type.
pub(crate) fn alias_name(db: &HirDatabase, id: AliasId) -> &[u8]
    ensures { result.now ≡ alias_name db.now id }
{
    name_at(&db.aliases, id.0)
}

/// The name of a type parameter.
pub(crate) fn type_param_name(db: &HirDatabase, id: TypeParamId) -> &[u8]
    ensures { result.now ≡ type_param_name db.now id }
{
    name_at(&db.type_params, id.0)
}

/// The name of a const parameter.
pub(crate) fn const_param_name(db: &HirDatabase, id: ConstParamId) -> &[u8]
    ensures { result.now ≡ const_param_name db.now id }
{
    match db.const_params.get(id.0 as u64) {
        Some(row) => row.name.as_str().as_bytes(),
        None => b"{error}",
    }
}
