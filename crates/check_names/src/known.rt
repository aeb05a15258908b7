//! Which ids are in range of the tables of a world.

ghost use Rattle.std.specs.Prelude.{◌≡◌, length, nat_lt};
ghost use Rattle.check_names.specs.Known.{is_nameable, is_known, is_named, is_def_known, is_variant_known, is_field_known, is_param_known};

use mentions::Mention;
use world::{DefWithBodyId, FieldId, GenericParamId, HirDatabase, VariantId};

/// Whether an index is in range for a list of this length.
fn is_in_range(len: u64, place: u32) -> bool
    ensures { result ≡ nat_lt place len }
{
    (place as u64) < len
}

/// Whether there are few enough entries for indices of 32 bits.
pub fn is_nameable(entries: u64) -> bool
    ensures { result ≡ is_nameable entries }
{
    entries < 0x1_0000_0000
}

/// Whether the mentioned id is in range. An error and a list have no id, and pass.
pub fn is_known(db: &HirDatabase, mention: Mention) -> bool
    ensures { result ≡ is_known db.now mention }
{
    match mention {
        Mention::Function(id) => is_in_range(db.functions.len(), id.0),
        Mention::Const(id) => is_in_range(db.consts.len(), id.0),
        Mention::Static(id) => is_in_range(db.statics.len(), id.0),
        Mention::Struct(id) => is_in_range(db.structs.len(), id.0),
        Mention::Union(id) => is_in_range(db.unions.len(), id.0),
        Mention::Enum(id) => is_in_range(db.enums.len(), id.0),
        Mention::Variant(id) => is_in_range(db.variants.len(), id.0),
        Mention::Trait(id) => is_in_range(db.traits.len(), id.0),
        Mention::Alias(id) => is_in_range(db.aliases.len(), id.0),
        Mention::TypeParam(id) => is_in_range(db.type_params.len(), id.0),
        Mention::ConstParam(id) => is_in_range(db.const_params.len(), id.0),
        Mention::Closure(id) => is_in_range(db.closures.len(), id.0),
        Mention::Error => true,
        Mention::Entries(_) => true,
    }
}

/// Whether the mentioned id is in range, and a mentioned list is short enough for indices of 32 bits.
pub(crate) fn is_named(db: &HirDatabase, mention: Mention) -> bool
    ensures { result ≡ is_named db.now mention }
{
    match mention {
        Mention::Entries(entries) => is_nameable(entries),
        _ => is_known(db, mention),
    }
}

/// Whether the id of a definition with a body is in range.
pub fn is_def_known(db: &HirDatabase, def: DefWithBodyId) -> bool
    ensures { result ≡ is_def_known db.now def }
{
    match def {
        DefWithBodyId::FunctionId(id) => is_in_range(db.functions.len(), id.0),
        DefWithBodyId::StaticId(id) => is_in_range(db.statics.len(), id.0),
        DefWithBodyId::ConstId(id) => is_in_range(db.consts.len(), id.0),
        DefWithBodyId::VariantId(id) => is_in_range(db.variants.len(), id.0),
    }
}

/// Whether the id of a struct, a union or a variant is in range.
pub fn is_variant_known(db: &HirDatabase, v: VariantId) -> bool
    ensures { result ≡ is_variant_known db.now v }
{
    match v {
        VariantId::EnumVariantId(id) => is_in_range(db.variants.len(), id.0),
        VariantId::StructId(id) => is_in_range(db.structs.len(), id.0),
        VariantId::UnionId(id) => is_in_range(db.unions.len(), id.0),
    }
}

/// Whether a field's struct, union or variant is in range, and has a field at its index.
pub fn is_field_known(db: &HirDatabase, field: FieldId) -> bool
    ensures { result ≡ is_field_known db.now field }
{
    match db.field_types(field.parent) {
        Some(fields) => is_in_range(fields.len(), field.local_id),
        None => false,
    }
}

/// Whether the id of a generic parameter is in range.
pub fn is_param_known(db: &HirDatabase, param: GenericParamId) -> bool
    ensures { result ≡ is_param_known db.now param }
{
    match param {
        GenericParamId::TypeParamId(id) => is_in_range(db.type_params.len(), id.0),
        GenericParamId::ConstParamId(id) => is_in_range(db.const_params.len(), id.0),
    }
}
