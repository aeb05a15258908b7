//! Whether all ids in the rows of items are in range.

ghost use Rattle.std.specs.Prelude.{◌≡◌};
ghost use Rattle.std.specs.List.{list_all};
ghost use Rattle.types.specs.declared.ids.EnumVariantId.{EnumVariantId as VariantName};
ghost use Rattle.check_names.specs.Known.{is_in_range};
ghost use Rattle.check_items.specs.Names.{is_const_named, is_const_param_named, is_enum_named, is_function_named, is_static_named, is_struct_named, is_variant_named};

use crate::parts::{
    are_fields_named, are_params_named, is_body_known, is_in_range, is_sig_named, is_trait_known,
};
use check_names::{is_nameable, is_ty_named};
use world::{
    ConstParamRow, ConstRow, EnumRow, EnumVariantId, FunctionRow, HirDatabase, StaticRow,
    StructRow, VariantRow,
};

/// Whether all ids in a function's row are in range, and its lists are short enough.
pub fn is_function_named(db: &HirDatabase, row: &FunctionRow) -> bool
    ensures { result ≡ is_function_named db.now row.now }
{
    is_in_range(db.crates.len(), row.krate.0)
        && is_trait_known(db, row.in_trait)
        && are_params_named(db, &row.generics)
        && is_sig_named(db, &row.sig)
        && is_body_known(db, row.body)
}

/// Whether all ids in a constant's row are in range, and its lists are short enough.
pub fn is_const_named(db: &HirDatabase, row: &ConstRow) -> bool
    ensures { result ≡ is_const_named db.now row.now }
{
    is_in_range(db.crates.len(), row.krate.0)
        && are_params_named(db, &row.generics)
        && is_ty_named(db, &row.ty)
        && is_body_known(db, row.body)
}

/// Whether all ids in a static's row are in range, and its lists are short enough.
pub fn is_static_named(db: &HirDatabase, row: &StaticRow) -> bool
    ensures { result ≡ is_static_named db.now row.now }
{
    is_in_range(db.crates.len(), row.krate.0)
        && is_ty_named(db, &row.ty)
        && is_body_known(db, row.body)
}

/// Whether all ids in the row of a struct or a union are in range, and its lists are short enough.
pub fn is_struct_named(db: &HirDatabase, row: &StructRow) -> bool
    ensures { result ≡ is_struct_named db.now row.now }
{
    are_fields_named(db, &row.fields)
}

/// Whether the ids of variants are in range.
fn are_variants_known(db: &HirDatabase, ids: &[EnumVariantId]) -> bool
    ensures { result ≡ list_all (λ (id : VariantName). is_in_range db.now.variants id.0) ids.now }
{
    ids.iter().all(|id| is_in_range(db.variants.len(), id.0))
}

/// Whether the ids of an enum's variants are in range, and their list is short enough for indices of 32
/// bits.
pub fn is_enum_named(db: &HirDatabase, row: &EnumRow) -> bool
    ensures { result ≡ is_enum_named db.now row.now }
{
    is_nameable(row.variants.len()) && are_variants_known(db, row.variants.as_slice())
}

/// Whether all ids in a variant's row are in range, and its lists are short enough.
pub fn is_variant_named(db: &HirDatabase, row: &VariantRow) -> bool
    ensures { result ≡ is_variant_named db.now row.now }
{
    is_in_range(db.crates.len(), row.krate.0)
        && is_in_range(db.enums.len(), row.parent.0)
        && are_fields_named(db, &row.fields)
        && is_body_known(db, row.body)
}

/// Whether all ids in the type of a const parameter are in range.
pub fn is_const_param_named(db: &HirDatabase, row: &ConstParamRow) -> bool
    ensures { result ≡ is_const_param_named db.now row.now }
{
    is_ty_named(db, &row.ty)
}
