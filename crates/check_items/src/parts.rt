//! Whether all ids in parts that several tables' rows have are in range.

ghost use Rattle.std.specs.Prelude.{◌≡◌, nat_lt};
ghost use Rattle.std.specs.List.{list_all};
ghost use Rattle.world.specs.declared.items.FieldRow.{FieldRow as Field};
ghost use Rattle.check_names.specs.Known.{is_param_known, is_ty_named};
ghost use Rattle.check_items.specs.Names.{are_fields_named, are_params_named, is_body_known, is_function_known, is_sig_named, is_trait_known};

use check_names::{are_tys_named, is_nameable, is_param_known, is_ty_named};
use world::{FieldRow, FnSig, FunctionId, GenericParamId, HirDatabase, List, TraitId};

/// Whether an index is in range for a list of this length.
pub(crate) fn is_in_range(len: u64, place: u32) -> bool
    ensures { result ≡ nat_lt place len }
{
    (place as u64) < len
}

/// Whether an optional body is none, or in range.
pub(crate) fn is_body_known(db: &HirDatabase, body: Option<u32>) -> bool
    ensures { result ≡ is_body_known db.now body }
{
    body.is_none_or(|place| is_in_range(db.bodies.len(), place))
}

/// Whether an optional function is none, or in range.
pub fn is_function_known(db: &HirDatabase, id: Option<FunctionId>) -> bool
    ensures { result ≡ is_function_known db.now id }
{
    id.is_none_or(|id| is_in_range(db.functions.len(), id.0))
}

/// Whether an optional trait is none, or in range.
pub(crate) fn is_trait_known(db: &HirDatabase, id: Option<TraitId>) -> bool
    ensures { result ≡ is_trait_known db.now id }
{
    id.is_none_or(|id| is_in_range(db.traits.len(), id.0))
}

/// Whether the ids of generic parameters are in range.
fn are_params_known(db: &HirDatabase, params: &[GenericParamId]) -> bool
    ensures { result ≡ list_all (is_param_known db.now) params.now }
{
    params.iter().all(|param| is_param_known(db, *param))
}

/// Whether the ids of generic parameters are in range, and their list is short enough for indices of 32
/// bits.
pub(crate) fn are_params_named(db: &HirDatabase, params: &List<GenericParamId>) -> bool
    ensures { result ≡ are_params_named db.now params.now }
{
    is_nameable(params.len()) && are_params_known(db, params.as_slice())
}

/// Whether all ids in the types of a signature are in range.
pub(crate) fn is_sig_named(db: &HirDatabase, sig: &FnSig) -> bool
    ensures { result ≡ is_sig_named db.now sig.now }
{
    are_tys_named(db, sig.params.as_slice()) && is_ty_named(db, &sig.ret)
}

/// Whether all ids in the types of fields are in range.
fn are_field_types_named(db: &HirDatabase, fields: &[FieldRow]) -> bool
    ensures { result ≡ list_all (λ (field : Field). is_ty_named db.now field.ty) fields.now }
{
    fields.iter().all(|field| is_ty_named(db, &field.ty))
}

/// Whether all ids in the types of fields are in range, and their list is short enough for indices of 32
/// bits.
pub(crate) fn are_fields_named(db: &HirDatabase, fields: &List<FieldRow>) -> bool
    ensures { result ≡ are_fields_named db.now fields.now }
{
    is_nameable(fields.len()) && are_field_types_named(db, fields.as_slice())
}
