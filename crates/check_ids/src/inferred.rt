//! Whether the ids in an inference result are in range.
ghost use Rattle.std.specs.Prelude.{◌≡◌, ◌&&◌, true};
ghost use Rattle.check_ids.specs.Inferred.{are_adjustments_named, are_by_expr, are_by_pat, are_exprs_known, are_node_results_named, are_parts_named, are_types_named, are_values_named, has_type_each, is_inferred_right};

use crate::entries::are_entries_named;
use check_names::are_tys_named;
use world::{Body, ExprId, HirDatabase, InferenceResult};

/// Whether there is one type for each expression, pattern and binding.
fn has_type_each(body: &Body, infer: &InferenceResult) -> bool
    ensures { result ≡ has_type_each body.now infer.now }
{
    infer.expr_types.len() == body.exprs.len()
        && infer.pat_types.len() == body.pats.len()
        && infer.binding_types.len() == body.bindings.len()
}

/// Whether all ids in the types are in range.
fn are_types_named(db: &HirDatabase, infer: &InferenceResult) -> bool
    ensures { result ≡ are_types_named db.now infer.now }
{
    are_tys_named(db, infer.expr_types.as_slice())
        && are_tys_named(db, infer.pat_types.as_slice())
        && are_tys_named(db, infer.binding_types.as_slice())
        && are_tys_named(db, infer.copy_types.as_slice())
}

/// Whether the body has these expressions.
fn are_exprs_known(body: &Body, ids: &[ExprId]) -> bool
    ensures { result ≡ are_exprs_known body.now ids.now }
{
    let entries = body.exprs.len();
    ids.iter().all(|id| (id.0 as u64) < entries)
}

/// Whether the nodes with adjustments or binding modes are the body's, and all ids in the types of the
/// adjustments are in range.
fn are_node_adjustments_named(db: &HirDatabase, body: &Body, infer: &InferenceResult) -> bool
    ensures { result ≡ (are_by_expr body.now (are_adjustments_named db.now) infer.now.expr_adjustments && are_by_pat body.now (λ count. true) infer.now.pat_adjustments && are_by_pat body.now (λ mode. true) infer.now.binding_modes) }
{
    are_entries_named(db, body, &infer.expr_adjustments)
        && are_entries_named(db, body, &infer.pat_adjustments)
        && are_entries_named(db, body, &infer.binding_modes)
}

/// Whether the nodes with adjustments, binding modes, coercion casts, divergence or type mismatches are
/// the body's, and all ids in the types of the adjustments are in range.
fn are_node_results_named(db: &HirDatabase, body: &Body, infer: &InferenceResult) -> bool
    ensures { result ≡ are_node_results_named db.now body.now infer.now }
{
    are_node_adjustments_named(db, body, infer)
        && are_exprs_known(body, infer.coercion_casts.as_slice())
        && are_exprs_known(body, infer.diverging.as_slice())
        && are_exprs_known(body, infer.mismatches.as_slice())
}

/// Whether all ids in the resolutions of paths are in range.
fn are_values_named(db: &HirDatabase, body: &Body, infer: &InferenceResult) -> bool
    ensures { result ≡ are_values_named db.now body.now infer.now }
{
    are_entries_named(db, body, &infer.value_res)
        && are_entries_named(db, body, &infer.pat_value_res)
        && are_entries_named(db, body, &infer.assoc_res)
        && are_entries_named(db, body, &infer.pat_assoc_res)
}

/// Whether all ids in the resolutions of variants, fields and methods are in range.
fn are_parts_named(db: &HirDatabase, body: &Body, infer: &InferenceResult) -> bool
    ensures { result ≡ are_parts_named db.now body.now infer.now }
{
    are_entries_named(db, body, &infer.variant_res)
        && are_entries_named(db, body, &infer.pat_variant_res)
        && are_entries_named(db, body, &infer.field_res)
        && are_entries_named(db, body, &infer.method_res)
}

/// Whether an inference result has one type for each node of the body, and all its ids are in range.
pub(crate) fn is_inferred_right(db: &HirDatabase, body: &Body, infer: &InferenceResult) -> bool
    ensures { result ≡ is_inferred_right db.now body.now infer.now }
{
    has_type_each(body, infer)
        && are_types_named(db, infer)
        && are_node_results_named(db, body, infer)
        && are_values_named(db, body, infer)
        && are_parts_named(db, body, infer)
}
