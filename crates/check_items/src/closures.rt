//! Whether all ids in the rows of closures are in range.

ghost use Rattle.std.specs.Prelude.{◌≡◌};
ghost use Rattle.std.specs.List.{list_all};
ghost use Rattle.std.specs.Option.{option_copied};
ghost use Rattle.check_items.specs.Names.{is_capture_named, is_closure_named, is_in_body, is_projection_known};

use crate::parts::is_in_range;
use check_names::{are_tys_named, is_def_known, is_field_known, is_nameable, is_ty_named};
use world::{Body, Capture, ClosureRow, HirDatabase, HirPlaceProjection};

/// Whether a projection is no field of a struct, union or variant, or one that is in range.
fn is_projection_known(db: &HirDatabase, step: HirPlaceProjection) -> bool
    ensures { result ≡ is_projection_known db.now step }
{
    match step {
        HirPlaceProjection::Field(field) => is_field_known(db, field),
        HirPlaceProjection::Deref => true,
        HirPlaceProjection::TupleField(_) => true,
    }
}

/// Whether the fields of projections are in range.
fn are_projections_known(db: &HirDatabase, steps: &[HirPlaceProjection]) -> bool
    ensures { result ≡ list_all (is_projection_known db.now) steps.now }
{
    steps.iter().all(|step| is_projection_known(db, *step))
}

/// Whether the binding and the expression of a capture are the body's, and all other ids are in range.
fn is_capture_named(db: &HirDatabase, body: &Body, capture: &Capture) -> bool
    ensures { result ≡ is_capture_named db.now body.now capture.now }
{
    is_in_range(body.bindings.len(), capture.local.0)
        && are_projections_known(db, capture.projections.as_slice())
        && is_ty_named(db, &capture.ty)
        && is_in_range(body.exprs.len(), capture.span.0)
}

/// Whether the bindings and the expressions of captures are the body's, and all other ids are in range.
fn are_captures_named(db: &HirDatabase, body: &Body, captures: &[Capture]) -> bool
    ensures { result ≡ list_all (is_capture_named db.now body.now) captures.now }
{
    captures
        .iter()
        .all(|capture| is_capture_named(db, body, capture))
}

/// Whether there is a body, and the expression and the captures of a closure's row have ids in range for
/// it.
fn is_in_body(db: &HirDatabase, row: &ClosureRow, body: Option<&Body>) -> bool
    ensures { result ≡ is_in_body db.now row.now (option_copied body.entry) }
{
    body.is_some_and(|body| {
        is_in_range(body.exprs.len(), row.expr.0)
            && are_captures_named(db, body, row.captures.as_slice())
    })
}

/// Whether all ids in a closure's row are in range, and its lists are short enough.
pub fn is_closure_named(db: &HirDatabase, row: &ClosureRow) -> bool
    ensures { result ≡ is_closure_named db.now row.now }
{
    is_def_known(db, row.owner)
        && are_tys_named(db, row.params.as_slice())
        && is_nameable(row.captures.len())
        && is_in_body(db, row, db.body(row.owner))
}
