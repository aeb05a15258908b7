//! Normalized types and resolved impl items without aliases and parameters, right layouts and tags, and rows
//! that agree with one another.
ghost use Rattle.std.specs.Prelude.{◌≡◌, IfOk, not};
ghost use Rattle.std.specs.List.{position};
ghost use Rattle.check_items.specs.Agree.{has_all_params, is_closure_row};
ghost use Rattle.check_items.specs.Closed.{is_const_impl_closed, is_impl_closed, is_normal_closed};
ghost use Rattle.check_layouts.proofs.Decided.{tag_answer};
ghost use Rattle.world_check.specs.Rows.{FindsUnmet};

use crate::tables::{numbered_place, row_place};
use crate::trees::wrong_pattern;
use crate::{CheckRow, Place, TableName};
use check_items::{
    has_all_params, is_closure_row, is_const_impl_closed, is_impl_closed, is_normal_closed,
    wrong_variant,
};
use check_layouts::{first_wrong_layout, is_tag_right};
use std::alloc::Global;
use world::{
    AliasId, ClosureRow, ConstImplRow, FunctionRow, GenericArgs, HirDatabase, ImplRow, Layout,
    NoMemory, Ty,
};

/// The first normalized type with an alias or a generic parameter in it.
fn wrong_normal_among(rows: &[(AliasId, GenericArgs, Ty)]) -> Option<usize>
    ensures { result ≡ position (λ row. not (is_normal_closed row)) rows.now }
{
    rows.iter().position(|row| !is_normal_closed(row))
}

/// The first row of resolved functions with an alias or a generic parameter in its arguments.
fn wrong_impl_among(rows: &[ImplRow]) -> Option<usize>
    ensures { result ≡ position (λ row. not (is_impl_closed row)) rows.now }
{
    rows.iter().position(|row| !is_impl_closed(row))
}

/// The first row of resolved constants with an alias or a generic parameter in its arguments.
fn wrong_const_impl_among(rows: &[ConstImplRow]) -> Option<usize>
    ensures { result ≡ position (λ row. not (is_const_impl_closed row)) rows.now }
{
    rows.iter().position(|row| !is_const_impl_closed(row))
}

/// The first row of normalized types and resolved impl items with an alias or a generic parameter in it.
pub(crate) fn wrong_resolution(db: &HirDatabase) -> Option<Place>
    ensures { FindsUnmet CheckRow.C4 db.now result }
{
    let consts = wrong_const_impl_among(db.const_impls.as_slice());
    let functions = wrong_impl_among(db.impls.as_slice());
    let types = wrong_normal_among(db.normals.as_slice());
    let last = row_place(TableName::ConstImpls, consts);
    let second = row_place(TableName::Impls, functions).or(last);
    row_place(TableName::Normals, types).or(second)
}

/// The place of the first layout that breaks a rule of all 64-bit targets.
pub(crate) fn wrong_layout(alloc: Global, db: &HirDatabase) -> Result<Option<Place>, NoMemory>
    ensures { IfOk result (λ found. FindsUnmet CheckRow.C5 db.now found) }
{
    let found = first_wrong_layout(alloc, db)?;
    Ok(row_place(TableName::Layouts, found))
}

/// Whether the tag of a row of `layouts` fits its enum.
fn has_right_tag(db: &HirDatabase, row: &(Ty, Layout)) -> bool
    ensures { result ≡ (tag_answer db.now row.now).0 }
{
    is_tag_right(db, row)
}

/// The index of the first layout whose tag doesn't fit its enum.
fn wrong_tag_among(db: &HirDatabase, rows: &[(Ty, Layout)]) -> Option<usize>
    ensures { result ≡ position (λ row. not (tag_answer db.now row).0) rows.now }
{
    rows.iter().position(|row| !has_right_tag(db, row))
}

/// The place of the first layout whose tag doesn't fit its enum.
pub(crate) fn wrong_tag(db: &HirDatabase) -> Option<Place>
    ensures { FindsUnmet CheckRow.C6 db.now result }
{
    row_place(
        TableName::Layouts,
        wrong_tag_among(db, db.layouts.as_slice()),
    )
}

/// The first function whose body has another number of parameters than its signature.
fn wrong_signature_among(db: &HirDatabase, rows: &[FunctionRow]) -> Option<usize>
    ensures { result ≡ position (λ row. not (has_all_params db.now row)) rows.now }
{
    rows.iter().position(|row| !has_all_params(db, row))
}

/// The first closure's row whose expression is no closure with as many parameters.
fn wrong_closure_expr_among(db: &HirDatabase, rows: &[ClosureRow]) -> Option<usize>
    ensures { result ≡ position (λ row. not (is_closure_row db.now row)) rows.now }
{
    rows.iter().position(|row| !is_closure_row(db, row))
}

/// The first row that doesn't agree with its body, its enum or its expression, or the first pattern whose
/// `..` stands past the end of its subpatterns.
pub(crate) fn wrong_agreement(alloc: Global, db: &HirDatabase) -> Result<Option<Place>, NoMemory>
    ensures { IfOk result (λ found. FindsUnmet CheckRow.C7 db.now found) }
{
    let unlisted = wrong_variant(alloc, db)?;
    let closure = wrong_closure_expr_among(db, db.closures.as_slice());
    let function = wrong_signature_among(db, db.functions.as_slice());
    let ellipsis = wrong_pattern(db);
    let last = row_place(TableName::Closures, closure).or(ellipsis);
    let second = numbered_place(TableName::Variants, unlisted).or(last);
    Ok(row_place(TableName::Functions, function).or(second))
}
