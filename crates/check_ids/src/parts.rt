//! The first part of a typed body that has an id out of range.
ghost use Rattle.std.specs.Prelude.{◌≡◌, ◌&&◌, if◌then◌else◌, true, [], ◌∷◌, Some, None, IfOk};
ghost use Rattle.std.specs.List.{list_all};
ghost use Rattle.check_ids.specs.Inferred.{is_inferred_right};
ghost use Rattle.check_ids.specs.Nodes.{is_binding_in_range, is_expr_in_range, is_pat_in_range};
ghost use Rattle.check_ids.specs.Parts.{FindsWrong, are_roots_known, list_parts, parts_of};
ghost use Rattle.check_ids.specs.declared.part.BodyPart.TheVariants as part;
ghost use Rattle.check_names.specs.Known.{is_in_range};
ghost use Rattle.check_trees.specs.First.{FindsFirst};
ghost use Rattle.world.specs.declared.database.HirDatabase.{HirDatabase as World};
ghost use Rattle.world.specs.declared.infer.InferenceResult.{InferenceResult as Inference};

use crate::BodyPart;
use crate::inferred::is_inferred_right;
use crate::nodes::{is_binding_in_range, is_binding_known, is_expr_in_range, is_pat_in_range};
use check_names::is_nameable;
use std::alloc::Global;
use world::{Binding, Body, Expr, HirDatabase, InferenceResult, NoMemory, Pat, PatId};

/// The part, unless the test passes.
fn unless(passes: bool, found: BodyPart) -> Option<BodyPart>
    ensures { result ≡ (if passes then None else Some found) }
{
    if passes { None } else { Some(found) }
}

/// The index of the first expression that has an id out of range.
fn wrong_expr_among(alloc: Global, body: &Body, nodes: &[Expr]) -> Result<Option<usize>, NoMemory>
    ensures { IfOk result (FindsFirst (λ e node. is_expr_in_range body.now node ≡ true) nodes.now) }
{
    let mut numbers = Vec::new(alloc);
    for (i, node) in nodes.iter().enumerate() {
        if !is_expr_in_range(&mut numbers, body, node)? {
            return Ok(Some(i));
        }
    }
    Ok(None)
}

/// The index of the first pattern that has an id out of range.
fn wrong_pat_among(alloc: Global, body: &Body, nodes: &[Pat]) -> Result<Option<usize>, NoMemory>
    ensures { IfOk result (FindsFirst (λ p node. is_pat_in_range body.now node ≡ true) nodes.now) }
{
    let mut numbers = Vec::new(alloc);
    for (i, node) in nodes.iter().enumerate() {
        if !is_pat_in_range(&mut numbers, body, node)? {
            return Ok(Some(i));
        }
    }
    Ok(None)
}

/// The list of expressions if it is too long, else the first expression that has an id out of range.
fn wrong_expr(alloc: Global, body: &Body) -> Result<Option<BodyPart>, NoMemory>
    ensures { IfOk result (λ found. (world : World) (infer : Inference) → FindsWrong world body.now infer (list_parts part.Exprs part.Expr body.now.exprs) found) }
{
    if !is_nameable(body.exprs.len()) {
        return Ok(Some(BodyPart::Exprs));
    }
    match wrong_expr_among(alloc, body, body.exprs.as_slice())? {
        Some(i) => Ok(Some(BodyPart::Expr(i as u64))),
        None => Ok(None),
    }
}

/// The list of patterns if it is too long, else the first pattern that has an id out of range.
fn wrong_pat(alloc: Global, body: &Body) -> Result<Option<BodyPart>, NoMemory>
    ensures { IfOk result (λ found. (world : World) (infer : Inference) → FindsWrong world body.now infer (list_parts part.Pats part.Pat body.now.pats) found) }
{
    if !is_nameable(body.pats.len()) {
        return Ok(Some(BodyPart::Pats));
    }
    match wrong_pat_among(alloc, body, body.pats.as_slice())? {
        Some(i) => Ok(Some(BodyPart::Pat(i as u64))),
        None => Ok(None),
    }
}

/// The index of the first binding whose closure is no expression of the body.
fn wrong_binding_among(body: &Body, bindings: &[Binding]) -> Option<usize>
    ensures { FindsFirst (λ i binding. is_binding_in_range body.now binding ≡ true) bindings.now result }
{
    bindings
        .iter()
        .position(|binding| !is_binding_in_range(body, binding))
}

/// The list of bindings if it is too long, else the first whose closure is no expression of the body.
fn wrong_binding(body: &Body) -> Option<BodyPart>
    ensures { (world : World) (infer : Inference) → FindsWrong world body.now infer (list_parts part.Bindings part.Binding body.now.bindings) result }
{
    if !is_nameable(body.bindings.len()) {
        return Some(BodyPart::Bindings);
    }
    match wrong_binding_among(body, body.bindings.as_slice()) {
        Some(i) => Some(BodyPart::Binding(i as u64)),
        None => None,
    }
}

/// Whether the body has the patterns of its parameters.
fn are_params_known(body: &Body, params: &[PatId]) -> bool
    ensures { result ≡ list_all (λ id. is_in_range body.now.pats id.0) params.now }
{
    let entries = body.pats.len();
    params.iter().all(|id| (id.0 as u64) < entries)
}

/// Whether the ids of a body's parameters and of its root are in range.
fn are_roots_known(body: &Body) -> bool
    ensures { result ≡ are_roots_known body.now }
{
    are_params_known(body, body.params.as_slice())
        && is_binding_known(body, body.self_param)
        && (body.body_expr.0 as u64) < body.exprs.len()
}

/// Whether the ids of a body's parameters, of its root and of its inference result are in range, and each
/// node has one type.
fn is_rest_right(db: &HirDatabase, body: &Body, infer: &InferenceResult) -> bool
    ensures { result ≡ (are_roots_known body.now && is_inferred_right db.now body.now infer.now) }
{
    are_roots_known(body) && is_inferred_right(db, body, infer)
}

/// The list of labels if it is too long, else the rest of a typed body if an id in it is out of range or
/// a node has not one type.
fn wrong_label_or_rest(db: &HirDatabase, body: &Body, infer: &InferenceResult) -> Option<BodyPart>
    ensures { FindsWrong db.now body.now infer.now (part.Labels ∷ part.Rest ∷ []) result }
{
    let rest = unless(is_rest_right(db, body, infer), BodyPart::Rest);
    unless(is_nameable(body.labels.len()), BodyPart::Labels).or(rest)
}

/// The first part of a typed body that has an id out of range, a list too long for ids of 32 bits, a
/// `char` literal that is no Unicode scalar value, or not one type for each node. It fails only for want
/// of memory.
pub fn wrong_part(
    alloc: Global,
    db: &HirDatabase,
    body: &Body,
    infer: &InferenceResult,
) -> Result<Option<BodyPart>, NoMemory>
    ensures { IfOk result (FindsWrong db.now body.now infer.now (parts_of body.now)) }
{
    let exprs = wrong_expr(alloc, body)?;
    let pats = wrong_pat(alloc, body)?;
    let rest = wrong_label_or_rest(db, body, infer);
    Ok(exprs.or(pats.or(wrong_binding(body).or(rest))))
}
