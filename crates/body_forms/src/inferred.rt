//! What inference found of a body: the types of its expressions and bindings, which types are `Copy`, which calls diverge, and which
//! casts are coercions.

ghost use Rattle.std.specs.Prelude.{◌≡◌, ◌<◌, ◌&&◌, ℕ, length, Some, IfNone, IfOk, IfSome};
ghost use Rattle.std.specs.Option.{option_copied};
ghost use Rattle.source_meaning.specs.Built.{HasArrayType};
ghost use Rattle.source_meaning.specs.Core.{is_coercion, is_number_type, never_step, never_steps, never_target, value_type as type_of_value};
ghost use Rattle.source_meaning.specs.Source.{binding_type, cell_type, diverges, index_bases, monomorphic, node_type, own_type, Never};
ghost use Rattle.types.specs.declared.ty.Ty.TheVariants.{Array};
ghost use Rattle.world.specs.Checked.{IsCheckedBody};
ghost use Rattle.world.specs.Lookups.{is_copy as is_copy_type, type_of};
ghost use Rattle.body_forms.specs.Contexts.{source_of};
ghost use Rattle.body_forms.specs.Copies.{HasCopyTypes};
ghost use Rattle.body_forms.specs.Listed.{HasListed};

use crate::context::Context;
use numbers::Kind;
use std::alloc::Global;
use std::collections::BTreeSet;
use world::{
    Adjust, Adjustment, Body, Const, Expr, ExprId, HirDatabase, InferenceResult, List, NoMemory,
    TryClone, Ty,
};

/// The type that a step leads to, where it is `NeverToAny`.
pub(crate) fn step_target(step: &Adjustment) -> Option<&Ty>
    ensures { option_copied result ≡ never_step step.now.kind step.now.target }
{
    match step.kind {
        Adjust::NeverToAny => Some(&step.target),
        _ => None,
    }
}

/// The type that an expression's value is adjusted to, where `NeverToAny` is its only adjustment.
#[tactic(auto, unfolding(source_meaning::specs::Core::never_target))]
fn never_target<'a>(context: &Context<'a>, e: ExprId) -> Option<&'a Ty>
    ensures { option_copied result ≡ never_target context.now.infer.now e }
{
    match context.infer.expr_adjustments.get(&e)?.as_slice() {
        [step] => step_target(step),
        _ => None,
    }
}

/// Whether an expression's value is adjusted by `NeverToAny`.
pub fn diverges(context: &Context<'_>, e: ExprId) -> bool
    ensures { result ≡ diverges (source_of context.now) e.0 }
{
    never_target(context, e).is_some()
}

/// The type of an expression of a checked body itself, as it is before its value is adjusted.
#[tactic(auto, unfolding(source_meaning::specs::Source::own_type))]
pub fn own_ty<'a>(context: &Context<'a>, e: ExprId) -> &'a Ty
    requires checked { IsCheckedBody context.now.body.now context.now.infer.now }
    requires within { e.0 < length context.now.body.now.exprs }
    ensures { own_type (source_of context.now) e.0 ≡ Some result.now }
{
    &context.infer.expr_types.as_slice()[e.0 as usize]
}

/// The type of the elements and the length of the array that an expression itself is, where it is one by its type.
pub fn array_of<'a>(context: &Context<'a>, e: ExprId) -> Option<(&'a Ty, &'a Const)>
    requires checked { IsCheckedBody context.now.body.now context.now.infer.now }
    requires within { e.0 < length context.now.body.now.exprs }
    ensures some { IfSome result (λ array. own_type (source_of context.now) e.0 ≡ Some (Array array.0.now array.1.now)) }
    ensures none { IfNone result (HasArrayType (source_of context.now) e.0 → ⊥) }
{
    match own_ty(context, e) {
        Ty::Array(element, len) => Some((element.as_ref(), len.as_ref())),
        _ => None,
    }
}

/// The type of the value of an expression of a checked body.
#[tactic(auto, unfolding(source_meaning::specs::Source::node_type))]
pub fn node_ty<'a>(context: &Context<'a>, e: ExprId) -> &'a Ty
    requires checked { IsCheckedBody context.now.body.now context.now.infer.now }
    requires within { e.0 < length context.now.body.now.exprs }
    ensures { node_type (source_of context.now) e.0 ≡ Some result.now }
{
    match never_target(context, e) {
        Some(ty) => ty,
        None => own_ty(context, e),
    }
}

/// The type of an expression itself, where it has one.
#[tactic(auto, unfolding(source_meaning::specs::Source::own_type))]
pub(crate) fn own_type<'a>(context: &Context<'a>, e: ExprId) -> Option<&'a Ty>
    ensures { option_copied result ≡ own_type (source_of context.now) e.0 }
{
    context.infer.expr_types.get(e.0 as u64)
}

/// The type of an expression's value, where it has one.
#[tactic(auto, unfolding(source_meaning::specs::Source::node_type))]
pub fn value_type<'a>(context: &Context<'a>, e: ExprId) -> Option<&'a Ty>
    ensures { option_copied result ≡ node_type (source_of context.now) e.0 }
{
    match never_target(context, e) {
        Some(ty) => Some(ty),
        None => own_type(context, e),
    }
}

/// Whether a type is an integer type, `bool` or `char`.
fn is_number_type(ty: Option<&Ty>) -> bool
    ensures { result ≡ is_number_type (option_copied ty.entry) }
{
    match ty {
        Some(ty) => Kind::of(ty).is_some(),
        None => false,
    }
}

/// Whether a cast of an operand is a coercion. It takes as many comparisons of numbers as the logarithm of the number of such casts.
pub(crate) fn is_coercion(context: &Context<'_>, operand: ExprId) -> bool
    ensures { result ≡ is_coercion context.now.infer.now operand }
{
    context.coercions.contains(&operand)
}

/// Whether a cast is between integers, `bool` and `char`.
#[tactic(auto, unfolding(source_meaning::specs::Source::node_type, source_meaning::specs::Source::own_type))]
pub(crate) fn is_conversion(context: &Context<'_>, cast: ExprId, operand: ExprId) -> bool
    ensures { result ≡ (is_number_type (type_of_value context.now.infer.now operand) && is_number_type (type_of context.now.infer.now cast.0)) }
{
    is_number_type(value_type(context, operand)) && is_number_type(own_type(context, cast))
}

/// The type of an expression's `!`, where it is adjusted by `NeverToAny`.
pub fn never_type<'a>(context: &Context<'a>, e: ExprId) -> Option<&'a Ty>
    ensures { option_copied result ≡ cell_type (source_of context.now) (Never e.0) }
{
    if diverges(context, e) {
        own_type(context, e)
    } else {
        None
    }
}

/// The type of the binding at a place of the body's list, where no closure owns it.
#[tactic(auto, unfolding(source_meaning::specs::Source::binding_type))]
pub fn binding_ty<'a>(context: &Context<'a>, place: u64) -> Option<&'a Ty>
    ensures { option_copied result ≡ binding_type (source_of context.now) place }
{
    match context.body.bindings.get(place) {
        Some(binding) => {
            if binding.owner.is_some() {
                None
            } else {
                context.infer.binding_types.get(place)
            }
        }
        None => None,
    }
}

/// The types that are listed as `Copy`, in their order.
fn copy_types(alloc: Global, infer: &InferenceResult) -> Result<BTreeSet<Ty>, NoMemory>
    ensures { IfOk result (HasCopyTypes infer.now) }
{
    let listed = infer.copy_types.as_slice();
    let mut types = BTreeSet::new(alloc);
    for ty in listed {
        types.insert(ty.try_clone(alloc)?)?;
    }
    Ok(types)
}

/// Listed expressions, in their order.
fn as_set(alloc: Global, listed: &[ExprId]) -> Result<BTreeSet<ExprId>, NoMemory>
    ensures { IfOk result (HasListed listed.now) }
{
    let mut found = BTreeSet::new(alloc);
    for e in listed {
        found.insert(*e)?;
    }
    Ok(found)
}

/// The bases of the index expressions among expressions.
#[tactic(auto, unfolding(source_meaning::specs::Source::index_bases))]
fn index_bases(alloc: Global, exprs: &[Expr]) -> Result<List<ExprId>, NoMemory>
    ensures { IfOk result (λ bases. bases ≡ index_bases exprs.now) }
{
    let mut bases = List::new(alloc);
    for expr in exprs {
        if let Expr::Index { base, .. } = expr {
            bases.push(*base)?;
        }
    }
    Ok(bases)
}

impl<'a> Context<'a> {
    /// A typed body in its world. The only refusal is want of memory for the types that are listed as `Copy`, the calls that are
    /// listed as diverging, the operands of casts that are listed as coercions, and the bases of index expressions.
    pub fn new(
        alloc: Global,
        db: &'a HirDatabase,
        body: &'a Body,
        infer: &'a InferenceResult,
    ) -> Result<Context<'a>, NoMemory>
        ensures { IfOk result (λ context. source_of context ≡ monomorphic db.now body.now infer.now) }
    {
        let bases = index_bases(alloc, body.exprs.as_slice())?;
        Ok(Context {
            alloc,
            db,
            body,
            infer,
            copy_types: copy_types(alloc, infer)?,
            diverging: as_set(alloc, infer.diverging.as_slice())?,
            coercions: as_set(alloc, infer.coercion_casts.as_slice())?,
            bases: as_set(alloc, bases.as_slice())?,
        })
    }
}

/// Whether a type is listed as `Copy`. It takes as many comparisons of types as the logarithm of their number.
pub fn is_copy(context: &Context<'_>, ty: &Ty) -> bool
    ensures { result ≡ is_copy_type context.now.infer.now ty.now }
{
    context.copy_types.contains(ty)
}
