//! What a call calls: the function that its callee names, as an operand, and whether that function returns.

ghost use Rattle.std.specs.Prelude.{◌≡◌, ℕ, List, [], ◌∷◌, Some, None, IfOk, IfErr, IfSome, IfNone, OnOk};
ghost use Rattle.std.specs.Option.{option_copied};
ghost use Rattle.source_meaning.specs.Built.{CallsFunction, is_direct};
ghost use Rattle.source_meaning.specs.Calls.{function_called, function_in, must_not_return, without_generics};
ghost use Rattle.source_meaning.specs.Core as expr;
ghost use Rattle.source_meaning.specs.Source.{node, own_type};
ghost use Rattle.types.specs.declared.ids.CallableDefId.TheVariants.{FunctionId as CalledFunction};
ghost use Rattle.types.specs.declared.ty.GenericArgs.{GenericArgs};
ghost use Rattle.types.specs.declared.ty.Ty.{FnDef};
ghost use Rattle.body_forms.specs.Callees.{IsCalleeOperand, callee_number};
ghost use Rattle.body_forms.specs.Contexts.{source_of};
ghost use Rattle.body_forms.specs.Refusals.{IsUnbuiltCall, RefusesNode};

use crate::context::Context;
use crate::inferred::own_type;
use crate::literal::constant;
use crate::unbuilt::form_not_built;
use mir::{MirLowerError, Operand, OperandKind};
use std::alloc::Global;
use world::{
    Bytes, CallableDefId, Const, ExprId, FunctionId, FunctionRow, GenericArg, GenericArgs, List,
    MemoryMap, NoMemory, Ty, ValueConst,
};

/// A function, where it is given no generic arguments.
fn without_generics(id: FunctionId, args: &List<GenericArg>) -> Option<FunctionId>
    ensures { result ≡ without_generics id args.now }
{
    match args.as_slice() {
        [] => Some(id),
        _ => None,
    }
}

/// The function that a type is the one of, where it is given no generic arguments.
fn function_in(ty: &Ty) -> Option<FunctionId>
    ensures { result ≡ function_in ty.now }
{
    match ty {
        Ty::FnDef(CallableDefId::FunctionId(id), args) => without_generics(*id, &args.0),
        _ => None,
    }
}

/// Whether a call is one whose callee must not return, so that its terminator has no target. It takes as many comparisons of
/// numbers as the logarithm of the number of such calls.
#[tactic(auto, unfolding(source_meaning::specs::Calls::must_not_return))]
pub fn must_not_return(context: &Context<'_>, e: ExprId) -> bool
    ensures { result ≡ must_not_return (source_of context.now) e.0 }
{
    context.diverging.contains(&e)
}

/// Whether a call of a function enters its own body: it has no generic parameters, isn't declared by a trait, of whose impls
/// a call takes one, and isn't special, as an intrinsic is.
fn is_direct(row: Option<&FunctionRow>) -> bool
    ensures { result ≡ is_direct (option_copied row.entry) }
{
    match row {
        Some(row) => {
            row.generics.as_slice().is_empty() && row.in_trait.is_none() && row.special.is_none()
        }
        None => false,
    }
}

/// The type of a callee that is built: a function that is given no generic arguments, and whose own body a call enters.
fn callee_type<'a>(context: &Context<'a>, callee: ExprId) -> Option<&'a Ty>
    ensures typed { IfSome result (λ ty. own_type (source_of context.now) callee.0 ≡ Some ty.now) }
    ensures built { IfSome result (λ ty. (e : ℕ) → CallsFunction (source_of context.now) e (Some callee.0)) }
    ensures unbuilt { IfNone result ((e : ℕ) → IsUnbuiltCall (source_of context.now) e (Some callee.0)) }
{
    let Some(ty) = own_type(context, callee) else {
        return None;
    };
    let Some(id) = function_in(ty) else {
        return None;
    };
    if is_direct(context.db.functions.get(id.0 as u64)) {
        Some(ty)
    } else {
        None
    }
}

/// The callee that a call has, as an operand: a constant of no bytes of the callee's type, which names the function.
fn named_callee(context: &Context<'_>, e: ExprId, callee: ExprId) -> Result<Operand, MirLowerError>
    requires form { (args : List ℕ) × (node (source_of context.now) e.0 ≡ Some (expr.Call (Some callee.0) args)) }
    ensures callee { IfOk result (λ operand. IsCalleeOperand (source_of context.now) e.0 (Some callee.0) operand.kind) }
    ensures built { OnOk result (CallsFunction (source_of context.now) e.0 (Some callee.0)) }
    ensures refused { IfErr result (RefusesNode (source_of context.now) e.0) }
{
    match callee_type(context, callee) {
        Some(ty) => constant(context, callee, ty, Bytes::new(context.alloc)),
        None => Err(form_not_built(context.alloc)),
    }
}

/// The function that a method call is resolved to, where it is given no generic arguments.
#[tactic(auto, unfolding(source_meaning::specs::Calls::function_called))]
fn method_called(context: &Context<'_>, e: ExprId) -> Option<FunctionId>
    ensures { result ≡ function_called (source_of context.now) e.0 None }
{
    match context.infer.method_res.get(&e) {
        Some(method) => without_generics(method.function, &method.args.0),
        None => None,
    }
}

/// The method of a call that is built: it is given no generic arguments, and its own body is entered.
fn built_method(context: &Context<'_>, e: ExprId) -> Option<FunctionId>
    ensures named { IfSome result (λ id. function_called (source_of context.now) e.0 None ≡ Some id) }
    ensures built { IfSome result (λ id. CallsFunction (source_of context.now) e.0 None) }
    ensures unbuilt { IfNone result (IsUnbuiltCall (source_of context.now) e.0 None) }
{
    let id = method_called(context, e)?;
    if is_direct(context.db.functions.get(id.0 as u64)) {
        Some(id)
    } else {
        None
    }
}

/// The type of a function that is given no generic arguments.
fn function_type(alloc: Global, id: FunctionId) -> Ty
    ensures { (args : GenericArgs) × (result ≡ FnDef (CalledFunction id) args) × (args.0 ≡ []) }
{
    Ty::FnDef(CallableDefId::FunctionId(id), GenericArgs(List::new(alloc)))
}

/// The callee of a method call as an operand: a constant of no bytes, whose type is that of the function that the call is resolved to.
fn method_callee(context: &Context<'_>, e: ExprId) -> Result<Operand, MirLowerError>
    requires form { (args : List ℕ) × (node (source_of context.now) e.0 ≡ Some (expr.Call None args)) }
    ensures callee { IfOk result (λ operand. IsCalleeOperand (source_of context.now) e.0 None operand.kind) }
    ensures built { OnOk result (CallsFunction (source_of context.now) e.0 None) }
    ensures refused { IfErr result (RefusesNode (source_of context.now) e.0) }
{
    match built_method(context, e) {
        Some(id) => {
            let konst = Const::Value(ValueConst {
                ty: function_type(context.alloc, id),
                memory: Bytes::new(context.alloc),
                memory_map: MemoryMap::Empty,
            });
            let ty = function_type(context.alloc, id);
            Ok(Operand {
                kind: OperandKind::Constant { konst, ty },
                span: None,
            })
        }
        None => Err(form_not_built(context.alloc)),
    }
}

/// What a call calls, as an operand: a constant of no bytes, whose type is that of the function that its callee's type names, or that it
/// is resolved to, as a method call is.
pub fn lower_callee(
    context: &Context<'_>,
    e: ExprId,
    callee: Option<ExprId>,
) -> Result<Operand, MirLowerError>
    requires form { (args : List ℕ) × (node (source_of context.now) e.0 ≡ Some (expr.Call (callee_number callee) args)) }
    ensures callee { IfOk result (λ operand. IsCalleeOperand (source_of context.now) e.0 (callee_number callee) operand.kind) }
    ensures built { OnOk result (CallsFunction (source_of context.now) e.0 (callee_number callee)) }
    ensures refused { IfErr result (RefusesNode (source_of context.now) e.0) }
{
    match callee {
        Some(callee) => named_callee(context, e, callee),
        None => method_callee(context, e),
    }
}

/// The arguments of a method call, its receiver first.
pub fn method_args(
    alloc: Global,
    receiver: ExprId,
    args: &[ExprId],
) -> Result<List<ExprId>, NoMemory>
    ensures { IfOk result (λ all. all ≡ receiver ∷ args.now) }
{
    let mut all = List::new(alloc);
    all.push(receiver)?;
    for arg in args {
        all.push(*arg)?;
    }
    Ok(all)
}
