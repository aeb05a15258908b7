//! Locals: those of the values of expressions, and those of names.

ghost use Rattle.std.specs.Prelude.{◌≡◌, ◌⊎◌, true, false, IfOk, IfErr, IfSome, OnOk, Some};
ghost use Rattle.mir.specs.declared.errors.MirLowerError.TheVariants as refusal;
ghost use Rattle.mir.specs.declared.statement.StatementKind.TheVariants.{Assign, FakeRead};
ghost use Rattle.source_meaning.specs.Source.{Place as SourcePlace, IndexOf, Node, Binding, Never, node, unadjusted, diverges};
ghost use Rattle.world.specs.Checked.{IsCheckedBody};
ghost use Rattle.source_meaning.specs.Core as expr;
ghost use Rattle.source_meaning.specs.Core.{is_place, local_named};
ghost use Rattle.world.specs.declared.infer.ValueNs.TheVariants.{LocalBinding};
ghost use Rattle.body_forms.specs.Contexts.{source_of};
ghost use Rattle.mir.specs.WholePlaces.{whole_place};
ghost use Rattle.mir_graph.specs.Graph.{shape, with_statement, local_of};
ghost use Rattle.mir_lower.specs.Does.{IsAt};
ghost use Rattle.mir_lower.specs.Growth.{HasEvaluatedIndex, IsSound, IsOpen, IsReady, IsReadyPart};
ghost use Rattle.mir_lower.specs.Lowered.{IsGiven, IsNamed, Binds, IsCombinedIn, IsTargeted};
ghost use Rattle.source_meaning.specs.Built.{AssignsBinding, BindsBinding, CombinesBinding, NamesBinding};
ghost use Rattle.mir_lower.specs.Refusals.{RefusesCombined, RefusesPattern, RefusesTarget};
ghost use Rattle.body_forms.specs.Refusals.{RefusesNode};

use body_forms::{
    Context, compound_path, form_not_built, name_bound, node_ty, own_ty, target_path,
};
use mir::{
    Interner, LocalId, MirLowerError, MirSpan, Operand, OperandKind, Place, Rvalue, Statement,
    StatementKind,
};
use mir_graph::{Graph, Held};
use world::{BindingId, ExprId, PatId, Text, TryClone, ValueNs};

/// Adds an assignment to a place.
pub(crate) fn write<I: Interner>(
    graph: &mut Graph<I>,
    to: Place,
    rvalue: Rvalue,
    span: MirSpan,
) -> Result<(), MirLowerError>
    requires { IsOpen (shape I.projections graph.old) }
    ensures added { OnOk result (shape I.projections graph.new ≡ with_statement (record { kind = Assign to rvalue; span = span }) (shape I.projections graph.old)) }
    ensures refused { IfErr result (λ error. error ≡ refusal.NoMemory) }
{
    graph.push_statement(Statement {
        kind: StatementKind::Assign(to, rvalue),
        span,
    })?;
    Ok(())
}

/// Adds an assignment to a local.
pub(crate) fn assign<I: Interner>(
    graph: &mut Graph<I>,
    to: LocalId,
    rvalue: Rvalue,
    span: MirSpan,
) -> Result<(), MirLowerError>
    requires { IsOpen (shape I.projections graph.old) }
    ensures added { OnOk result (shape I.projections graph.new ≡ with_statement (record { kind = Assign (whole_place to) rvalue; span = span }) (shape I.projections graph.old)) }
    ensures refused { IfErr result (λ error. error ≡ refusal.NoMemory) }
{
    write(graph, Place::from(to), rvalue, span)
}

/// The refusal of a path that names nothing.
fn unresolved(context: &Context<'_>, name: &Text) -> MirLowerError
    ensures { (result ≡ refusal.UnresolvedName name.now) ⊎ (result ≡ refusal.NoMemory) }
{
    match name.try_clone(context.alloc) {
        Ok(name) => MirLowerError::UnresolvedName(name),
        Err(error) => MirLowerError::from(error),
    }
}

/// The binding that a path names, where it names one.
fn binding_named(named: ValueNs) -> Option<BindingId>
    ensures value { result ≡ local_named named }
    ensures some { IfSome result (λ binding. named ≡ LocalBinding binding) }
{
    match named {
        ValueNs::LocalBinding(binding) => Some(binding),
        _ => None,
    }
}

/// The local that a path names: that of a binding.
pub(crate) fn named_local<I: Interner>(
    context: &Context<'_>,
    graph: &Graph<I>,
    e: ExprId,
    name: &Text,
) -> Result<LocalId, MirLowerError>
    requires sound { IsSound (source_of context.now) (shape I.projections graph.now) }
    requires path { node (source_of context.now) e.0 ≡ Some (expr.Path name.now) }
    ensures lowered { IfOk result (λ local. IsNamed (source_of context.now) (shape I.projections graph.now) e.0 local.0) }
    ensures built { OnOk result (NamesBinding (source_of context.now) e.0) }
    ensures refused { IfErr result (RefusesNode (source_of context.now) e.0) }
{
    match context.infer.value_res.get(&e) {
        Some(named) => match binding_named(*named) {
            Some(binding) => match graph.binding_local(binding) {
                Some(local) => Ok(local),
                None => Err(MirLowerError::InaccessibleLocal),
            },
            None => Err(form_not_built(context.alloc)),
        },
        None => Err(unresolved(context, name)),
    }
}

/// Adds `StorageLive` of a binding's local, in the innermost open scope.
fn storage_live<I: Interner>(
    context: &Context<'_>,
    graph: &mut Graph<I>,
    binding: BindingId,
    local: LocalId,
) -> Result<(), MirLowerError>
    requires sound { IsSound (source_of context.now) (shape I.projections graph.old) }
    requires opened { IsOpen (shape I.projections graph.old) }
    requires found { local_of (shape I.projections graph.old) (Binding binding.0) ≡ Some local.0 }
    ensures given { OnOk result (IsGiven (source_of context.now) (shape I.projections graph.old) (shape I.projections graph.new) (Binding binding.0) local.0) }
    ensures refused { IfErr result (λ error. error ≡ refusal.NoMemory) }
{
    graph.mark(Held::Binding(binding), local)?;
    graph.push_statement(Statement {
        kind: StatementKind::StorageLive(local),
        span: MirSpan::BindingId(binding),
    })?;
    Ok(())
}

/// Adds `StorageLive` of a local for the value of an expression, in the innermost open scope.
pub(crate) fn new_temp<I: Interner>(
    context: &Context<'_>,
    graph: &mut Graph<I>,
    e: ExprId,
) -> Result<LocalId, MirLowerError>
    requires ready { IsReadyPart (source_of context.now) (shape I.projections graph.old) e.0 }
    requires form { is_place (unadjusted (source_of context.now) e.0) ≡ false }
    ensures given { IfOk result (λ local. IsGiven (source_of context.now) (shape I.projections graph.old) (shape I.projections graph.new) (Node e.0) local.0) }
    ensures refused { IfErr result (λ error. error ≡ refusal.NoMemory) }
{
    let ty = node_ty(context, e).try_clone(context.alloc)?;
    let local = graph.temp_for(e, ty)?;
    graph.push_statement(Statement {
        kind: StatementKind::StorageLive(local),
        span: MirSpan::ExprId(e),
    })?;
    Ok(local)
}

/// Adds `StorageLive` of a local for the `!` of an expression, in the innermost open scope.
pub(crate) fn new_never<I: Interner>(
    context: &Context<'_>,
    graph: &mut Graph<I>,
    e: ExprId,
) -> Result<LocalId, MirLowerError>
    requires ready { IsReady (source_of context.now) (shape I.projections graph.old) e.0 }
    requires adjusted { diverges (source_of context.now) e.0 ≡ true }
    ensures given { IfOk result (λ local. IsGiven (source_of context.now) (shape I.projections graph.old) (shape I.projections graph.new) (Never e.0) local.0) }
    ensures refused { IfErr result (λ error. error ≡ refusal.NoMemory) }
{
    let ty = own_ty(context, e).try_clone(context.alloc)?;
    let local = graph.never_for(e, ty)?;
    graph.push_statement(Statement {
        kind: StatementKind::StorageLive(local),
        span: MirSpan::ExprId(e),
    })?;
    Ok(local)
}

/// Adds `StorageLive` of a local for the index of an index expression, in the innermost open scope.
pub(crate) fn new_index<I: Interner>(
    context: &Context<'_>,
    graph: &mut Graph<I>,
    e: ExprId,
    index: ExprId,
) -> Result<LocalId, MirLowerError>
    requires checked { IsCheckedBody context.now.body.now context.now.infer.now }
    requires sound { IsSound (source_of context.now) (shape I.projections graph.old) }
    requires opened { IsOpen (shape I.projections graph.old) }
    requires index { HasEvaluatedIndex (source_of context.now) e.0 index.0 }
    ensures given { IfOk result (λ local. IsGiven (source_of context.now) (shape I.projections graph.old) (shape I.projections graph.new) (IndexOf e.0) local.0) }
    ensures refused { IfErr result (λ error. error ≡ refusal.NoMemory) }
{
    let ty = node_ty(context, index).try_clone(context.alloc)?;
    let local = graph.index_for(e, ty)?;
    graph.push_statement(Statement {
        kind: StatementKind::StorageLive(local),
        span: MirSpan::ExprId(e),
    })?;
    Ok(local)
}

/// Notes that the value at a place was named.
pub(crate) fn fake_read<I: Interner>(
    graph: &mut Graph<I>,
    place: Place,
    e: ExprId,
) -> Result<(), MirLowerError>
    requires { IsOpen (shape I.projections graph.old) }
    ensures added { OnOk result (shape I.projections graph.new ≡ with_statement (record { kind = FakeRead place; span = MirSpan.ExprId e }) (shape I.projections graph.old)) }
    ensures refused { IfErr result (λ error. error ≡ refusal.NoMemory) }
{
    graph.push_statement(Statement {
        kind: StatementKind::FakeRead(place),
        span: MirSpan::ExprId(e),
    })?;
    Ok(())
}

/// A name pattern is bound: the bytes of a place are copied to the binding's local.
pub(crate) fn bind<I: Interner>(
    context: &Context<'_>,
    graph: &mut Graph<I>,
    pat: PatId,
    from: Place,
) -> Result<(), MirLowerError>
    requires sound { IsSound (source_of context.now) (shape I.projections graph.old) }
    requires opened { IsOpen (shape I.projections graph.old) }
    ensures lowered { OnOk result ((at : SourcePlace) → IsAt (shape I.projections graph.old) from at
        → Binds (source_of context.now) (shape I.projections graph.old) (shape I.projections graph.new) pat.0 at) }
    ensures built { OnOk result (BindsBinding (source_of context.now) pat.0) }
    ensures refused { IfErr result (RefusesPattern (source_of context.now) pat.0) }
{
    let Some(binding) = name_bound(context, pat) else {
        return Err(form_not_built(context.alloc));
    };
    let Some(local) = graph.binding_local(binding) else {
        return Err(MirLowerError::InaccessibleLocal);
    };
    storage_live(context, graph, binding, local)?;
    let operand = Operand {
        kind: OperandKind::Copy(from),
        span: None,
    };
    assign(graph, local, Rvalue::Use(operand), MirSpan::PatId(pat))
}

/// The local that the path names which the target of an assignment is: that of a binding.
pub(crate) fn target_local<I: Interner>(
    context: &Context<'_>,
    graph: &Graph<I>,
    pat: PatId,
) -> Result<LocalId, MirLowerError>
    requires { IsSound (source_of context.now) (shape I.projections graph.now) }
    ensures lowered { IfOk result (λ local. IsTargeted (source_of context.now) (shape I.projections graph.now) pat.0 local.0) }
    ensures built { OnOk result (AssignsBinding (source_of context.now) pat.0) }
    ensures refused { IfErr result (RefusesTarget (source_of context.now) pat.0) }
{
    let Some(name) = target_path(context, pat) else {
        return Err(form_not_built(context.alloc));
    };
    let Some(named) = context.infer.pat_value_res.get(&pat) else {
        return Err(unresolved(context, name));
    };
    match binding_named(*named) {
        Some(binding) => match graph.binding_local(binding) {
            Some(local) => Ok(local),
            None => Err(MirLowerError::InaccessibleLocal),
        },
        None => Err(form_not_built(context.alloc)),
    }
}

/// The local that the path names which the target of a compound assignment is: that of a binding.
pub(crate) fn combined_local<I: Interner>(
    context: &Context<'_>,
    graph: &Graph<I>,
    e: ExprId,
) -> Result<LocalId, MirLowerError>
    requires { IsSound (source_of context.now) (shape I.projections graph.now) }
    ensures lowered { IfOk result (λ local. IsCombinedIn (source_of context.now) (shape I.projections graph.now) e.0 local.0) }
    ensures built { OnOk result (CombinesBinding (source_of context.now) e.0) }
    ensures refused { IfErr result (RefusesCombined (source_of context.now) e.0) }
{
    let Some(name) = compound_path(context, e) else {
        return Err(form_not_built(context.alloc));
    };
    let Some(named) = context.infer.value_res.get(&e) else {
        return Err(unresolved(context, name));
    };
    match binding_named(*named) {
        Some(binding) => match graph.binding_local(binding) {
            Some(local) => Ok(local),
            None => Err(MirLowerError::InaccessibleLocal),
        },
        None => Err(form_not_built(context.alloc)),
    }
}
