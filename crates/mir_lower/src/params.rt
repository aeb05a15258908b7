//! Parameters: their locals are in use from the start of a body on.

ghost use Rattle.std.specs.Prelude.{◌≡◌, ◌⊎◌, ◌∷◌, [], IfOk, IfErr, OnOk, Some, None};
ghost use Rattle.mir.specs.declared.errors.MirLowerError.TheVariants as refusal;
ghost use Rattle.types.specs.declared.ids.BindingId.{BindingId};
ghost use Rattle.source_meaning.specs.Calls.{self_bound};
ghost use Rattle.source_meaning.specs.Source.{Binding, pattern};
ghost use Rattle.body_forms.specs.Contexts.{source_of};
ghost use Rattle.mir_graph.specs.Graph.{shape, binding_local, with_mark};
ghost use Rattle.mir_lower.specs.Growth.{IsSound};
ghost use Rattle.mir_lower.specs.Parameters.{MarksBindings, LowersParameters};
ghost use Rattle.mir_lower.specs.Refusals.{RefusesPattern, RefusesParameters};

use body_forms::{Context, form_not_built, name_bound};
use mir::{Interner, LocalId, MirLowerError};
use mir_graph::{Graph, Held};
use world::{BindingId, List, PatId};

/// Marks the local of a binding that is a parameter as in use in the innermost open scope. It has no `StorageLive`: an
/// argument is live from the start on.
fn mark_param<I: Interner>(
    graph: &mut Graph<I>,
    binding: BindingId,
) -> Result<LocalId, MirLowerError>
    ensures found { IfOk result (λ local. binding_local (shape I.projections graph.old) binding.0 ≡ Some local.0) }
    ensures marked { OnOk result (shape I.projections graph.new ≡ with_mark (Binding binding.0) (shape I.projections graph.old)) }
    ensures refused { IfErr result (λ error. ((error ≡ refusal.InaccessibleLocal) × (binding_local (shape I.projections graph.old) binding.0 ≡ None)) ⊎ (error ≡ refusal.NoMemory)) }
{
    let Some(local) = graph.binding_local(binding) else {
        return Err(MirLowerError::InaccessibleLocal);
    };
    graph.mark(Held::Binding(binding), local)?;
    Ok(local)
}

/// The local of `self`, where the body has it.
fn lower_self<I: Interner>(
    context: &Context<'_>,
    graph: &mut Graph<I>,
) -> Result<List<LocalId>, MirLowerError>
    requires { IsSound (source_of context.now) (shape I.projections graph.old) }
    ensures lowered { IfOk result (MarksBindings (shape I.projections graph.old) (shape I.projections graph.new) (self_bound context.now.body.now.self_param)) }
    ensures refused { IfErr result (RefusesParameters (source_of context.now)) }
{
    let mut locals = List::new(context.alloc);
    let Some(binding) = context.body.self_param else {
        return Ok(locals);
    };
    let local = mark_param(graph, binding)?;
    locals.push(local)?;
    Ok(locals)
}

/// The local of a parameter: that of the binding that its pattern is the plain name of.
fn lower_param<I: Interner>(
    context: &Context<'_>,
    graph: &mut Graph<I>,
    pat: PatId,
) -> Result<LocalId, MirLowerError>
    requires { IsSound (source_of context.now) (shape I.projections graph.old) }
    ensures lowered { IfOk result (λ local. (binding : BindingId) × (pattern (source_of context.now) pat.0 ≡ Some binding)
        × (binding_local (shape I.projections graph.old) binding.0 ≡ Some local.0) × (shape I.projections graph.new ≡ with_mark (Binding binding.0) (shape I.projections graph.old))) }
    ensures refused { IfErr result (RefusesPattern (source_of context.now) pat.0) }
{
    let Some(binding) = name_bound(context, pat) else {
        return Err(form_not_built(context.alloc));
    };
    mark_param(graph, binding)
}

/// The locals of the parameters, in order, that of `self` first. They are marked as in use in the innermost open scope.
/// A parameter that isn't a name by value is `NotSupported`.
pub(crate) fn lower_params<I: Interner>(
    context: &Context<'_>,
    graph: &mut Graph<I>,
) -> Result<List<LocalId>, MirLowerError>
    requires { IsSound (source_of context.now) (shape I.projections graph.old) }
    ensures lowered { IfOk result (LowersParameters (source_of context.now) (shape I.projections graph.old) (shape I.projections graph.new)) }
    ensures refused { IfErr result (RefusesParameters (source_of context.now)) }
{
    let mut locals = lower_self(context, graph)?;
    let params = context.body.params.as_slice();
    for pat in params {
        let local = lower_param(context, graph, *pat)?;
        locals.push(local)?;
    }
    Ok(locals)
}
