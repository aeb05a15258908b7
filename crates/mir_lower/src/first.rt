//! The graph that lowering begins with.

ghost use Rattle.std.specs.Prelude.{◌≡◌, length, IfOk, OnOk};
ghost use Rattle.world.specs.Checked.{IsCheckedBody};
ghost use Rattle.source_meaning.specs.Source.{binding_type};
ghost use Rattle.body_forms.specs.Contexts.{source_of};
ghost use Rattle.mir_graph.specs.Graph.{shape, with_binding};
ghost use Rattle.mir_lower.specs.Growth.{IsFirst};

use body_forms::{Context, binding_ty, node_ty};
use mir::Interner;
use mir_graph::Graph;
use world::{NoMemory, TryClone};

/// Adds the binding at a place of the body's list: a local of its type, where no closure owns it.
fn push_binding<I: Interner>(
    context: &Context<'_>,
    graph: &mut Graph<I>,
    place: u64,
) -> Result<(), NoMemory>
    ensures { OnOk result (shape I.projections graph.new ≡ with_binding (binding_type (source_of context.now) place) (shape I.projections graph.old)) }
{
    match binding_ty(context, place) {
        Some(ty) => graph.push_bound(ty.try_clone(context.alloc)?),
        None => graph.push_unbound(),
    }
}

/// The graph that lowering begins with: one open block, the return slot, and a local for each binding that no closure
/// owns, by rising id. It is over the projections that the interner keeps.
pub(crate) fn first_graph<I: Interner + Drop>(
    context: &Context<'_>,
    projections: I,
) -> Result<Graph<I>, NoMemory>
    requires { IsCheckedBody context.now.body.now context.now.infer.now }
    ensures { IfOk result (λ graph. IsFirst (source_of context.now) (length context.now.body.now.bindings) (shape I.projections graph)) }
{
    let ty = node_ty(context, context.body.body_expr).try_clone(context.alloc)?;
    let mut graph = Graph::new(context.alloc, ty, context.body.exprs.len(), projections)?;
    for place in 0..context.body.bindings.len() {
        push_binding(context, &mut graph, place)?;
    }
    Ok(graph)
}
