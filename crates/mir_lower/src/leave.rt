//! Leaving a scope: what is dropped there, and where each local's storage ends.

ghost use Rattle.std.specs.Prelude.{◌≡◌, ◌≤◌, length, take, drop, OnOk, None};
ghost use Rattle.mir.specs.declared.statement.StatementKind.TheVariants.{StorageDead};
ghost use Rattle.mir.specs.declared.body.TerminatorKind.TheVariants.{Drop as Dropping};
ghost use Rattle.std.specs.Option.{option_copied};
ghost use Rattle.source_meaning.specs.Source.{IndexOf, cell_type, is_dropped, drops};
ghost use Rattle.body_forms.specs.Contexts.{source_of};
ghost use Rattle.mir.specs.WholePlaces.{whole_place};
ghost use Rattle.mir_graph.specs.Graph.{shape, with_statement, with_block, with_terminator, with_scope, cell_of};
ghost use Rattle.mir_lower.specs.Growth.{IsSound, IsOpen};
ghost use Rattle.mir_lower.specs.Leaving.{Idles, one_if};

use body_forms::{Context, binding_ty, is_copy, never_type, value_type};
use mir::{
    BasicBlockId, Interner, LocalId, MirSpan, Place, Statement, StatementKind, Terminator,
    TerminatorKind,
};
use mir_graph::{DropScopeToken, Graph, Held, Marked};
use std::alloc::Global;
use world::{Expr, ExprId, NoMemory, Ty};

/// The type of an expression's index, where it is an index expression.
fn index_type<'a>(context: &Context<'a>, e: ExprId) -> Option<&'a Ty>
    ensures { option_copied result ≡ cell_type (source_of context.now) (IndexOf e.0) }
{
    match context.body.exprs.get(e.0 as u64) {
        Some(Expr::Index { index, .. }) => value_type(context, *index),
        _ => None,
    }
}

/// The type of what a local holds.
fn held_type<'a>(context: &Context<'a>, held: Held) -> Option<&'a Ty>
    ensures { option_copied result ≡ cell_type (source_of context.now) (cell_of held) }
{
    match held {
        Held::Expr(e) => value_type(context, e),
        Held::Binding(binding) => binding_ty(context, binding.0 as u64),
        Held::Never(e) => never_type(context, e),
        Held::Index(e) => index_type(context, e),
    }
}

/// Whether what a local holds is dropped at the end of its scope.
fn is_dropped(context: &Context<'_>, held: Held) -> bool
    ensures { result ≡ is_dropped (source_of context.now) (cell_of held) }
{
    match held_type(context, held) {
        Some(ty) => !is_copy(context, ty),
        None => false,
    }
}

/// Ends the current block by a drop, and goes on in a new one. A block that would be the 2^32nd has no id: `NoMemory`.
fn drop_local<I: Interner>(
    alloc: Global,
    graph: &mut Graph<I>,
    local: LocalId,
    at: ExprId,
) -> Result<(), NoMemory>
    requires { IsOpen (shape I.projections graph.old) }
    ensures { OnOk result ((target : _) × (target.0 ≡ length (shape I.projections graph.old).blocks)
        × (shape I.projections graph.new ≡ with_block (with_terminator (record { span = MirSpan.ExprId at; kind = Dropping (whole_place local) target None }) (shape I.projections graph.old)))) }
{
    let count = graph.blocks.len();
    if count >= u32::MAX as usize {
        return Err(NoMemory);
    }
    let target = BasicBlockId(count as u32);
    graph.set_terminator(Terminator {
        span: MirSpan::ExprId(at),
        kind: TerminatorKind::Drop {
            place: Place::from(local),
            target,
            unwind: None,
        },
    });
    graph.open_block(alloc)
}

/// Drops a local of the scope, where its type isn't `Copy`.
fn drop_if_needed<I: Interner>(
    context: &Context<'_>,
    graph: &mut Graph<I>,
    marked: Marked,
    at: ExprId,
) -> Result<(), NoMemory>
    requires sound { IsSound (source_of context.now) (shape I.projections graph.old) }
    requires opened { IsOpen (shape I.projections graph.old) }
    ensures { OnOk result (Idles (source_of context.now) (shape I.projections graph.old) (shape I.projections graph.new) (one_if (is_dropped (source_of context.now) (cell_of marked.held)))) }
{
    let needed = is_dropped(context, marked.held);
    if needed {
        drop_local(context.alloc, graph, marked.local, at)
    } else {
        Ok(())
    }
}

/// Ends what one local of the scope needs: its drop, where its type isn't `Copy`, and its storage.
fn leave_local<I: Interner>(
    context: &Context<'_>,
    graph: &mut Graph<I>,
    marked: Marked,
    at: ExprId,
) -> Result<(), NoMemory>
    requires sound { IsSound (source_of context.now) (shape I.projections graph.old) }
    requires opened { IsOpen (shape I.projections graph.old) }
    ensures { OnOk result (Idles (source_of context.now) (shape I.projections graph.old) (shape I.projections graph.new) (one_if (is_dropped (source_of context.now) (cell_of marked.held)))) }
{
    drop_if_needed(context, graph, marked, at)?;
    graph.push_statement(Statement {
        kind: StatementKind::StorageDead(marked.local),
        span: MirSpan::ExprId(at),
    })
}

/// What leaving a scope and those inside it does, while their locals stay marked: where a jump leaves them, other code is still
/// inside.
pub(crate) fn leave_marked<I: Interner>(
    context: &Context<'_>,
    graph: &mut Graph<I>,
    token: DropScopeToken,
    at: ExprId,
) -> Result<(), NoMemory>
    requires sound { IsSound (source_of context.now) (shape I.projections graph.old) }
    requires opened { IsOpen (shape I.projections graph.old) }
    ensures { OnOk result (Idles (source_of context.now) (shape I.projections graph.old) (shape I.projections graph.new) (drops (source_of context.now) (drop token.0 (shape I.projections graph.old).scope))) }
{
    let mut left = graph.scope.len();
    while left > token.0 {
        left -= 1;
        let marked = graph.scope[left];
        leave_local(context, graph, marked, at)?;
    }
    Ok(())
}

/// Leaves a scope and those inside it: their locals from the last back. Those that were in use when the scope was
/// opened stay.
pub(crate) fn leave_scope<I: Interner>(
    context: &Context<'_>,
    graph: &mut Graph<I>,
    token: DropScopeToken,
    at: ExprId,
) -> Result<(), NoMemory>
    requires sound { IsSound (source_of context.now) (shape I.projections graph.old) }
    requires opened { IsOpen (shape I.projections graph.old) }
    requires within { token.0 ≤ length (shape I.projections graph.old).scope }
    ensures { OnOk result (Idles (source_of context.now) (with_scope (take token.0 (shape I.projections graph.old).scope) (shape I.projections graph.old)) (shape I.projections graph.new) (drops (source_of context.now) (drop token.0 (shape I.projections graph.old).scope))) }
{
    while let Some(marked) = graph.pop_mark(token) {
        leave_local(context, graph, marked, at)?;
    }
    Ok(())
}
