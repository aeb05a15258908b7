//! Expressions that evaluate no other one: literals, names and `continue`; and whether an expression names a place.

ghost use Rattle.std.specs.Prelude.{◌≡◌, ◌<◌, length, IfErr, OnOk, Some};
ghost use Rattle.source_meaning.specs.Core.{is_place};
ghost use Rattle.source_meaning.specs.Core as expr;
ghost use Rattle.source_meaning.specs.Source.{Cell, node, unadjusted};
ghost use Rattle.body_forms.specs.Contexts.{source_of};
ghost use Rattle.body_forms.specs.Form.{core_value};
ghost use Rattle.mir_graph.specs.Graph.{shape, local_of};
ghost use Rattle.mir_lower.specs.Built.{IsBuilt};
ghost use Rattle.mir_lower.specs.Growth.{IsReady};
ghost use Rattle.mir_lower.specs.Lowered.{LowersOwn};
ghost use Rattle.mir_lower.specs.Refusals.{RefusesAt};

use crate::jump::{jump, target_of_jump};
use crate::locals::{assign, named_local};
use body_forms::{Context, LiteralValue, PlaceForm, copied, lower_literal, place_form_at};
use mir::{Interner, LocalId, MirLowerError, MirSpan, Place, Rvalue};
use mir_graph::Graph;
use world::{ExprId, LabelId, Text};

/// A literal is assigned.
pub(crate) fn literal_into<I: Interner>(
    context: &Context<'_>,
    graph: &mut Graph<I>,
    e: ExprId,
    literal: LiteralValue,
    to: LocalId,
) -> Result<(), MirLowerError>
    requires ready { IsReady (source_of context.now) (shape I.projections graph.old) e.0 }
    requires form { node (source_of context.now) e.0 ≡ Some (expr.Literal (core_value literal)) }
    ensures lowered { OnOk result ((cell : Cell) → local_of (shape I.projections graph.old) cell ≡ Some to.0
        → LowersOwn (source_of context.now) (shape I.projections graph.old) (shape I.projections graph.new) e.0 cell) }
    ensures built { OnOk result (IsBuilt (source_of context.now) e.0) }
    ensures refused { IfErr result (RefusesAt (source_of context.now) e.0) }
{
    let operand = lower_literal(context, e, literal)?;
    assign(graph, to, Rvalue::Use(operand), MirSpan::ExprId(e))
}

/// The bytes of what a path names are copied.
pub(crate) fn name_into<I: Interner>(
    context: &Context<'_>,
    graph: &mut Graph<I>,
    e: ExprId,
    name: &Text,
    to: LocalId,
) -> Result<(), MirLowerError>
    requires ready { IsReady (source_of context.now) (shape I.projections graph.old) e.0 }
    requires form { node (source_of context.now) e.0 ≡ Some (expr.Path name.now) }
    ensures lowered { OnOk result ((cell : Cell) → local_of (shape I.projections graph.old) cell ≡ Some to.0
        → LowersOwn (source_of context.now) (shape I.projections graph.old) (shape I.projections graph.new) e.0 cell) }
    ensures built { OnOk result (IsBuilt (source_of context.now) e.0) }
    ensures refused { IfErr result (RefusesAt (source_of context.now) e.0) }
{
    let from = named_local(context, graph, e, name)?;
    assign(
        graph,
        to,
        Rvalue::Use(copied(Place::from(from), e)),
        MirSpan::ExprId(e),
    )
}

/// A `continue`: the next turn of a loop, or a labelled block from its beginning.
pub(crate) fn lower_continue<I: Interner>(
    context: &Context<'_>,
    graph: &mut Graph<I>,
    e: ExprId,
    label: Option<LabelId>,
) -> Result<(), MirLowerError>
    requires ready { IsReady (source_of context.now) (shape I.projections graph.old) e.0 }
    requires form { node (source_of context.now) e.0 ≡ Some (expr.Continue label) }
    ensures lowered { OnOk result ((cell : Cell) → LowersOwn (source_of context.now) (shape I.projections graph.old) (shape I.projections graph.new) e.0 cell) }
    ensures built { OnOk result (IsBuilt (source_of context.now) e.0) }
    ensures refused { IfErr result (RefusesAt (source_of context.now) e.0) }
{
    let blocks = target_of_jump(graph, label, MirLowerError::ContinueWithoutLoop)?;
    jump(context, graph, blocks.drop_scope, blocks.begin, e)?;
    Ok(())
}

/// Whether an expression that isn't adjusted is a path, a field or an element.
pub(crate) fn names_place(context: &Context<'_>, e: ExprId) -> bool
    requires { e.0 < length context.now.body.now.exprs }
    ensures { result ≡ is_place (unadjusted (source_of context.now) e.0) }
{
    match place_form_at(context, e) {
        PlaceForm::Path(_) => true,
        PlaceForm::Field(..) => true,
        PlaceForm::Value => false,
    }
}
