//! Lowering expressions: as an operand, to a place, and into a local.

ghost use Rattle.std.specs.Prelude.{◌≡◌, ◌∷◌, ℕ, false, length, [], IfOk, IfErr, OnOk, Some, None};
ghost use Rattle.mir.specs.declared.errors.MirLowerError.TheVariants as refusal;
ghost use Rattle.numbers.specs.declared.operator.Operator.{Operator};
ghost use Rattle.world.specs.Checked.{IsCheckedBody};
ghost use Rattle.source_meaning.specs.Source.{Cell, index_of, node, unadjusted};
ghost use Rattle.source_meaning.specs.Core.{Combine, is_place};
ghost use Rattle.source_meaning.specs.Core as expr;
ghost use Rattle.source_meaning.specs.Built.{IsBuiltAssigned, IsBuiltAssignee};
ghost use Rattle.source_meaning.specs.Steps.{assigned_parts, assignee_parts, field_parts, parts_of};
ghost use Rattle.world.specs.declared.body.Statement.TheVariants as statement_kind;
ghost use Rattle.body_forms.specs.Callees.{callee_number};
ghost use Rattle.body_forms.specs.Contexts.{source_of};
ghost use Rattle.body_forms.specs.Form.{core_assigned, core_assignee, core_elem, core_form, literal_sources, places_given};
ghost use Rattle.body_forms.specs.declared.form.Form.TheVariants.{Struct, Update};
ghost use Rattle.mir_graph.specs.Graph.{shape, local_of};
ghost use Rattle.mir_lower.specs.Growth.{HasIndex, IsPlaced, IsReady, ArePartsReady, IsReadyPart};
ghost use Rattle.body_forms.specs.Operations.{several_operation, single_operation};
ghost use Rattle.mir_lower.specs.Lowered.{HasStatements, LowersAssigned, LowersAssignee, LowersIndex, LowersInto, LowersField, LowersPlace, LowersOperand, LowersOperands, LowersStatements, LowersTail, IsStatementOf, LowersOwn};
ghost use Rattle.mir_lower.specs.Built.{IsBuilt, IsBuiltThrough};
ghost use Rattle.mir_lower.specs.Refusals.{RefusesAt};
ghost use Rattle.std.specs.Prelude.{All, Contains, IfSome, IsSome, map};
ghost use Rattle.world.specs.Nodes.{expr_numbers, optional};

use crate::branch::{deciding, fork, go_on};
use crate::call::call;
use crate::jump::{enter_loop, jump, leave_loop, return_from, target_of_jump};
use crate::leave::leave_scope;
use crate::locals::{
    assign, bind, combined_local, fake_read, named_local, new_index, new_never, new_temp,
    target_local, write,
};
use crate::simple::{literal_into, lower_continue, name_into, names_place};
use crate::update::field_operands;
use body_forms::{
    Assigned, Assignee, Context, FieldStep, Form, PlaceForm, Several, Single, StructLiteral,
    StructValue, copied, diverges, field_sources, form_at, form_not_built, given_exprs, kind_of,
    literal_at, lower_callee, lower_literal, made_of, method_args, part_elem, place_form_at,
    struct_value, written_exprs,
};
use either::Either;
use mir::{
    AggregateKind, BinOp, Interner, LocalId, MirLowerError, MirSpan, Operand, OperandKind, Place,
    PlaceElem, Rvalue,
};
use mir_graph::Graph;
use world::{ExprId, LabelId, List, LogicOp, PatId, Statement, TryClone, VariantId};

/// An expression as an operand: a literal as it stands, and any other by its place.
#[cycle(lower)]
pub(crate) fn lower_operand<I: Interner>(
    context: &Context<'_>,
    graph: &mut Graph<I>,
    e: ExprId,
) -> Result<Operand, MirLowerError>
    requires { IsReadyPart (source_of context.now) (shape I.projections graph.old) e.0 }
    ensures lowered { IfOk result (λ operand. LowersOperand (source_of context.now) (shape I.projections graph.old) (shape I.projections graph.new) e.0 operand.kind) }
    ensures built { OnOk result (IsBuilt (source_of context.now) e.0) }
    ensures refused { IfErr result (RefusesAt (source_of context.now) e.0) }
{
    match literal_at(context, e) {
        Some(literal) => lower_literal(context, e, literal),
        None => {
            let place = lower_place(context, graph, e)?;
            Ok(copied(place, e))
        }
    }
}

/// An expression to a place: what a path names, a field or an element of its base's place, or a local of its own.
#[cycle(lower)]
fn lower_place<I: Interner>(
    context: &Context<'_>,
    graph: &mut Graph<I>,
    e: ExprId,
) -> Result<Place, MirLowerError>
    requires { IsReadyPart (source_of context.now) (shape I.projections graph.old) e.0 }
    ensures lowered { IfOk result (λ place. LowersPlace (source_of context.now) (shape I.projections graph.old) (shape I.projections graph.new) e.0 place) }
    ensures built { OnOk result (IsBuilt (source_of context.now) e.0) }
    ensures refused { IfErr result (RefusesAt (source_of context.now) e.0) }
{
    match place_form_at(context, e) {
        PlaceForm::Path(name) => Ok(Place::from(named_local(context, graph, e, name)?)),
        PlaceForm::Field(base, step) => lower_field(context, graph, e, base, step),
        PlaceForm::Value => lower_temp(context, graph, e),
    }
}

/// The place of a field or an element: its base's place, with one more element. The base, and the index of an element, are parts of the given expression, which is
/// the field, or has it as its target.
#[cycle(lower)]
fn lower_field<I: Interner>(
    context: &Context<'_>,
    graph: &mut Graph<I>,
    e: ExprId,
    base: ExprId,
    step: FieldStep,
) -> Result<Place, MirLowerError>
    requires ready { ArePartsReady (source_of context.now) (shape I.projections graph.old) e.0 }
    requires parts { (child : ℕ) → Contains (field_parts base.0 (core_elem step)) child → Contains (parts_of (node (source_of context.now) e.0)) child }
    requires index { HasIndex (source_of context.now) (core_elem step) }
    ensures lowered { IfOk result (λ place. LowersField (source_of context.now) (shape I.projections graph.old) (shape I.projections graph.new) base.0 (core_elem step) place) }
    ensures built { OnOk result (All (IsBuilt (source_of context.now)) (field_parts base.0 (core_elem step))) }
    ensures refused { IfErr result (RefusesAt (source_of context.now) e.0) }
{
    let place = lower_place(context, graph, base)?;
    match step {
        FieldStep::Part(index) => Ok(graph.project(place, part_elem(index))?),
        FieldStep::Field(field) => {
            Ok(graph.project(place, PlaceElem::Field(Either::Left(field)))?)
        }
        FieldStep::Element(at, index) => {
            let local = lower_index(context, graph, e, at, index)?;
            Ok(graph.project(place, PlaceElem::Index(local))?)
        }
    }
}

/// The index of an element, evaluated into a local of its own. The index is a part of the given expression, which is the index expression `at`, or has
/// it as its target.
#[cycle(lower)]
fn lower_index<I: Interner>(
    context: &Context<'_>,
    graph: &mut Graph<I>,
    e: ExprId,
    at: ExprId,
    index: ExprId,
) -> Result<LocalId, MirLowerError>
    requires ready { ArePartsReady (source_of context.now) (shape I.projections graph.old) e.0 }
    requires part { Contains (parts_of (node (source_of context.now) e.0)) index.0 }
    requires index { index_of (source_of context.now) at.0 ≡ Some index.0 }
    ensures lowered { IfOk result (λ local. LowersIndex (source_of context.now) (shape I.projections graph.old) (shape I.projections graph.new) at.0 index.0 local.0) }
    ensures built { OnOk result (IsBuilt (source_of context.now) index.0) }
    ensures refused { IfErr result (RefusesAt (source_of context.now) e.0) }
{
    let local = new_index(context, graph, at, index)?;
    lower_into(context, graph, index, local)?;
    Ok(local)
}

/// A field or an element evaluated into a local: the bytes of its place are copied.
#[cycle(lower)]
fn field_into<I: Interner>(
    context: &Context<'_>,
    graph: &mut Graph<I>,
    e: ExprId,
    base: ExprId,
    step: FieldStep,
    to: LocalId,
) -> Result<(), MirLowerError>
    requires ready { IsReady (source_of context.now) (shape I.projections graph.old) e.0 }
    requires form { node (source_of context.now) e.0 ≡ Some (expr.Field base.0 (core_elem step)) }
    ensures lowered { OnOk result ((cell : Cell) → local_of (shape I.projections graph.old) cell ≡ Some to.0
        → LowersOwn (source_of context.now) (shape I.projections graph.old) (shape I.projections graph.new) e.0 cell) }
    ensures built { OnOk result (IsBuilt (source_of context.now) e.0) }
    ensures refused { IfErr result (RefusesAt (source_of context.now) e.0) }
{
    let from = lower_field(context, graph, e, base, step)?;
    assign(graph, to, Rvalue::Use(copied(from, e)), MirSpan::ExprId(e))
}

/// An expression that is no place goes into a local of its own, which is then its place.
#[cycle(lower)]
fn lower_temp<I: Interner>(
    context: &Context<'_>,
    graph: &mut Graph<I>,
    e: ExprId,
) -> Result<Place, MirLowerError>
    requires ready { IsReadyPart (source_of context.now) (shape I.projections graph.old) e.0 }
    requires form { is_place (unadjusted (source_of context.now) e.0) ≡ false }
    ensures lowered { IfOk result (λ place. LowersPlace (source_of context.now) (shape I.projections graph.old) (shape I.projections graph.new) e.0 place) }
    ensures built { OnOk result (IsBuilt (source_of context.now) e.0) }
    ensures refused { IfErr result (RefusesAt (source_of context.now) e.0) }
{
    let local = new_temp(context, graph, e)?;
    lower_into(context, graph, e, local)?;
    Ok(Place::from(local))
}

/// An expression evaluated into a local. What is adjusted by `NeverToAny` goes into a local of its own, and the given one isn't written.
#[cycle(lower)]
pub(crate) fn lower_into<I: Interner>(
    context: &Context<'_>,
    graph: &mut Graph<I>,
    e: ExprId,
    to: LocalId,
) -> Result<(), MirLowerError>
    requires ready { IsReady (source_of context.now) (shape I.projections graph.old) e.0 }
    requires placed { IsPlaced (shape I.projections graph.old) to.0 }
    ensures lowered { OnOk result ((cell : Cell) → local_of (shape I.projections graph.old) cell ≡ Some to.0
        → LowersInto (source_of context.now) (shape I.projections graph.old) (shape I.projections graph.new) e.0 cell) }
    ensures built { OnOk result (IsBuilt (source_of context.now) e.0) }
    ensures refused { IfErr result (RefusesAt (source_of context.now) e.0) }
{
    if diverges(context, e) {
        let never = new_never(context, graph, e)?;
        lower_own(context, graph, e, never)
    } else {
        lower_own(context, graph, e, to)
    }
}

/// An expression itself evaluated into a local, as it is before its value is adjusted.
#[cycle(lower)]
fn lower_own<I: Interner>(
    context: &Context<'_>,
    graph: &mut Graph<I>,
    e: ExprId,
    to: LocalId,
) -> Result<(), MirLowerError>
    requires ready { IsReady (source_of context.now) (shape I.projections graph.old) e.0 }
    requires placed { IsPlaced (shape I.projections graph.old) to.0 }
    ensures lowered { OnOk result ((cell : Cell) → local_of (shape I.projections graph.old) cell ≡ Some to.0
        → LowersOwn (source_of context.now) (shape I.projections graph.old) (shape I.projections graph.new) e.0 cell) }
    ensures built { OnOk result (IsBuilt (source_of context.now) e.0) }
    ensures refused { IfErr result (RefusesAt (source_of context.now) e.0) }
{
    match form_at(context, e) {
        Form::Literal(literal) => literal_into(context, graph, e, literal, to),
        Form::Path(name) => name_into(context, graph, e, name, to),
        Form::UnitStruct => Ok(()),
        Form::Field(base, step) => field_into(context, graph, e, base, step, to),
        Form::Unary(op, operand) => {
            lower_single(context, graph, e, Single::Unary(op), operand, to)
        }
        Form::Coercion(operand) => {
            lower_single(context, graph, e, Single::Coercion, operand, to)
        }
        Form::Cast(operand) => lower_single(context, graph, e, Single::Cast, operand, to),
        Form::Repeat(operand) => lower_single(context, graph, e, Single::Repeat, operand, to),
        Form::Tuple(parts) => {
            lower_aggregate(context, graph, e, Several::Tuple, parts.as_slice(), to)
        }
        Form::Array(elements) => {
            lower_aggregate(context, graph, e, Several::Array, elements.as_slice(), to)
        }
        Form::Struct(value) => lower_struct(context, graph, e, value, to),
        Form::Update(literal, base) => lower_update(context, graph, e, literal, base, to),
        Form::Binary(op, lhs, rhs) => lower_binary(context, graph, e, op, lhs, rhs, to),
        Form::Logic(op, lhs, rhs) => lower_logic(context, graph, e, op, lhs, rhs, to),
        Form::If(condition, then_branch, else_branch) => {
            lower_if(context, graph, e, condition, then_branch, else_branch, to)
        }
        Form::Assign(to, value) => lower_assignment(context, graph, e, to, value),
        Form::Compound(op, to, value) => lower_compound(context, graph, e, op, to, value),
        Form::Block(statements, tail) => lower_block(context, graph, e, statements, tail, to),
        Form::Labelled(label, statements, tail) => {
            lower_labelled(context, graph, e, label, statements, tail, to)
        }
        Form::Loop(label, body) => lower_loop(context, graph, e, label, body, to),
        Form::Break(label, value) => lower_break(context, graph, e, label, value),
        Form::Continue(label) => lower_continue(context, graph, e, label),
        Form::Return(value) => lower_return(context, graph, e, value),
        Form::Call(callee, args) => {
            lower_call(context, graph, e, Some(callee), args.as_slice(), to)
        }
        Form::MethodCall(receiver, args) => {
            lower_method_call(context, graph, e, receiver, args.as_slice(), to)
        }
        Form::Incomplete => Err(MirLowerError::IncompleteExpr),
        Form::Unbuilt => Err(form_not_built(context.alloc)),
    }
}

/// An operation on one operand: the operand, and then the operation.
#[cycle(lower)]
fn lower_single<I: Interner>(
    context: &Context<'_>,
    graph: &mut Graph<I>,
    e: ExprId,
    single: Single,
    operand: ExprId,
    to: LocalId,
) -> Result<(), MirLowerError>
    requires ready { IsReady (source_of context.now) (shape I.projections graph.old) e.0 }
    requires form { node (source_of context.now) e.0 ≡ Some (expr.Strict (single_operation single) (operand.0 ∷ [])) }
    ensures lowered { OnOk result ((cell : Cell) → local_of (shape I.projections graph.old) cell ≡ Some to.0
        → LowersOwn (source_of context.now) (shape I.projections graph.old) (shape I.projections graph.new) e.0 cell) }
    ensures built { OnOk result (IsBuilt (source_of context.now) e.0) }
    ensures refused { IfErr result (RefusesAt (source_of context.now) e.0) }
{
    let value = lower_operand(context, graph, operand)?;
    let rvalue = made_of(context, e, single, value)?;
    assign(graph, to, rvalue, MirSpan::ExprId(e))
}

/// A tuple or an array: the operands of its parts from left to right, and then the aggregate of all.
#[cycle(lower)]
fn lower_aggregate<I: Interner>(
    context: &Context<'_>,
    graph: &mut Graph<I>,
    e: ExprId,
    several: Several,
    parts: &[ExprId],
    to: LocalId,
) -> Result<(), MirLowerError>
    requires ready { IsReady (source_of context.now) (shape I.projections graph.old) e.0 }
    requires form { node (source_of context.now) e.0 ≡ Some (expr.Strict (several_operation several) (expr_numbers parts.now)) }
    ensures lowered { OnOk result ((cell : Cell) → local_of (shape I.projections graph.old) cell ≡ Some to.0
        → LowersOwn (source_of context.now) (shape I.projections graph.old) (shape I.projections graph.new) e.0 cell) }
    ensures built { OnOk result (IsBuilt (source_of context.now) e.0) }
    ensures refused { IfErr result (RefusesAt (source_of context.now) e.0) }
{
    let kind = kind_of(context, e, several)?;
    let operands = lower_operands(context, graph, e, parts)?;
    assign(
        graph,
        to,
        Rvalue::Aggregate(kind, operands),
        MirSpan::ExprId(e),
    )
}

/// A struct: the operands of its fields in the order in which they are written or passed to its constructor, and then the struct of all.
#[cycle(lower)]
fn lower_struct<I: Interner>(
    context: &Context<'_>,
    graph: &mut Graph<I>,
    e: ExprId,
    value: StructValue<'_>,
    to: LocalId,
) -> Result<(), MirLowerError>
    requires ready { IsReady (source_of context.now) (shape I.projections graph.old) e.0 }
    requires form { node (source_of context.now) e.0 ≡ core_form (Struct value) }
    requires given { IsSome (places_given value) }
    ensures lowered { OnOk result ((cell : Cell) → local_of (shape I.projections graph.old) cell ≡ Some to.0
        → LowersOwn (source_of context.now) (shape I.projections graph.old) (shape I.projections graph.new) e.0 cell) }
    ensures built { OnOk result (IsBuilt (source_of context.now) e.0) }
    ensures refused { IfErr result (RefusesAt (source_of context.now) e.0) }
{
    let parts = given_exprs(context.alloc, value.given)?;
    let operands = lower_operands(context, graph, e, parts.as_slice())?;
    let made = struct_value(context.alloc, value, operands)?;
    assign(graph, to, made, MirSpan::ExprId(e))
}

/// A struct with a base: the base's place, the operands that are written, and then the struct of these and of fields of the base.
#[cycle(lower)]
fn lower_update<I: Interner>(
    context: &Context<'_>,
    graph: &mut Graph<I>,
    e: ExprId,
    literal: StructLiteral<'_>,
    base: ExprId,
    to: LocalId,
) -> Result<(), MirLowerError>
    requires ready { IsReady (source_of context.now) (shape I.projections graph.old) e.0 }
    requires form { node (source_of context.now) e.0 ≡ core_form (Update literal base) }
    requires given { IsSome (literal_sources literal) }
    ensures lowered { OnOk result ((cell : Cell) → local_of (shape I.projections graph.old) cell ≡ Some to.0
        → LowersOwn (source_of context.now) (shape I.projections graph.old) (shape I.projections graph.new) e.0 cell) }
    ensures built { OnOk result (IsBuilt (source_of context.now) e.0) }
    ensures refused { IfErr result (RefusesAt (source_of context.now) e.0) }
{
    let from = lower_place(context, graph, base)?;
    let parts = written_exprs(context.alloc, literal.written.as_slice())?;
    let operands = lower_operands(context, graph, e, parts.as_slice())?;
    let sources = field_sources(context.alloc, literal)?;
    let fields = field_operands(context.alloc, graph, from, sources.as_slice(), &operands)?;
    let args = literal.made.args.try_clone(context.alloc)?;
    let kind = AggregateKind::Adt(VariantId::StructId(literal.made.id), args);
    assign(
        graph,
        to,
        Rvalue::Aggregate(kind, fields),
        MirSpan::ExprId(e),
    )
}

/// An operator on two operands: the operands from left to right, and then the operation.
#[cycle(lower)]
fn lower_binary<I: Interner>(
    context: &Context<'_>,
    graph: &mut Graph<I>,
    e: ExprId,
    op: BinOp,
    lhs: ExprId,
    rhs: ExprId,
    to: LocalId,
) -> Result<(), MirLowerError>
    requires ready { IsReady (source_of context.now) (shape I.projections graph.old) e.0 }
    requires form { node (source_of context.now) e.0 ≡ Some (expr.Strict (Combine op) (lhs.0 ∷ rhs.0 ∷ [])) }
    ensures lowered { OnOk result ((cell : Cell) → local_of (shape I.projections graph.old) cell ≡ Some to.0
        → LowersOwn (source_of context.now) (shape I.projections graph.old) (shape I.projections graph.new) e.0 cell) }
    ensures built { OnOk result (IsBuilt (source_of context.now) e.0) }
    ensures refused { IfErr result (RefusesAt (source_of context.now) e.0) }
{
    let left = lower_operand(context, graph, lhs)?;
    let right = lower_operand(context, graph, rhs)?;
    assign(
        graph,
        to,
        Rvalue::CheckedBinaryOp(op, left, right),
        MirSpan::ExprId(e),
    )
}

/// `&&` or `||`: the left operand, a test of it, and then it is the value where it decides, and else the right operand.
#[cycle(lower)]
fn lower_logic<I: Interner>(
    context: &Context<'_>,
    graph: &mut Graph<I>,
    e: ExprId,
    op: LogicOp,
    lhs: ExprId,
    rhs: ExprId,
    to: LocalId,
) -> Result<(), MirLowerError>
    requires ready { IsReady (source_of context.now) (shape I.projections graph.old) e.0 }
    requires form { node (source_of context.now) e.0 ≡ Some (expr.Logic op lhs.0 rhs.0) }
    requires placed { IsPlaced (shape I.projections graph.old) to.0 }
    ensures lowered { OnOk result ((cell : Cell) → local_of (shape I.projections graph.old) cell ≡ Some to.0
        → LowersOwn (source_of context.now) (shape I.projections graph.old) (shape I.projections graph.new) e.0 cell) }
    ensures built { OnOk result (IsBuilt (source_of context.now) e.0) }
    ensures refused { IfErr result (RefusesAt (source_of context.now) e.0) }
{
    let left = lower_operand(context, graph, lhs)?;
    let test = left.try_clone(context.alloc)?;
    let branches = fork(context, graph, test, deciding(op), e)?;
    assign(graph, to, Rvalue::Use(left), MirSpan::ExprId(e))?;
    go_on(graph, branches.join, branches.other, e);
    lower_into(context, graph, rhs, to)?;
    go_on(graph, branches.join, branches.join, e);
    Ok(())
}

/// An `if`: its condition, a test of it, and then a branch.
#[cycle(lower)]
fn lower_if<I: Interner>(
    context: &Context<'_>,
    graph: &mut Graph<I>,
    e: ExprId,
    condition: ExprId,
    then_branch: ExprId,
    else_branch: Option<ExprId>,
    to: LocalId,
) -> Result<(), MirLowerError>
    requires ready { IsReady (source_of context.now) (shape I.projections graph.old) e.0 }
    requires form { node (source_of context.now) e.0 ≡ Some (expr.If condition.0 then_branch.0 else_branch) }
    requires placed { IsPlaced (shape I.projections graph.old) to.0 }
    ensures lowered { OnOk result ((cell : Cell) → local_of (shape I.projections graph.old) cell ≡ Some to.0
        → LowersOwn (source_of context.now) (shape I.projections graph.old) (shape I.projections graph.new) e.0 cell) }
    ensures built { OnOk result (IsBuilt (source_of context.now) e.0) }
    ensures refused { IfErr result (RefusesAt (source_of context.now) e.0) }
{
    let test = lower_operand(context, graph, condition)?;
    let branches = fork(context, graph, test, 1, e)?;
    lower_into(context, graph, then_branch, to)?;
    go_on(graph, branches.join, branches.other, e);
    lower_tail(context, graph, e, else_branch, to)?;
    go_on(graph, branches.join, branches.join, e);
    Ok(())
}

/// The place that an assignment writes to: the local that a path names, or the place of an expression. An expression that names no
/// place has none but a local of its own, which isn't assigned.
#[cycle(lower)]
fn lower_assignee<I: Interner>(
    context: &Context<'_>,
    graph: &mut Graph<I>,
    e: ExprId,
    to: Assignee,
) -> Result<Place, MirLowerError>
    requires ready { ArePartsReady (source_of context.now) (shape I.projections graph.old) e.0 }
    requires form { (value : ℕ) × (node (source_of context.now) e.0 ≡ Some (expr.Assign (core_assignee to) value)) }
    ensures lowered { IfOk result (λ place. LowersAssignee (source_of context.now) (shape I.projections graph.old) (shape I.projections graph.new) (core_assignee to) place) }
    ensures built { OnOk result (IsBuiltAssignee (source_of context.now) (core_assignee to)) }
    ensures parts { OnOk result (All (IsBuilt (source_of context.now)) (assignee_parts (core_assignee to))) }
    ensures refused { IfErr result (RefusesAt (source_of context.now) e.0) }
{
    match to {
        Assignee::Pattern(pat) => Ok(Place::from(target_local(context, graph, pat)?)),
        Assignee::Place(target) => {
            if names_place(context, target) {
                lower_place(context, graph, target)
            } else {
                Err(form_not_built(context.alloc))
            }
        }
    }
}

/// An assignment: the value's place, that of the target, and then the value's bytes are copied there. The assignment itself is `()`,
/// of which nothing is written.
#[cycle(lower)]
fn lower_assignment<I: Interner>(
    context: &Context<'_>,
    graph: &mut Graph<I>,
    e: ExprId,
    to: Assignee,
    value: ExprId,
) -> Result<(), MirLowerError>
    requires ready { IsReady (source_of context.now) (shape I.projections graph.old) e.0 }
    requires form { node (source_of context.now) e.0 ≡ Some (expr.Assign (core_assignee to) value.0) }
    ensures lowered { OnOk result ((cell : Cell) → LowersOwn (source_of context.now) (shape I.projections graph.old) (shape I.projections graph.new) e.0 cell) }
    ensures built { OnOk result (IsBuilt (source_of context.now) e.0) }
    ensures refused { IfErr result (RefusesAt (source_of context.now) e.0) }
{
    let from = lower_place(context, graph, value)?;
    fake_read(graph, from, value)?;
    let place = lower_assignee(context, graph, e, to)?;
    let operand = Operand {
        kind: OperandKind::Copy(from),
        span: None,
    };
    let span = match to {
        Assignee::Pattern(pat) => MirSpan::PatId(pat),
        Assignee::Place(target) => MirSpan::ExprId(target),
    };
    write(graph, place, Rvalue::Use(operand), span)
}

/// The place that a compound assignment reads and writes: the local that a path names, or a field's place.
#[cycle(lower)]
fn lower_assigned<I: Interner>(
    context: &Context<'_>,
    graph: &mut Graph<I>,
    e: ExprId,
    to: Assigned,
) -> Result<Place, MirLowerError>
    requires ready { ArePartsReady (source_of context.now) (shape I.projections graph.old) e.0 }
    requires form { (op : Operator) × (value : ℕ) × (node (source_of context.now) e.0 ≡ Some (expr.Compound op (core_assigned to) value)) }
    ensures lowered { IfOk result (λ place. LowersAssigned (source_of context.now) (shape I.projections graph.old) (shape I.projections graph.new) (core_assigned to) place) }
    ensures built { OnOk result (IsBuiltAssigned (source_of context.now) (core_assigned to)) }
    ensures parts { OnOk result (All (IsBuilt (source_of context.now)) (assigned_parts (core_assigned to))) }
    ensures refused { IfErr result (RefusesAt (source_of context.now) e.0) }
{
    match to {
        Assigned::Path(target) => Ok(Place::from(combined_local(context, graph, target)?)),
        Assigned::Field(base, step) => lower_field(context, graph, e, base, step),
    }
}

/// A compound assignment: the target's place, the value's operand, and then the place is assigned what the operator makes of both.
/// The assignment itself is `()`, of which nothing is written.
#[cycle(lower)]
fn lower_compound<I: Interner>(
    context: &Context<'_>,
    graph: &mut Graph<I>,
    e: ExprId,
    op: BinOp,
    to: Assigned,
    value: ExprId,
) -> Result<(), MirLowerError>
    requires ready { IsReady (source_of context.now) (shape I.projections graph.old) e.0 }
    requires form { node (source_of context.now) e.0 ≡ Some (expr.Compound op (core_assigned to) value.0) }
    ensures lowered { OnOk result ((cell : Cell) → LowersOwn (source_of context.now) (shape I.projections graph.old) (shape I.projections graph.new) e.0 cell) }
    ensures built { OnOk result (IsBuilt (source_of context.now) e.0) }
    ensures refused { IfErr result (RefusesAt (source_of context.now) e.0) }
{
    let place = lower_assigned(context, graph, e, to)?;
    let given = lower_operand(context, graph, value)?;
    let own = Operand {
        kind: OperandKind::Copy(place),
        span: None,
    };
    write(
        graph,
        place,
        Rvalue::CheckedBinaryOp(op, own, given),
        MirSpan::ExprId(e),
    )
}

/// A block: its statements, its tail, and then its scope is left.
#[cycle(lower)]
fn lower_block<I: Interner>(
    context: &Context<'_>,
    graph: &mut Graph<I>,
    e: ExprId,
    statements: &List<Statement>,
    tail: Option<ExprId>,
    to: LocalId,
) -> Result<(), MirLowerError>
    requires ready { IsReady (source_of context.now) (shape I.projections graph.old) e.0 }
    requires form { node (source_of context.now) e.0 ≡ Some (expr.Block statements.now tail) }
    requires placed { IsPlaced (shape I.projections graph.old) to.0 }
    ensures lowered { OnOk result ((cell : Cell) → local_of (shape I.projections graph.old) cell ≡ Some to.0
        → LowersOwn (source_of context.now) (shape I.projections graph.old) (shape I.projections graph.new) e.0 cell) }
    ensures built { OnOk result (IsBuilt (source_of context.now) e.0) }
    ensures refused { IfErr result (RefusesAt (source_of context.now) e.0) }
{
    let scope = graph.push_drop_scope();
    lower_statements(context, graph, e, statements.as_slice())?;
    lower_tail(context, graph, e, tail, to)?;
    leave_scope(context, graph, scope, e)?;
    Ok(())
}

/// A block with a label: as one without, between the two blocks that jumps to it lead to.
#[cycle(lower)]
fn lower_labelled<I: Interner>(
    context: &Context<'_>,
    graph: &mut Graph<I>,
    e: ExprId,
    label: LabelId,
    statements: &List<Statement>,
    tail: Option<ExprId>,
    to: LocalId,
) -> Result<(), MirLowerError>
    requires ready { IsReady (source_of context.now) (shape I.projections graph.old) e.0 }
    requires form { node (source_of context.now) e.0 ≡ Some (expr.Labelled label statements.now tail) }
    requires placed { IsPlaced (shape I.projections graph.old) to.0 }
    ensures lowered { OnOk result ((cell : Cell) → local_of (shape I.projections graph.old) cell ≡ Some to.0
        → LowersOwn (source_of context.now) (shape I.projections graph.old) (shape I.projections graph.new) e.0 cell) }
    ensures built { OnOk result (IsBuilt (source_of context.now) e.0) }
    ensures refused { IfErr result (RefusesAt (source_of context.now) e.0) }
{
    let blocks = enter_loop(context, graph, e, Some(label), to)?;
    let scope = graph.push_drop_scope();
    lower_statements(context, graph, e, statements.as_slice())?;
    lower_tail(context, graph, e, tail, to)?;
    leave_scope(context, graph, scope, e)?;
    leave_loop(graph, blocks, blocks.end);
    Ok(())
}

/// A loop: its body, whose scope is left at the end of each turn, and then the loop again.
#[cycle(lower)]
fn lower_loop<I: Interner>(
    context: &Context<'_>,
    graph: &mut Graph<I>,
    e: ExprId,
    label: Option<LabelId>,
    body: ExprId,
    to: LocalId,
) -> Result<(), MirLowerError>
    requires ready { IsReady (source_of context.now) (shape I.projections graph.old) e.0 }
    requires form { node (source_of context.now) e.0 ≡ Some (expr.Loop label body.0) }
    requires placed { IsPlaced (shape I.projections graph.old) to.0 }
    ensures lowered { OnOk result ((cell : Cell) → local_of (shape I.projections graph.old) cell ≡ Some to.0
        → LowersOwn (source_of context.now) (shape I.projections graph.old) (shape I.projections graph.new) e.0 cell) }
    ensures built { OnOk result (IsBuilt (source_of context.now) e.0) }
    ensures refused { IfErr result (RefusesAt (source_of context.now) e.0) }
{
    let blocks = enter_loop(context, graph, e, label, to)?;
    let scope = graph.push_drop_scope();
    lower_place(context, graph, body)?;
    leave_scope(context, graph, scope, e)?;
    leave_loop(graph, blocks, blocks.begin);
    Ok(())
}

/// A `break`: its value, where it has one, goes where the value of the loop or labelled block goes that it ends.
#[cycle(lower)]
fn lower_break<I: Interner>(
    context: &Context<'_>,
    graph: &mut Graph<I>,
    e: ExprId,
    label: Option<LabelId>,
    value: Option<ExprId>,
) -> Result<(), MirLowerError>
    requires ready { IsReady (source_of context.now) (shape I.projections graph.old) e.0 }
    requires form { node (source_of context.now) e.0 ≡ Some (expr.Break label value) }
    ensures lowered { OnOk result ((cell : Cell) → LowersOwn (source_of context.now) (shape I.projections graph.old) (shape I.projections graph.new) e.0 cell) }
    ensures built { OnOk result (IsBuilt (source_of context.now) e.0) }
    ensures refused { IfErr result (RefusesAt (source_of context.now) e.0) }
{
    let blocks = target_of_jump(graph, label, MirLowerError::BreakWithoutLoop)?;
    lower_tail(context, graph, e, value, blocks.to)?;
    jump(context, graph, blocks.drop_scope, blocks.end, e)?;
    Ok(())
}

/// A `return`: its value, where it has one, goes to the return slot, and then the body returns.
#[cycle(lower)]
fn lower_return<I: Interner>(
    context: &Context<'_>,
    graph: &mut Graph<I>,
    e: ExprId,
    value: Option<ExprId>,
) -> Result<(), MirLowerError>
    requires ready { IsReady (source_of context.now) (shape I.projections graph.old) e.0 }
    requires form { node (source_of context.now) e.0 ≡ Some (expr.Return value) }
    ensures lowered { OnOk result ((cell : Cell) → LowersOwn (source_of context.now) (shape I.projections graph.old) (shape I.projections graph.new) e.0 cell) }
    ensures built { OnOk result (IsBuilt (source_of context.now) e.0) }
    ensures refused { IfErr result (RefusesAt (source_of context.now) e.0) }
{
    lower_tail(context, graph, e, value, LocalId(0))?;
    return_from(context, graph, e)?;
    Ok(())
}

/// A method call: a call of the function that it is resolved to, whose first argument is the receiver.
#[cycle(lower)]
fn lower_method_call<I: Interner>(
    context: &Context<'_>,
    graph: &mut Graph<I>,
    e: ExprId,
    receiver: ExprId,
    args: &[ExprId],
    to: LocalId,
) -> Result<(), MirLowerError>
    requires ready { IsReady (source_of context.now) (shape I.projections graph.old) e.0 }
    requires form { node (source_of context.now) e.0 ≡ Some (expr.Call None (receiver.0 ∷ expr_numbers args.now)) }
    ensures lowered { OnOk result ((cell : Cell) → local_of (shape I.projections graph.old) cell ≡ Some to.0
        → LowersOwn (source_of context.now) (shape I.projections graph.old) (shape I.projections graph.new) e.0 cell) }
    ensures built { OnOk result (IsBuilt (source_of context.now) e.0) }
    ensures refused { IfErr result (RefusesAt (source_of context.now) e.0) }
{
    let all = method_args(context.alloc, receiver, args)?;
    lower_call(context, graph, e, None, all.as_slice(), to)
}

/// A call: the operand that names the callee, the arguments' operands from left to right, and then the call, which reads them all.
#[cycle(lower)]
fn lower_call<I: Interner>(
    context: &Context<'_>,
    graph: &mut Graph<I>,
    e: ExprId,
    callee: Option<ExprId>,
    args: &[ExprId],
    to: LocalId,
) -> Result<(), MirLowerError>
    requires ready { IsReady (source_of context.now) (shape I.projections graph.old) e.0 }
    requires form { node (source_of context.now) e.0 ≡ Some (expr.Call (callee_number callee) (expr_numbers args.now)) }
    ensures lowered { OnOk result ((cell : Cell) → local_of (shape I.projections graph.old) cell ≡ Some to.0
        → LowersOwn (source_of context.now) (shape I.projections graph.old) (shape I.projections graph.new) e.0 cell) }
    ensures built { OnOk result (IsBuilt (source_of context.now) e.0) }
    ensures refused { IfErr result (RefusesAt (source_of context.now) e.0) }
{
    let func = lower_callee(context, e, callee)?;
    let operands = lower_operands(context, graph, e, args)?;
    call(context, graph, e, func, operands, to)?;
    Ok(())
}

/// The operands of a call's arguments, or of the parts of a tuple, an array or a struct, from left to right. They are parts of the given
/// expression.
#[cycle(lower)]
fn lower_operands<I: Interner>(
    context: &Context<'_>,
    graph: &mut Graph<I>,
    e: ExprId,
    args: &[ExprId],
) -> Result<List<Operand>, MirLowerError>
    requires ready { ArePartsReady (source_of context.now) (shape I.projections graph.old) e.0 }
    requires parts { All (Contains (parts_of (node (source_of context.now) e.0))) (expr_numbers args.now) }
    ensures lowered { IfOk result (λ operands. LowersOperands (source_of context.now) (shape I.projections graph.old) (shape I.projections graph.new) (expr_numbers args.now) (map (λ operand. operand.kind) operands)) }
    ensures many { IfOk result (λ operands. length operands ≡ length args.now) }
    ensures built { OnOk result (All (IsBuilt (source_of context.now)) (expr_numbers args.now)) }
    ensures refused { IfErr result (RefusesAt (source_of context.now) e.0) }
{
    let mut operands = List::new(context.alloc);
    for arg in args {
        let operand = lower_operand(context, graph, *arg)?;
        operands.push(operand)?;
    }
    Ok(operands)
}

/// The statements of a block.
#[cycle(lower)]
fn lower_statements<I: Interner>(
    context: &Context<'_>,
    graph: &mut Graph<I>,
    e: ExprId,
    statements: &[Statement],
) -> Result<(), MirLowerError>
    requires ready { ArePartsReady (source_of context.now) (shape I.projections graph.old) e.0 }
    requires form { HasStatements (node (source_of context.now) e.0) statements.now }
    ensures lowered { OnOk result (LowersStatements (source_of context.now) (shape I.projections graph.old) (shape I.projections graph.new) statements.now) }
    ensures built { OnOk result (All (IsBuiltThrough (source_of context.now)) statements.now) }
    ensures refused { IfErr result (RefusesAt (source_of context.now) e.0) }
{
    for statement in statements {
        lower_statement(context, graph, e, *statement)?;
    }
    Ok(())
}

/// An expression that may be left out: the tail of a block, or the second branch of an `if`.
#[cycle(lower)]
fn lower_tail<I: Interner>(
    context: &Context<'_>,
    graph: &mut Graph<I>,
    e: ExprId,
    tail: Option<ExprId>,
    to: LocalId,
) -> Result<(), MirLowerError>
    requires ready { ArePartsReady (source_of context.now) (shape I.projections graph.old) e.0 }
    requires part { IfSome tail (λ one. Contains (parts_of (node (source_of context.now) e.0)) one.0) }
    requires placed { IsPlaced (shape I.projections graph.old) to.0 }
    ensures lowered { OnOk result ((cell : Cell) → local_of (shape I.projections graph.old) cell ≡ Some to.0
        → LowersTail (source_of context.now) (shape I.projections graph.old) (shape I.projections graph.new) tail cell) }
    ensures built { OnOk result (All (IsBuilt (source_of context.now)) (optional tail)) }
    ensures refused { IfErr result (RefusesAt (source_of context.now) e.0) }
{
    match tail {
        Some(tail) => lower_into(context, graph, tail, to),
        None => Ok(()),
    }
}

/// A statement of a block.
#[cycle(lower)]
fn lower_statement<I: Interner>(
    context: &Context<'_>,
    graph: &mut Graph<I>,
    e: ExprId,
    statement: Statement,
) -> Result<(), MirLowerError>
    requires ready { ArePartsReady (source_of context.now) (shape I.projections graph.old) e.0 }
    requires stands { IsStatementOf (source_of context.now) e.0 statement }
    ensures lowered { OnOk result (LowersStatements (source_of context.now) (shape I.projections graph.old) (shape I.projections graph.new) (statement ∷ [])) }
    ensures built { OnOk result (IsBuiltThrough (source_of context.now) statement) }
    ensures refused { IfErr result (RefusesAt (source_of context.now) e.0) }
{
    match statement {
        Statement::Let {
            pat,
            initializer,
            else_branch,
        } => match else_branch {
            None => match initializer {
                Some(initializer) => lower_let(context, graph, e, pat, initializer),
                None => Err(form_not_built(context.alloc)),
            },
            Some(_) => Err(form_not_built(context.alloc)),
        },
        Statement::Expr { expr, has_semi } => {
            lower_expr_statement(context, graph, e, expr, has_semi)
        }
        Statement::Item => Err(form_not_built(context.alloc)),
    }
}

/// A `let` with an initializer: the initializer's place, and then the name is bound.
#[cycle(lower)]
fn lower_let<I: Interner>(
    context: &Context<'_>,
    graph: &mut Graph<I>,
    e: ExprId,
    pat: PatId,
    initializer: ExprId,
) -> Result<(), MirLowerError>
    requires ready { ArePartsReady (source_of context.now) (shape I.projections graph.old) e.0 }
    requires stands { IsStatementOf (source_of context.now) e.0 (statement_kind.Let pat (Some initializer) None) }
    ensures lowered { OnOk result (LowersStatements (source_of context.now) (shape I.projections graph.old) (shape I.projections graph.new) (statement_kind.Let pat (Some initializer) None ∷ [])) }
    ensures built { OnOk result (IsBuiltThrough (source_of context.now) (statement_kind.Let pat (Some initializer) None)) }
    ensures refused { IfErr result (RefusesAt (source_of context.now) e.0) }
{
    let place = lower_place(context, graph, initializer)?;
    fake_read(graph, place, initializer)?;
    bind(context, graph, pat, place)
}

/// An expression statement: its place, and then what came into use in it is left.
#[cycle(lower)]
fn lower_expr_statement<I: Interner>(
    context: &Context<'_>,
    graph: &mut Graph<I>,
    e: ExprId,
    expr: ExprId,
    has_semi: bool,
) -> Result<(), MirLowerError>
    requires ready { ArePartsReady (source_of context.now) (shape I.projections graph.old) e.0 }
    requires stands { IsStatementOf (source_of context.now) e.0 (statement_kind.Expr expr has_semi) }
    ensures lowered { OnOk result (LowersStatements (source_of context.now) (shape I.projections graph.old) (shape I.projections graph.new) (statement_kind.Expr expr has_semi ∷ [])) }
    ensures built { OnOk result (IsBuiltThrough (source_of context.now) (statement_kind.Expr expr has_semi)) }
    ensures refused { IfErr result (RefusesAt (source_of context.now) e.0) }
{
    let scope = graph.push_drop_scope();
    let place = lower_place(context, graph, expr)?;
    fake_read(graph, place, expr)?;
    leave_scope(context, graph, scope, expr)?;
    Ok(())
}
