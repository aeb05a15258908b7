//! The form of an expression, as far as forms have a meaning.

ghost use Rattle.std.specs.Prelude.{◌≡◌, ◌<◌, ℕ, List, Option, false, length, Some, None, IfSome, IfNone};
ghost use Rattle.std.specs.Option.{option_and_then, option_copied, option_map};
ghost use Rattle.source_meaning.specs.Core.{are_many, are_other_steps, cast_operation, element_taken, expr_in, field_taken, is_adjusted_otherwise, is_adjusted_twice, is_adjusted_pattern, is_by_reference, is_dereferenced_pattern, is_positive, is_literal, name_of, named_path, names_item, part_in, path_of, pattern_names_item, step_to, update_form, value_type as type_of_value};
ghost use Rattle.types.specs.declared.ids.VariantId.TheVariants as variant;
ghost use Rattle.source_meaning.specs.Core as expr;
ghost use Rattle.source_meaning.specs.Source.{assigned, assigned_by, assignee, compound_path, findings, is_adjusted, pattern, pattern_expr, target_path, unadjusted};
ghost use Rattle.world.specs.declared.expr.Expr.TheVariants as whole;
ghost use Rattle.world.specs.Lookups.{expr_of};
ghost use Rattle.body_forms.specs.Contexts.{source_of};
ghost use Rattle.body_forms.specs.Form.{IsCause, IsFormOf, IsPlaceForm, HasForm, core_assigned, core_assignee, core_elem, core_form, core_struct, core_value, core_value_form, no_findings, part_elem};
ghost use Rattle.body_forms.specs.Refusals.{IsIncomplete};
ghost use Rattle.world.specs.declared.expr.Expr.{Expr};

use crate::context::Context;
use crate::inferred::{diverges, is_coercion, is_conversion, step_target, value_type};
use crate::literal::LiteralValue;
use crate::structs::{
    FieldExprs, StructAt, StructLiteral, StructValue, are_others_ready, constructed,
    gives_all_fields, gives_known_fields, names_unit, struct_args, struct_made,
};
use check_instances::ready_instance;
use either::Either;
use mir::{BinOp, PlaceElem, UnOp};
use world::{
    Adjustment, BinaryOp, BindingId, BindingMode, Expr, ExprId, FieldId, LabelId, List, Literal,
    LogicOp, Pat, PatId, RecordLitField, RecordSpread, Statement, StructId, Text, TupleFieldId, Ty,
    UintTy, UnaryOp, VariantId,
};

/// What an assignment writes to, by the pattern that its target is.
#[derive(Clone, Copy)]
pub enum Assignee {
    /// The binding that the path names which the pattern is.
    Pattern(PatId),
    /// The place of the expression which the pattern holds.
    Place(ExprId),
}

/// The step from a base to what a field or an index expression names.
#[derive(Clone, Copy)]
pub enum FieldStep {
    /// To a part of a tuple, by its index.
    Part(u32),
    /// To a field of a struct.
    Field(FieldId),
    /// To an element of an array, by the index expression and its index.
    Element(ExprId, ExprId),
}

/// The place that a compound assignment reads and writes.
#[derive(Clone, Copy)]
pub enum Assigned {
    /// The binding that the path names which the left operand is.
    Path(ExprId),
    /// A part of a tuple, a field of a struct or an element of an array: its base, and the step from there.
    Field(ExprId, FieldStep),
}

/// What lowering does with an expression. Its variants are the forms that have a meaning, and two for the others.
#[derive(Clone, Copy)]
pub enum Form<'a> {
    Literal(LiteralValue),
    Path(&'a Text),
    /// A path to a unit struct.
    UnitStruct,
    /// A part of a tuple, a field of a struct or an element of an array: its base, and the step from there.
    Field(ExprId, FieldStep),
    Unary(UnOp, ExprId),
    /// A cast that is a coercion.
    Coercion(ExprId),
    /// A cast between integers, `bool` and `char`.
    Cast(ExprId),
    Tuple(&'a List<ExprId>),
    Array(&'a List<ExprId>),
    /// An array of one value as often as its type says.
    Repeat(ExprId),
    /// A struct literal without a base, or a call of a constructor, which gives each field of its struct.
    Struct(StructValue<'a>),
    /// A struct literal with this base, which writes fields of its struct.
    Update(StructLiteral<'a>, ExprId),
    Binary(BinOp, ExprId, ExprId),
    Logic(LogicOp, ExprId, ExprId),
    If(ExprId, ExprId, Option<ExprId>),
    Assign(Assignee, ExprId),
    Compound(BinOp, Assigned, ExprId),
    Block(&'a List<Statement>, Option<ExprId>),
    Labelled(LabelId, &'a List<Statement>, Option<ExprId>),
    Loop(Option<LabelId>, ExprId),
    Break(Option<LabelId>, Option<ExprId>),
    Continue(Option<LabelId>),
    Return(Option<ExprId>),
    Call(ExprId, &'a List<ExprId>),
    /// A method call: its receiver, and its other arguments.
    MethodCall(ExprId, &'a List<ExprId>),
    /// An expression that is missing, or whose operator is.
    Incomplete,
    Unbuilt,
}

fn literal_form<'a>(literal: &Literal) -> Form<'a>
    ensures { IsFormOf no_findings (whole.Literal literal.now) result }
{
    match literal {
        Literal::Bool(test) => Form::Literal(LiteralValue::Truth(*test)),
        Literal::Int(number, _) => Form::Literal(LiteralValue::Signed(*number)),
        Literal::Uint(number, _) => Form::Literal(LiteralValue::Unsigned(*number)),
        Literal::Char(code) => Form::Literal(LiteralValue::Character(*code)),
        _ => Form::Unbuilt,
    }
}

fn unary_form<'a>(e: ExprId, op: UnaryOp) -> Form<'a>
    ensures { IsFormOf no_findings (whole.UnaryOp e op) result }
{
    match op {
        UnaryOp::Neg => Form::Unary(UnOp::Neg, e),
        UnaryOp::Not => Form::Unary(UnOp::Not, e),
        UnaryOp::Deref => Form::Unbuilt,
    }
}

/// The form of an operator on two operands, the left of which may be the target of an assignment.
fn binary_form<'a>(
    context: &Context<'_>,
    lhs: ExprId,
    rhs: ExprId,
    op: Option<BinaryOp>,
) -> Form<'a>
    ensures { IsFormOf (record no_findings { assigned = assigned (source_of context.now) }) (whole.BinaryOp lhs rhs op) result }
{
    match op {
        Some(BinaryOp::ArithOp(op)) => Form::Binary(BinOp::from(op), lhs, rhs),
        Some(BinaryOp::CmpOp(op)) => Form::Binary(BinOp::from(op), lhs, rhs),
        Some(BinaryOp::LogicOp(op)) => Form::Logic(op, lhs, rhs),
        Some(BinaryOp::Assignment { op: Some(op) }) => {
            Form::Compound(BinOp::from(op), assigned_of(context, lhs), rhs)
        }
        Some(BinaryOp::Assignment { op: None }) => Form::Unbuilt,
        None => Form::Incomplete,
    }
}

/// The form of a path, which is resolved to a unit struct, to another item, or to neither.
fn path_form<'a>(names_unit: bool, names_item: bool, name: &'a Text) -> Form<'a>
    ensures { IsFormOf (record no_findings { names_unit = names_unit; names_item = names_item }) (whole.Path name.now) result }
{
    if names_unit {
        Form::UnitStruct
    } else if names_item {
        Form::Unbuilt
    } else {
        Form::Path(name)
    }
}

/// The step to a field of a struct, where the base is that struct, and the field's type needn't be made at its generic arguments.
#[tactic(auto, unfolding(source_meaning::specs::Source::node_type, source_meaning::specs::Source::own_type))]
fn struct_step(
    context: &Context<'_>,
    id: StructId,
    field: FieldId,
    base: ExprId,
) -> Option<FieldStep>
    ensures { option_map core_elem result ≡ step_to context.now.db.now (type_of_value context.now.infer.now base) field (variant.StructId id) }
{
    let args = struct_args(id, value_type(context, base)?)?;
    let fields = context.db.field_types(VariantId::StructId(id))?;
    let row = fields.get(field.local_id as u64)?;
    ready_instance(args, &row.ty)?;
    Some(FieldStep::Field(field))
}

/// The step that a field expression takes from its base.
fn field_taken(context: &Context<'_>, e: ExprId, base: ExprId) -> Option<FieldStep>
    ensures { option_map core_elem result ≡ field_taken context.now.db.now context.now.infer.now e base }
{
    match context.infer.field_res.get(&e) {
        Some(Either::Left(field)) => match field.parent {
            VariantId::StructId(id) => struct_step(context, id, *field, base),
            _ => None,
        },
        Some(Either::Right(field)) => Some(FieldStep::Part(field.index)),
        None => None,
    }
}

/// The step that an index expression takes from its base: to an element, where that is an array, and the index a `usize`.
#[tactic(auto, unfolding(source_meaning::specs::Source::node_type, source_meaning::specs::Source::own_type))]
fn element_taken(context: &Context<'_>, e: ExprId, base: ExprId, index: ExprId) -> Option<FieldStep>
    ensures { option_map core_elem result ≡ element_taken context.now.infer.now e base index }
{
    match (value_type(context, base), value_type(context, index)) {
        (Some(Ty::Array(..)), Some(Ty::Uint(UintTy::Usize))) => Some(FieldStep::Element(e, index)),
        _ => None,
    }
}

/// The element of a place that a step to a part of a tuple is. The number of the tuple isn't looked at, and is always the greatest.
pub fn part_elem(index: u32) -> PlaceElem
    ensures { result ≡ part_elem index }
{
    PlaceElem::Field(Either::Right(TupleFieldId {
        tuple: u32::MAX,
        index,
    }))
}

/// The form of a field or an element of a base, by the step that it takes.
fn field_form<'a>(base: ExprId, taken: Option<FieldStep>) -> Form<'a>
    ensures field { (name : List ℕ) → IsFormOf (record no_findings { field = λ from. option_map core_elem taken }) (whole.Field base name) result }
    ensures element { (index : ExprId) → IsFormOf (record no_findings { element = λ from at. option_map core_elem taken }) (whole.Index base index) result }
{
    match taken {
        Some(step) => Form::Field(base, step),
        None => Form::Unbuilt,
    }
}

/// The form of a block, which has a label or none.
fn block_form<'a>(
    statements: &'a List<Statement>,
    tail: Option<ExprId>,
    label: Option<LabelId>,
) -> Form<'a>
    ensures { IsFormOf no_findings (whole.Block statements.now tail label) result }
{
    match label {
        None => Form::Block(statements, tail),
        Some(label) => Form::Labelled(label, statements, tail),
    }
}

/// The form of a cast: it is a coercion, or one between integers, `bool` and `char`.
fn cast_form<'a>(context: &Context<'_>, cast: ExprId, operand: ExprId) -> Form<'a>
    ensures { IsFormOf (record no_findings { casts = cast_operation context.now.infer.now cast }) (whole.Cast operand) result }
{
    if is_coercion(context, operand) {
        Form::Coercion(operand)
    } else if is_conversion(context, cast, operand) {
        Form::Cast(operand)
    } else {
        Form::Unbuilt
    }
}

/// The form of a struct literal with a base: so far one where no type of a field that it leaves out has to be made at the struct's generic arguments.
fn update_form<'a>(base: ExprId, literal: StructLiteral<'a>) -> Form<'a>
    ensures core { core_form result ≡ update_form base.0 (core_struct literal.entry.made) literal.entry.written.now }
    ensures cause { (e : Expr) → (IsIncomplete e → ⊥) → IsCause e result }
{
    if !are_others_ready(literal) {
        return Form::Unbuilt;
    }
    if gives_known_fields(literal) {
        Form::Update(literal, base)
    } else {
        Form::Unbuilt
    }
}

/// The form of a struct whose fields are given by expressions.
fn struct_form<'a>(value: StructValue<'a>) -> Form<'a>
    ensures core { core_form result ≡ core_value_form value.entry }
    ensures cause { (e : Expr) → (IsIncomplete e → ⊥) → IsCause e result }
{
    if gives_all_fields(value) {
        Form::Struct(value)
    } else {
        Form::Unbuilt
    }
}

/// The form of a call, by the struct whose constructor its callee is, if it is one. With any other callee it is a call of a function, whether the callee is one or not.
fn call_form<'a>(made: Option<StructAt<'a>>, callee: ExprId, args: &'a List<ExprId>) -> Form<'a>
    ensures { IsFormOf (record no_findings { constructed = λ from. option_map core_struct made.entry }) (whole.Call callee args.now) result }
{
    match made {
        Some(made) => struct_form(StructValue {
            made,
            given: FieldExprs::InOrder(args),
        }),
        None => Form::Call(callee, args),
    }
}

/// The form of a struct literal, by the struct that it makes a value of.
fn record_form<'a>(
    made: Option<StructAt<'a>>,
    written: &'a List<RecordLitField>,
    base: &RecordSpread,
) -> Form<'a>
    ensures { (path : Option (List ℕ)) → IsFormOf (record no_findings { made = option_map core_struct made.entry }) (whole.RecordLit path written.now base.now) result }
{
    match (made, base) {
        (Some(made), RecordSpread::None) => struct_form(StructValue {
            made,
            given: FieldExprs::Named(written),
        }),
        (Some(made), RecordSpread::Expr(base)) => update_form(
            *base,
            StructLiteral { made, written },
        ),
        _ => Form::Unbuilt,
    }
}

/// The form of an expression, as it is before its value is adjusted.
fn form_of<'a>(context: &Context<'a>, e: ExprId, expr: &'a Expr) -> Form<'a>
    ensures { IsFormOf (findings (source_of context.now) e.0) expr.now result }
{
    match expr {
        Expr::Literal(literal) => literal_form(literal),
        Expr::Path(name) => path_form(names_unit(context, e), names_item(context, e), name),
        Expr::Field { expr, .. } => field_form(*expr, field_taken(context, e, *expr)),
        Expr::Index { base, index } => field_form(*base, element_taken(context, e, *base, *index)),
        Expr::UnaryOp { expr, op } => unary_form(*expr, *op),
        Expr::Cast { expr } => cast_form(context, e, *expr),
        Expr::BinaryOp { lhs, rhs, op } => binary_form(context, *lhs, *rhs, *op),
        Expr::If {
            condition,
            then_branch,
            else_branch,
        } => Form::If(*condition, *then_branch, *else_branch),
        Expr::Assignment { target, value } => Form::Assign(assignee_of(context, *target), *value),
        Expr::Block {
            statements,
            tail,
            label,
        } => block_form(statements, *tail, *label),
        Expr::Loop { body, label } => Form::Loop(*label, *body),
        Expr::Break { expr, label } => Form::Break(*label, *expr),
        Expr::Continue { label } => Form::Continue(*label),
        Expr::Return { expr } => Form::Return(*expr),
        Expr::Call { callee, args } => call_form(constructed(context, e, *callee), *callee, args),
        Expr::MethodCall { receiver, args, .. } => Form::MethodCall(*receiver, args),
        Expr::Tuple { exprs } => Form::Tuple(exprs),
        Expr::Array { elements } => Form::Array(elements),
        Expr::Repeat { initializer } => Form::Repeat(*initializer),
        Expr::RecordLit { fields, spread, .. } => {
            record_form(struct_made(context, e), fields, spread)
        }
        Expr::Missing => Form::Incomplete,
        _ => Form::Unbuilt,
    }
}

/// Whether there are adjustments, and they are not `NeverToAny` alone.
fn are_other_steps(steps: Option<&List<Adjustment>>) -> bool
    ensures { result ≡ are_other_steps (option_copied steps.entry) }
{
    match steps {
        Some(steps) => match steps.as_slice() {
            [] => false,
            [step] => step_target(step).is_none(),
            _ => true,
        },
        None => false,
    }
}

/// Whether an expression's value is adjusted before it is used, in another way than by `NeverToAny` alone, and that is looked at: one adjustment of the
/// base of an index isn't.
#[tactic(auto, unfolding(source_meaning::specs::Core::is_adjusted_otherwise, source_meaning::specs::Source::is_adjusted))]
fn is_adjusted(context: &Context<'_>, e: ExprId) -> bool
    ensures { result ≡ is_adjusted (source_of context.now) e.0 }
{
    are_other_steps(context.infer.expr_adjustments.get(&e))
        && !(context.bases.contains(&e)
            && e.0 != context.body.body_expr.0
            && !is_adjusted_twice(context, e))
}

/// Whether a path is resolved to an associated item or a variant.
#[tactic(auto, unfolding(source_meaning::specs::Core::names_item))]
fn names_item(context: &Context<'_>, e: ExprId) -> bool
    ensures { result ≡ names_item context.now.infer.now e }
{
    context.infer.assoc_res.get(&e).is_some() || context.infer.variant_res.get(&e).is_some()
}

/// An expression of the body.
fn expr_at<'a>(context: &Context<'a>, e: ExprId) -> &'a Expr
    requires { e.0 < length context.now.body.now.exprs }
    ensures { expr_of context.now.body.now e.0 ≡ Some result.now }
{
    &context.body.exprs.as_slice()[e.0 as usize]
}

/// The form of an expression of the body, as it is before its value is adjusted.
pub fn form_at<'a>(context: &Context<'a>, e: ExprId) -> Form<'a>
    requires { e.0 < length context.now.body.now.exprs }
    ensures { HasForm (source_of context.now) e.0 result }
{
    if is_adjusted(context, e) {
        Form::Unbuilt
    } else {
        form_of(context, e, expr_at(context, e))
    }
}

/// The literal that an expression is for those that use its value, where it is one.
pub fn literal_at(context: &Context<'_>, e: ExprId) -> Option<LiteralValue>
    requires { e.0 < length context.now.body.now.exprs }
    ensures some { IfSome result (λ literal. unadjusted (source_of context.now) e.0 ≡ Some (expr.Literal (core_value literal))) }
    ensures none { IfNone result (is_literal (unadjusted (source_of context.now) e.0) ≡ false) }
{
    if diverges(context, e) {
        return None;
    }
    match form_at(context, e) {
        Form::Literal(literal) => Some(literal),
        _ => None,
    }
}

/// What an expression is for those that use its place: a path, or a part of a tuple, a struct or an array, and else a value, whose place is a
/// local of its own. What is adjusted is a value.
#[derive(Clone, Copy)]
pub enum PlaceForm<'a> {
    Path(&'a Text),
    /// A part of a tuple, a field of a struct or an element of an array: its base, and the step from there.
    Field(ExprId, FieldStep),
    Value,
}

/// What an expression is for those that use its place.
pub fn place_form_at<'a>(context: &Context<'a>, e: ExprId) -> PlaceForm<'a>
    requires { e.0 < length context.now.body.now.exprs }
    ensures { IsPlaceForm (source_of context.now) e.0 result }
{
    if diverges(context, e) {
        return PlaceForm::Value;
    }
    match form_at(context, e) {
        Form::Path(name) => PlaceForm::Path(name),
        Form::Field(base, step) => PlaceForm::Field(base, step),
        _ => PlaceForm::Value,
    }
}

fn is_by_reference(mode: Option<&BindingMode>) -> bool
    ensures { result ≡ is_by_reference (option_copied mode.entry) }
{
    matches!(mode, Some(BindingMode::Ref(_)))
}

fn is_positive(count: Option<&u32>) -> bool
    ensures { result ≡ is_positive (option_copied count.entry) }
{
    match count {
        Some(count) => *count > 0,
        None => false,
    }
}

/// Whether a pattern binds by reference, or dereferences the value first.
#[tactic(auto, unfolding(source_meaning::specs::Core::is_adjusted_pattern))]
fn is_adjusted_pattern(context: &Context<'_>, pat: PatId) -> bool
    ensures { result ≡ is_adjusted_pattern context.now.infer.now pat }
{
    is_by_reference(context.infer.binding_modes.get(&pat))
        || is_positive(context.infer.pat_adjustments.get(&pat))
}

/// The binding that a pattern of the body binds, where it is a name that binds by value.
#[tactic(auto, unfolding(source_meaning::specs::Source::pattern))]
pub fn name_bound(context: &Context<'_>, pat: PatId) -> Option<BindingId>
    ensures { result ≡ pattern (source_of context.now) pat.0 }
{
    if is_adjusted_pattern(context, pat) {
        None
    } else {
        match context.body.pats.get(pat.0 as u64) {
            Some(Pat::Bind { id, subpat: None }) => Some(*id),
            _ => None,
        }
    }
}

/// Whether a pattern dereferences the value first.
#[tactic(auto, unfolding(source_meaning::specs::Core::is_dereferenced_pattern))]
fn is_dereferenced_pattern(context: &Context<'_>, pat: PatId) -> bool
    ensures { result ≡ is_dereferenced_pattern context.now.infer.now pat }
{
    is_positive(context.infer.pat_adjustments.get(&pat))
}

/// The expression that a pattern holds as the target of an assignment, where it isn't dereferenced.
#[tactic(auto, unfolding(source_meaning::specs::Source::pattern_expr))]
fn pattern_expr(context: &Context<'_>, pat: PatId) -> Option<ExprId>
    ensures { result ≡ pattern_expr (source_of context.now) pat.0 }
{
    if is_dereferenced_pattern(context, pat) {
        None
    } else {
        match context.body.pats.get(pat.0 as u64) {
            Some(Pat::Expr(e)) => Some(*e),
            _ => None,
        }
    }
}

/// What a pattern is as the target of an assignment.
fn assignee_of(context: &Context<'_>, pat: PatId) -> Assignee
    ensures { core_assignee result ≡ assignee (source_of context.now) pat }
{
    match pattern_expr(context, pat) {
        Some(e) => Assignee::Place(e),
        None => Assignee::Pattern(pat),
    }
}

/// Whether a pattern is a path that is resolved to an associated item or a variant.
#[tactic(auto, unfolding(source_meaning::specs::Core::pattern_names_item))]
fn pattern_names_item(context: &Context<'_>, pat: PatId) -> bool
    ensures { result ≡ pattern_names_item context.now.infer.now pat }
{
    context.infer.pat_assoc_res.get(&pat).is_some()
        || context.infer.pat_variant_res.get(&pat).is_some()
}

/// The path that the target of an assignment is, where it is one that may name a binding.
#[tactic(auto, unfolding(source_meaning::specs::Source::target_path))]
pub fn target_path<'a>(context: &Context<'a>, pat: PatId) -> Option<&'a Text>
    ensures { option_copied result ≡ target_path (source_of context.now) pat.0 }
{
    if is_dereferenced_pattern(context, pat) || pattern_names_item(context, pat) {
        None
    } else {
        match context.body.pats.get(pat.0 as u64) {
            Some(Pat::Path(name)) => Some(name),
            _ => None,
        }
    }
}

/// Whether there is more than one adjustment.
fn are_many(steps: Option<&List<Adjustment>>) -> bool
    ensures { result ≡ are_many (option_copied steps.entry) }
{
    match steps {
        Some(steps) => match steps.as_slice() {
            [] => false,
            [_] => false,
            _ => true,
        },
        None => false,
    }
}

/// Whether an expression's value is adjusted by more than one step.
#[tactic(auto, unfolding(source_meaning::specs::Core::is_adjusted_twice))]
fn is_adjusted_twice(context: &Context<'_>, e: ExprId) -> bool
    ensures { result ≡ is_adjusted_twice context.now.infer.now e }
{
    are_many(context.infer.expr_adjustments.get(&e))
}

/// The base and the step of the field or the element that an expression is, where it is one.
fn part_in(context: &Context<'_>, e: ExprId, expr: Option<&Expr>) -> Option<(ExprId, FieldStep)>
    ensures { option_map (λ part. (part.0.0, core_elem part.1)) result ≡ option_and_then (part_in (field_taken context.now.db.now context.now.infer.now e) (element_taken context.now.infer.now e)) (option_copied expr.entry) }
{
    match expr {
        Some(Expr::Field { expr, .. }) => Some((*expr, field_taken(context, e, *expr)?)),
        Some(Expr::Index { base, index }) => {
            Some((*base, element_taken(context, e, *base, *index)?))
        }
        _ => None,
    }
}

/// What an expression is as the target of a compound assignment.
#[tactic(auto, unfolding(source_meaning::specs::Source::assigned_field))]
fn assigned_of(context: &Context<'_>, e: ExprId) -> Assigned
    ensures { core_assigned result ≡ assigned (source_of context.now) e }
{
    if is_adjusted_twice(context, e) {
        Assigned::Path(e)
    } else {
        match part_in(context, e, context.body.exprs.get(e.0 as u64)) {
            Some((base, step)) => Assigned::Field(base, step),
            None => Assigned::Path(e),
        }
    }
}

/// The path that the target of a compound assignment is, where it is one that may name a binding.
#[tactic(auto, unfolding(source_meaning::specs::Source::compound_path))]
pub fn compound_path<'a>(context: &Context<'a>, e: ExprId) -> Option<&'a Text>
    ensures { option_copied result ≡ compound_path (source_of context.now) e.0 }
{
    if is_adjusted_twice(context, e) || names_item(context, e) {
        None
    } else {
        match context.body.exprs.get(e.0 as u64) {
            Some(Expr::Path(name)) => Some(name),
            _ => None,
        }
    }
}
