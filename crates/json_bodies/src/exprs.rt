//! Expressions.

ghost use Rattle.std.specs.Prelude.{option_map};
ghost use Rattle.serde_json.specs.View.{view};
ghost use Rattle.json_kit.specs.Fit.{Gives};
ghost use Rattle.json_bodies.specs.Exprs.{match_arm_of, record_lit_field_of, record_spread_of, expr_of, expr_if_of, expr_let_of, expr_block_of, expr_unsafe_of, expr_loop_of, expr_call_of, expr_method_call_of, expr_match_of, expr_continue_of, expr_break_of, expr_return_of, expr_record_lit_of, expr_field_of, expr_cast_of, expr_ref_of, expr_box_of, expr_unary_op_of, expr_binary_op_of, expr_assignment_of, expr_range_of, expr_index_of, expr_closure_of, expr_tuple_of, expr_array_of, expr_repeat_of, bare_expr_of, simple_expr_of, jump_expr_of, branch_expr_of, call_expr_of, exit_expr_of, place_expr_of, operator_expr_of, part_expr_of, array_expr_of};

use crate::JsonBodies;
use json_kit::{
    Fields, FromJson, NotAWorld, Variant, here, members_of, optional, required, variant_of,
    with_no_other,
};
use serde_json::Value;
use std::alloc::Global;
use world::{Expr, MatchArm, RecordLitField, RecordSpread};

impl FromJson<JsonBodies> for MatchArm {
    ghost reads = { match_arm_of };

    #[tactic(auto, unfolding(crate::specs::Exprs::match_arm_of))]
    fn from_json(alloc: Global, tree: &Value) -> Result<MatchArm, NotAWorld> {
        let members = members_of(alloc, tree)?;
        let pat = required(alloc, tree, "pat")?;
        let guard = optional(alloc, tree, "guard")?;
        let expr = required(alloc, tree, "expr")?;
        let value = MatchArm { pat, guard, expr };
        let names = ["pat", "guard", "expr"];
        with_no_other(alloc, members, &names, value)
    }
}

impl FromJson<JsonBodies> for RecordLitField {
    ghost reads = { record_lit_field_of };

    #[tactic(auto, unfolding(crate::specs::Exprs::record_lit_field_of))]
    fn from_json(alloc: Global, tree: &Value) -> Result<RecordLitField, NotAWorld> {
        let members = members_of(alloc, tree)?;
        let name = required(alloc, tree, "name")?;
        let expr = required(alloc, tree, "expr")?;
        let value = RecordLitField { name, expr };
        let names = ["name", "expr"];
        with_no_other(alloc, members, &names, value)
    }
}

impl FromJson<JsonBodies> for RecordSpread {
    ghost reads = { record_spread_of };

    #[tactic(auto, unfolding(crate::specs::Exprs::record_spread_of))]
    fn from_json(alloc: Global, tree: &Value) -> Result<RecordSpread, NotAWorld> {
        let variant = variant_of(alloc, tree)?;
        if let Some(part) = variant.payload(alloc, "Expr")? {
            return Ok(RecordSpread::Expr(part));
        }
        if variant.is("None") {
            return Ok(RecordSpread::None);
        }
        if variant.is("FieldDefaults") {
            return Ok(RecordSpread::FieldDefaults);
        }
        Err(here(alloc))
    }
}

impl FromJson<JsonBodies> for Expr {
    ghost reads = { expr_of };

    #[tactic(auto, unfolding(crate::specs::Exprs::expr_of))]
    fn from_json(alloc: Global, tree: &Value) -> Result<Expr, NotAWorld> {
        let variant = variant_of(alloc, tree)?;
        if let Some(value) = bare_expr(alloc, variant)? {
            return Ok(value);
        }
        if let Some(value) = simple_expr(alloc, variant)? {
            return Ok(value);
        }
        if let Some(value) = jump_expr(alloc, variant)? {
            return Ok(value);
        }
        if let Some(value) = branch_expr(alloc, variant)? {
            return Ok(value);
        }
        if let Some(value) = call_expr(alloc, variant)? {
            return Ok(value);
        }
        if let Some(value) = exit_expr(alloc, variant)? {
            return Ok(value);
        }
        if let Some(value) = place_expr(alloc, variant)? {
            return Ok(value);
        }
        if let Some(value) = operator_expr(alloc, variant)? {
            return Ok(value);
        }
        if let Some(value) = part_expr(alloc, variant)? {
            return Ok(value);
        }
        if let Some(value) = array_expr(alloc, variant)? {
            return Ok(value);
        }
        Err(here(alloc))
    }
}

#[tactic(auto, unfolding(crate::specs::Exprs::bare_expr_of))]
fn bare_expr(_alloc: Global, variant: Variant) -> Result<Option<Expr>, NotAWorld>
    ensures { Gives result (bare_expr_of (variant.entry.name.now, option_map (λ part. view part.now) variant.entry.payload)) }
{
    if variant.is("Missing") {
        return Ok(Some(Expr::Missing));
    }
    if variant.is("Underscore") {
        return Ok(Some(Expr::Underscore));
    }
    if variant.is("OffsetOf") {
        return Ok(Some(Expr::OffsetOf));
    }
    if variant.is("InlineAsm") {
        return Ok(Some(Expr::InlineAsm));
    }
    Ok(None)
}

#[tactic(auto, unfolding(crate::specs::Exprs::simple_expr_of))]
fn simple_expr(alloc: Global, variant: Variant) -> Result<Option<Expr>, NotAWorld>
    ensures { Gives result (simple_expr_of (variant.entry.name.now, option_map (λ part. view part.now) variant.entry.payload)) }
{
    if let Some(part) = variant.payload(alloc, "Path")? {
        return Ok(Some(Expr::Path(part)));
    }
    if let Some(part) = variant.payload(alloc, "Literal")? {
        return Ok(Some(Expr::Literal(part)));
    }
    if let Some(part) = variant.payload(alloc, "Become")? {
        return Ok(Some(Expr::Become(part)));
    }
    if let Some(part) = variant.payload(alloc, "Yield")? {
        return Ok(Some(Expr::Yield(part)));
    }
    Ok(None)
}

#[tactic(auto, unfolding(crate::specs::Exprs::jump_expr_of))]
fn jump_expr(alloc: Global, variant: Variant) -> Result<Option<Expr>, NotAWorld>
    ensures { Gives result (jump_expr_of (variant.entry.name.now, option_map (λ part. view part.now) variant.entry.payload)) }
{
    if let Some(part) = variant.payload(alloc, "Yeet")? {
        return Ok(Some(Expr::Yeet(part)));
    }
    if let Some(part) = variant.payload(alloc, "Await")? {
        return Ok(Some(Expr::Await(part)));
    }
    if let Some(part) = variant.payload(alloc, "Async")? {
        return Ok(Some(Expr::Async(part)));
    }
    if let Some(part) = variant.payload(alloc, "Const")? {
        return Ok(Some(Expr::Const(part)));
    }
    Ok(None)
}

#[tactic(auto, unfolding(crate::specs::Exprs::branch_expr_of))]
fn branch_expr(alloc: Global, variant: Variant) -> Result<Option<Expr>, NotAWorld>
    ensures { Gives result (branch_expr_of (variant.entry.name.now, option_map (λ part. view part.now) variant.entry.payload)) }
{
    if let Some(value) = variant.fields::<ExprIfFields>(alloc, "If")? {
        return Ok(Some(value));
    }
    if let Some(value) = variant.fields::<ExprLetFields>(alloc, "Let")? {
        return Ok(Some(value));
    }
    if let Some(value) = variant.fields::<ExprBlockFields>(alloc, "Block")? {
        return Ok(Some(value));
    }
    if let Some(value) = variant.fields::<ExprUnsafeFields>(alloc, "Unsafe")? {
        return Ok(Some(value));
    }
    Ok(None)
}

#[tactic(auto, unfolding(crate::specs::Exprs::call_expr_of))]
fn call_expr(alloc: Global, variant: Variant) -> Result<Option<Expr>, NotAWorld>
    ensures { Gives result (call_expr_of (variant.entry.name.now, option_map (λ part. view part.now) variant.entry.payload)) }
{
    if let Some(value) = variant.fields::<ExprLoopFields>(alloc, "Loop")? {
        return Ok(Some(value));
    }
    if let Some(value) = variant.fields::<ExprCallFields>(alloc, "Call")? {
        return Ok(Some(value));
    }
    if let Some(value) = variant.fields::<ExprMethodCallFields>(alloc, "MethodCall")? {
        return Ok(Some(value));
    }
    if let Some(value) = variant.fields::<ExprMatchFields>(alloc, "Match")? {
        return Ok(Some(value));
    }
    Ok(None)
}

#[tactic(auto, unfolding(crate::specs::Exprs::exit_expr_of))]
fn exit_expr(alloc: Global, variant: Variant) -> Result<Option<Expr>, NotAWorld>
    ensures { Gives result (exit_expr_of (variant.entry.name.now, option_map (λ part. view part.now) variant.entry.payload)) }
{
    if let Some(value) = variant.fields::<ExprContinueFields>(alloc, "Continue")? {
        return Ok(Some(value));
    }
    if let Some(value) = variant.fields::<ExprBreakFields>(alloc, "Break")? {
        return Ok(Some(value));
    }
    if let Some(value) = variant.fields::<ExprReturnFields>(alloc, "Return")? {
        return Ok(Some(value));
    }
    if let Some(value) = variant.fields::<ExprRecordLitFields>(alloc, "RecordLit")? {
        return Ok(Some(value));
    }
    Ok(None)
}

#[tactic(auto, unfolding(crate::specs::Exprs::place_expr_of))]
fn place_expr(alloc: Global, variant: Variant) -> Result<Option<Expr>, NotAWorld>
    ensures { Gives result (place_expr_of (variant.entry.name.now, option_map (λ part. view part.now) variant.entry.payload)) }
{
    if let Some(value) = variant.fields::<ExprFieldFields>(alloc, "Field")? {
        return Ok(Some(value));
    }
    if let Some(value) = variant.fields::<ExprCastFields>(alloc, "Cast")? {
        return Ok(Some(value));
    }
    if let Some(value) = variant.fields::<ExprRefFields>(alloc, "Ref")? {
        return Ok(Some(value));
    }
    if let Some(value) = variant.fields::<ExprBoxFields>(alloc, "Box")? {
        return Ok(Some(value));
    }
    Ok(None)
}

#[tactic(auto, unfolding(crate::specs::Exprs::operator_expr_of))]
fn operator_expr(alloc: Global, variant: Variant) -> Result<Option<Expr>, NotAWorld>
    ensures { Gives result (operator_expr_of (variant.entry.name.now, option_map (λ part. view part.now) variant.entry.payload)) }
{
    if let Some(value) = variant.fields::<ExprUnaryOpFields>(alloc, "UnaryOp")? {
        return Ok(Some(value));
    }
    if let Some(value) = variant.fields::<ExprBinaryOpFields>(alloc, "BinaryOp")? {
        return Ok(Some(value));
    }
    if let Some(value) = variant.fields::<ExprAssignmentFields>(alloc, "Assignment")? {
        return Ok(Some(value));
    }
    if let Some(value) = variant.fields::<ExprRangeFields>(alloc, "Range")? {
        return Ok(Some(value));
    }
    Ok(None)
}

#[tactic(auto, unfolding(crate::specs::Exprs::part_expr_of))]
fn part_expr(alloc: Global, variant: Variant) -> Result<Option<Expr>, NotAWorld>
    ensures { Gives result (part_expr_of (variant.entry.name.now, option_map (λ part. view part.now) variant.entry.payload)) }
{
    if let Some(value) = variant.fields::<ExprIndexFields>(alloc, "Index")? {
        return Ok(Some(value));
    }
    if let Some(value) = variant.fields::<ExprClosureFields>(alloc, "Closure")? {
        return Ok(Some(value));
    }
    if let Some(value) = variant.fields::<ExprTupleFields>(alloc, "Tuple")? {
        return Ok(Some(value));
    }
    Ok(None)
}

#[tactic(auto, unfolding(crate::specs::Exprs::array_expr_of))]
fn array_expr(alloc: Global, variant: Variant) -> Result<Option<Expr>, NotAWorld>
    ensures { Gives result (array_expr_of (variant.entry.name.now, option_map (λ part. view part.now) variant.entry.payload)) }
{
    if let Some(value) = variant.fields::<ExprArrayFields>(alloc, "Array")? {
        return Ok(Some(value));
    }
    if let Some(value) = variant.fields::<ExprRepeatFields>(alloc, "Repeat")? {
        return Ok(Some(value));
    }
    Ok(None)
}

/// The fields of `Expr::If`.
pub(crate) struct ExprIfFields;

impl Fields for ExprIfFields {
    type Whole = Expr;

    ghost reads = { expr_if_of };

    #[tactic(auto, unfolding(crate::specs::Exprs::expr_if_of))]
    fn read(alloc: Global, tree: &Value) -> Result<Expr, NotAWorld> {
        let members = members_of(alloc, tree)?;
        let condition = required(alloc, tree, "condition")?;
        let then_branch = required(alloc, tree, "then_branch")?;
        let else_branch = optional(alloc, tree, "else_branch")?;
        let value = Expr::If {
            condition,
            then_branch,
            else_branch,
        };
        let names = ["condition", "then_branch", "else_branch"];
        with_no_other(alloc, members, &names, value)
    }
}

/// The fields of `Expr::Let`.
pub(crate) struct ExprLetFields;

impl Fields for ExprLetFields {
    type Whole = Expr;

    ghost reads = { expr_let_of };

    #[tactic(auto, unfolding(crate::specs::Exprs::expr_let_of))]
    fn read(alloc: Global, tree: &Value) -> Result<Expr, NotAWorld> {
        let members = members_of(alloc, tree)?;
        let pat = required(alloc, tree, "pat")?;
        let expr = required(alloc, tree, "expr")?;
        let value = Expr::Let { pat, expr };
        let names = ["pat", "expr"];
        with_no_other(alloc, members, &names, value)
    }
}

/// The fields of `Expr::Block`.
pub(crate) struct ExprBlockFields;

impl Fields for ExprBlockFields {
    type Whole = Expr;

    ghost reads = { expr_block_of };

    #[tactic(auto, unfolding(crate::specs::Exprs::expr_block_of))]
    fn read(alloc: Global, tree: &Value) -> Result<Expr, NotAWorld> {
        let members = members_of(alloc, tree)?;
        let statements = optional(alloc, tree, "statements")?;
        let tail = optional(alloc, tree, "tail")?;
        let label = optional(alloc, tree, "label")?;
        let value = Expr::Block {
            statements,
            tail,
            label,
        };
        let names = ["statements", "tail", "label"];
        with_no_other(alloc, members, &names, value)
    }
}

/// The fields of `Expr::Unsafe`.
pub(crate) struct ExprUnsafeFields;

impl Fields for ExprUnsafeFields {
    type Whole = Expr;

    ghost reads = { expr_unsafe_of };

    #[tactic(auto, unfolding(crate::specs::Exprs::expr_unsafe_of))]
    fn read(alloc: Global, tree: &Value) -> Result<Expr, NotAWorld> {
        let members = members_of(alloc, tree)?;
        let statements = optional(alloc, tree, "statements")?;
        let tail = optional(alloc, tree, "tail")?;
        let value = Expr::Unsafe { statements, tail };
        let names = ["statements", "tail"];
        with_no_other(alloc, members, &names, value)
    }
}

/// The fields of `Expr::Loop`.
pub(crate) struct ExprLoopFields;

impl Fields for ExprLoopFields {
    type Whole = Expr;

    ghost reads = { expr_loop_of };

    #[tactic(auto, unfolding(crate::specs::Exprs::expr_loop_of))]
    fn read(alloc: Global, tree: &Value) -> Result<Expr, NotAWorld> {
        let members = members_of(alloc, tree)?;
        let body = required(alloc, tree, "body")?;
        let label = optional(alloc, tree, "label")?;
        let value = Expr::Loop { body, label };
        let names = ["body", "label"];
        with_no_other(alloc, members, &names, value)
    }
}

/// The fields of `Expr::Call`.
pub(crate) struct ExprCallFields;

impl Fields for ExprCallFields {
    type Whole = Expr;

    ghost reads = { expr_call_of };

    #[tactic(auto, unfolding(crate::specs::Exprs::expr_call_of))]
    fn read(alloc: Global, tree: &Value) -> Result<Expr, NotAWorld> {
        let members = members_of(alloc, tree)?;
        let callee = required(alloc, tree, "callee")?;
        let args = optional(alloc, tree, "args")?;
        let value = Expr::Call { callee, args };
        let names = ["callee", "args"];
        with_no_other(alloc, members, &names, value)
    }
}

/// The fields of `Expr::MethodCall`.
pub(crate) struct ExprMethodCallFields;

impl Fields for ExprMethodCallFields {
    type Whole = Expr;

    ghost reads = { expr_method_call_of };

    #[tactic(auto, unfolding(crate::specs::Exprs::expr_method_call_of))]
    fn read(alloc: Global, tree: &Value) -> Result<Expr, NotAWorld> {
        let members = members_of(alloc, tree)?;
        let receiver = required(alloc, tree, "receiver")?;
        let args = optional(alloc, tree, "args")?;
        let method_name = required(alloc, tree, "method_name")?;
        let value = Expr::MethodCall {
            receiver,
            args,
            method_name,
        };
        let names = ["receiver", "args", "method_name"];
        with_no_other(alloc, members, &names, value)
    }
}

/// The fields of `Expr::Match`.
pub(crate) struct ExprMatchFields;

impl Fields for ExprMatchFields {
    type Whole = Expr;

    ghost reads = { expr_match_of };

    #[tactic(auto, unfolding(crate::specs::Exprs::expr_match_of))]
    fn read(alloc: Global, tree: &Value) -> Result<Expr, NotAWorld> {
        let members = members_of(alloc, tree)?;
        let expr = required(alloc, tree, "expr")?;
        let arms = optional(alloc, tree, "arms")?;
        let value = Expr::Match { expr, arms };
        let names = ["expr", "arms"];
        with_no_other(alloc, members, &names, value)
    }
}

/// The fields of `Expr::Continue`.
pub(crate) struct ExprContinueFields;

impl Fields for ExprContinueFields {
    type Whole = Expr;

    ghost reads = { expr_continue_of };

    #[tactic(auto, unfolding(crate::specs::Exprs::expr_continue_of))]
    fn read(alloc: Global, tree: &Value) -> Result<Expr, NotAWorld> {
        let members = members_of(alloc, tree)?;
        let label = optional(alloc, tree, "label")?;
        let value = Expr::Continue { label };
        let names = ["label"];
        with_no_other(alloc, members, &names, value)
    }
}

/// The fields of `Expr::Break`.
pub(crate) struct ExprBreakFields;

impl Fields for ExprBreakFields {
    type Whole = Expr;

    ghost reads = { expr_break_of };

    #[tactic(auto, unfolding(crate::specs::Exprs::expr_break_of))]
    fn read(alloc: Global, tree: &Value) -> Result<Expr, NotAWorld> {
        let members = members_of(alloc, tree)?;
        let expr = optional(alloc, tree, "expr")?;
        let label = optional(alloc, tree, "label")?;
        let value = Expr::Break { expr, label };
        let names = ["expr", "label"];
        with_no_other(alloc, members, &names, value)
    }
}

/// The fields of `Expr::Return`.
pub(crate) struct ExprReturnFields;

impl Fields for ExprReturnFields {
    type Whole = Expr;

    ghost reads = { expr_return_of };

    #[tactic(auto, unfolding(crate::specs::Exprs::expr_return_of))]
    fn read(alloc: Global, tree: &Value) -> Result<Expr, NotAWorld> {
        let members = members_of(alloc, tree)?;
        let expr = optional(alloc, tree, "expr")?;
        let value = Expr::Return { expr };
        let names = ["expr"];
        with_no_other(alloc, members, &names, value)
    }
}

/// The fields of `Expr::RecordLit`.
pub(crate) struct ExprRecordLitFields;

impl Fields for ExprRecordLitFields {
    type Whole = Expr;

    ghost reads = { expr_record_lit_of };

    #[tactic(auto, unfolding(crate::specs::Exprs::expr_record_lit_of))]
    fn read(alloc: Global, tree: &Value) -> Result<Expr, NotAWorld> {
        let members = members_of(alloc, tree)?;
        let path = optional(alloc, tree, "path")?;
        let fields = optional(alloc, tree, "fields")?;
        let spread = required(alloc, tree, "spread")?;
        let value = Expr::RecordLit {
            path,
            fields,
            spread,
        };
        let names = ["path", "fields", "spread"];
        with_no_other(alloc, members, &names, value)
    }
}

/// The fields of `Expr::Field`.
pub(crate) struct ExprFieldFields;

impl Fields for ExprFieldFields {
    type Whole = Expr;

    ghost reads = { expr_field_of };

    #[tactic(auto, unfolding(crate::specs::Exprs::expr_field_of))]
    fn read(alloc: Global, tree: &Value) -> Result<Expr, NotAWorld> {
        let members = members_of(alloc, tree)?;
        let expr = required(alloc, tree, "expr")?;
        let name = required(alloc, tree, "name")?;
        let value = Expr::Field { expr, name };
        let names = ["expr", "name"];
        with_no_other(alloc, members, &names, value)
    }
}

/// The fields of `Expr::Cast`.
pub(crate) struct ExprCastFields;

impl Fields for ExprCastFields {
    type Whole = Expr;

    ghost reads = { expr_cast_of };

    #[tactic(auto, unfolding(crate::specs::Exprs::expr_cast_of))]
    fn read(alloc: Global, tree: &Value) -> Result<Expr, NotAWorld> {
        let members = members_of(alloc, tree)?;
        let expr = required(alloc, tree, "expr")?;
        let value = Expr::Cast { expr };
        let names = ["expr"];
        with_no_other(alloc, members, &names, value)
    }
}

/// The fields of `Expr::Ref`.
pub(crate) struct ExprRefFields;

impl Fields for ExprRefFields {
    type Whole = Expr;

    ghost reads = { expr_ref_of };

    #[tactic(auto, unfolding(crate::specs::Exprs::expr_ref_of))]
    fn read(alloc: Global, tree: &Value) -> Result<Expr, NotAWorld> {
        let members = members_of(alloc, tree)?;
        let expr = required(alloc, tree, "expr")?;
        let mutability = required(alloc, tree, "mutability")?;
        let value = Expr::Ref { expr, mutability };
        let names = ["expr", "mutability"];
        with_no_other(alloc, members, &names, value)
    }
}

/// The fields of `Expr::Box`.
pub(crate) struct ExprBoxFields;

impl Fields for ExprBoxFields {
    type Whole = Expr;

    ghost reads = { expr_box_of };

    #[tactic(auto, unfolding(crate::specs::Exprs::expr_box_of))]
    fn read(alloc: Global, tree: &Value) -> Result<Expr, NotAWorld> {
        let members = members_of(alloc, tree)?;
        let expr = required(alloc, tree, "expr")?;
        let value = Expr::Box { expr };
        let names = ["expr"];
        with_no_other(alloc, members, &names, value)
    }
}

/// The fields of `Expr::UnaryOp`.
pub(crate) struct ExprUnaryOpFields;

impl Fields for ExprUnaryOpFields {
    type Whole = Expr;

    ghost reads = { expr_unary_op_of };

    #[tactic(auto, unfolding(crate::specs::Exprs::expr_unary_op_of))]
    fn read(alloc: Global, tree: &Value) -> Result<Expr, NotAWorld> {
        let members = members_of(alloc, tree)?;
        let expr = required(alloc, tree, "expr")?;
        let op = required(alloc, tree, "op")?;
        let value = Expr::UnaryOp { expr, op };
        let names = ["expr", "op"];
        with_no_other(alloc, members, &names, value)
    }
}

/// The fields of `Expr::BinaryOp`.
pub(crate) struct ExprBinaryOpFields;

impl Fields for ExprBinaryOpFields {
    type Whole = Expr;

    ghost reads = { expr_binary_op_of };

    #[tactic(auto, unfolding(crate::specs::Exprs::expr_binary_op_of))]
    fn read(alloc: Global, tree: &Value) -> Result<Expr, NotAWorld> {
        let members = members_of(alloc, tree)?;
        let lhs = required(alloc, tree, "lhs")?;
        let rhs = required(alloc, tree, "rhs")?;
        let op = optional(alloc, tree, "op")?;
        let value = Expr::BinaryOp { lhs, rhs, op };
        let names = ["lhs", "rhs", "op"];
        with_no_other(alloc, members, &names, value)
    }
}

/// The fields of `Expr::Assignment`.
pub(crate) struct ExprAssignmentFields;

impl Fields for ExprAssignmentFields {
    type Whole = Expr;

    ghost reads = { expr_assignment_of };

    #[tactic(auto, unfolding(crate::specs::Exprs::expr_assignment_of))]
    fn read(alloc: Global, tree: &Value) -> Result<Expr, NotAWorld> {
        let members = members_of(alloc, tree)?;
        let target = required(alloc, tree, "target")?;
        let value = required(alloc, tree, "value")?;
        let value = Expr::Assignment { target, value };
        let names = ["target", "value"];
        with_no_other(alloc, members, &names, value)
    }
}

/// The fields of `Expr::Range`.
pub(crate) struct ExprRangeFields;

impl Fields for ExprRangeFields {
    type Whole = Expr;

    ghost reads = { expr_range_of };

    #[tactic(auto, unfolding(crate::specs::Exprs::expr_range_of))]
    fn read(alloc: Global, tree: &Value) -> Result<Expr, NotAWorld> {
        let members = members_of(alloc, tree)?;
        let lhs = optional(alloc, tree, "lhs")?;
        let rhs = optional(alloc, tree, "rhs")?;
        let value = Expr::Range { lhs, rhs };
        let names = ["lhs", "rhs"];
        with_no_other(alloc, members, &names, value)
    }
}

/// The fields of `Expr::Index`.
pub(crate) struct ExprIndexFields;

impl Fields for ExprIndexFields {
    type Whole = Expr;

    ghost reads = { expr_index_of };

    #[tactic(auto, unfolding(crate::specs::Exprs::expr_index_of))]
    fn read(alloc: Global, tree: &Value) -> Result<Expr, NotAWorld> {
        let members = members_of(alloc, tree)?;
        let base = required(alloc, tree, "base")?;
        let index = required(alloc, tree, "index")?;
        let value = Expr::Index { base, index };
        let names = ["base", "index"];
        with_no_other(alloc, members, &names, value)
    }
}

/// The fields of `Expr::Closure`.
pub(crate) struct ExprClosureFields;

impl Fields for ExprClosureFields {
    type Whole = Expr;

    ghost reads = { expr_closure_of };

    #[tactic(auto, unfolding(crate::specs::Exprs::expr_closure_of))]
    fn read(alloc: Global, tree: &Value) -> Result<Expr, NotAWorld> {
        let members = members_of(alloc, tree)?;
        let args = optional(alloc, tree, "args")?;
        let body = required(alloc, tree, "body")?;
        let value = Expr::Closure { args, body };
        let names = ["args", "body"];
        with_no_other(alloc, members, &names, value)
    }
}

/// The fields of `Expr::Tuple`.
pub(crate) struct ExprTupleFields;

impl Fields for ExprTupleFields {
    type Whole = Expr;

    ghost reads = { expr_tuple_of };

    #[tactic(auto, unfolding(crate::specs::Exprs::expr_tuple_of))]
    fn read(alloc: Global, tree: &Value) -> Result<Expr, NotAWorld> {
        let members = members_of(alloc, tree)?;
        let exprs = optional(alloc, tree, "exprs")?;
        let value = Expr::Tuple { exprs };
        let names = ["exprs"];
        with_no_other(alloc, members, &names, value)
    }
}

/// The fields of `Expr::Array`.
pub(crate) struct ExprArrayFields;

impl Fields for ExprArrayFields {
    type Whole = Expr;

    ghost reads = { expr_array_of };

    #[tactic(auto, unfolding(crate::specs::Exprs::expr_array_of))]
    fn read(alloc: Global, tree: &Value) -> Result<Expr, NotAWorld> {
        let members = members_of(alloc, tree)?;
        let elements = optional(alloc, tree, "elements")?;
        let value = Expr::Array { elements };
        let names = ["elements"];
        with_no_other(alloc, members, &names, value)
    }
}

/// The fields of `Expr::Repeat`.
pub(crate) struct ExprRepeatFields;

impl Fields for ExprRepeatFields {
    type Whole = Expr;

    ghost reads = { expr_repeat_of };

    #[tactic(auto, unfolding(crate::specs::Exprs::expr_repeat_of))]
    fn read(alloc: Global, tree: &Value) -> Result<Expr, NotAWorld> {
        let members = members_of(alloc, tree)?;
        let initializer = required(alloc, tree, "initializer")?;
        let value = Expr::Repeat { initializer };
        let names = ["initializer"];
        with_no_other(alloc, members, &names, value)
    }
}
