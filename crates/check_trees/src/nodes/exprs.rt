//! The children of expressions.
ghost use Rattle.std.specs.Prelude.{◌≡◌, ◌++◌, OnOk};
ghost use Rattle.world.specs.Nodes.{children_of, patterns_of};

use crate::nodes::parts::{
    push_arm_patterns, push_block, push_branches, push_expr, push_exprs, push_match, push_optional,
    push_pat, push_pats, push_record, push_statement_patterns, push_two, push_two_optional,
    push_with_exprs,
};
use world::{Expr, NoMemory};

/// Adds the direct child expressions of an expression to a list, in the order of its fields; not those
/// inside its patterns. It fails only for want of memory, and the list may then have only some of them.
pub fn push_children(out: &mut Vec<u64>, node: &Expr) -> Result<(), NoMemory>
    ensures { OnOk result (out.new.items ≡ out.old.items ++ children_of node.now) }
{
    match node {
        Expr::If {
            condition,
            then_branch,
            else_branch,
        } => push_branches(out, *condition, *then_branch, *else_branch),
        Expr::Block {
            statements,
            tail,
            label: _,
        } => push_block(out, statements.as_slice(), *tail),
        Expr::Unsafe { statements, tail } => push_block(out, statements.as_slice(), *tail),
        Expr::Call { callee, args } => push_with_exprs(out, *callee, args.as_slice()),
        Expr::MethodCall {
            receiver,
            args,
            method_name: _,
        } => push_with_exprs(out, *receiver, args.as_slice()),
        Expr::Match { expr, arms } => push_match(out, *expr, arms.as_slice()),
        Expr::Break { expr, label: _ } => push_optional(out, *expr),
        Expr::Return { expr } => push_optional(out, *expr),
        Expr::RecordLit {
            path: _,
            fields,
            spread,
        } => push_record(out, fields.as_slice(), *spread),
        Expr::BinaryOp { lhs, rhs, op: _ } => push_two(out, *lhs, *rhs),
        Expr::Range { lhs, rhs } => push_two_optional(out, *lhs, *rhs),
        Expr::Index { base, index } => push_two(out, *base, *index),
        Expr::Tuple { exprs } => push_exprs(out, exprs.as_slice()),
        Expr::Array { elements } => push_exprs(out, elements.as_slice()),
        Expr::Yield(expr) => push_optional(out, *expr),
        Expr::Yeet(expr) => push_optional(out, *expr),
        Expr::Let { pat: _, expr } => push_expr(out, *expr),
        Expr::Loop { body, label: _ } => push_expr(out, *body),
        Expr::Field { expr, name: _ } => push_expr(out, *expr),
        Expr::Cast { expr } => push_expr(out, *expr),
        Expr::Ref {
            expr,
            mutability: _,
        } => push_expr(out, *expr),
        Expr::Box { expr } => push_expr(out, *expr),
        Expr::UnaryOp { expr, op: _ } => push_expr(out, *expr),
        Expr::Assignment { target: _, value } => push_expr(out, *value),
        Expr::Closure { args: _, body } => push_expr(out, *body),
        Expr::Repeat { initializer } => push_expr(out, *initializer),
        Expr::Become(expr) => push_expr(out, *expr),
        Expr::Await(expr) => push_expr(out, *expr),
        Expr::Async(expr) => push_expr(out, *expr),
        Expr::Const(expr) => push_expr(out, *expr),
        _ => Ok(()),
    }
}

/// Adds the direct child patterns of an expression to a list, in the order of its fields. It fails only
/// for want of memory, and the list may then have only some of them.
pub fn push_patterns(out: &mut Vec<u64>, node: &Expr) -> Result<(), NoMemory>
    ensures { OnOk result (out.new.items ≡ out.old.items ++ patterns_of node.now) }
{
    match node {
        Expr::Let { pat, .. } => push_pat(out, *pat),
        Expr::Block { statements, .. } => push_statement_patterns(out, statements.as_slice()),
        Expr::Unsafe { statements, .. } => push_statement_patterns(out, statements.as_slice()),
        Expr::Match { arms, .. } => push_arm_patterns(out, arms.as_slice()),
        Expr::Assignment { target, .. } => push_pat(out, *target),
        Expr::Closure { args, .. } => push_pats(out, args.as_slice()),
        _ => Ok(()),
    }
}
