//! Whether the ids in the nodes of a body are in range.
ghost use Rattle.std.specs.Prelude.{◌≡◌, IfOk};
ghost use Rattle.world.specs.Nodes.{binding_of, children_of, inner_exprs_of, jump_label, patterns_of, scope_label, subpatterns_of};
ghost use Rattle.check_ids.specs.Nodes.{are_exprs, are_parts_named, are_pats, is_binding_in_range, is_binding_known, is_expr_in_range, is_expr_known, is_label_known, is_literal_right, is_pat_in_range, is_scalar};

use check_names::is_nameable;
use check_trees::{
    jump_label, push_children, push_inner_exprs, push_patterns, push_subpatterns, scope_label,
};
use world::{Binding, BindingId, Body, Expr, ExprId, LabelId, Literal, NoMemory, Pat};

/// Whether each of these is the id of an expression of the body.
fn are_exprs(body: &Body, numbers: &[u64]) -> bool
    ensures { result ≡ are_exprs body.now numbers.now }
{
    let entries = body.exprs.len();
    numbers.iter().all(|number| *number < entries)
}

/// Whether each of these is the id of a pattern of the body.
fn are_pats(body: &Body, numbers: &[u64]) -> bool
    ensures { result ≡ are_pats body.now numbers.now }
{
    let entries = body.pats.len();
    numbers.iter().all(|number| *number < entries)
}

/// Whether an optional label is none or one of the body's.
fn is_label_known(body: &Body, label: Option<LabelId>) -> bool
    ensures { result ≡ is_label_known body.now label }
{
    match label {
        None => true,
        Some(label) => (label.0 as u64) < body.labels.len(),
    }
}

/// Whether an optional binding is none or one of the body's.
pub(crate) fn is_binding_known(body: &Body, binding: Option<BindingId>) -> bool
    ensures { result ≡ is_binding_known body.now binding }
{
    match binding {
        None => true,
        Some(id) => (id.0 as u64) < body.bindings.len(),
    }
}

/// Whether an optional expression is none or one of the body's.
fn is_expr_known(body: &Body, expr: Option<ExprId>) -> bool
    ensures { result ≡ is_expr_known body.now expr }
{
    match expr {
        None => true,
        Some(id) => (id.0 as u64) < body.exprs.len(),
    }
}

/// The binding of a binding pattern.
fn binding_of(node: &Pat) -> Option<BindingId>
    ensures { result ≡ binding_of node.now }
{
    match node {
        Pat::Bind { id, subpat: _ } => Some(*id),
        _ => None,
    }
}

/// Whether a number is a Unicode scalar value.
fn is_scalar(number: u32) -> bool
    ensures { result ≡ is_scalar number }
{
    number < 0xD800 || (0xE000 <= number && number < 0x11_0000)
}

/// Whether an expression is no `char` literal, or one that is a Unicode scalar value.
fn is_literal_right(node: &Expr) -> bool
    ensures { result ≡ is_literal_right node.now }
{
    match node {
        Expr::Literal(Literal::Char(number)) => is_scalar(*number),
        _ => true,
    }
}

/// Whether a tuple pattern has few enough subpatterns for the position of its `..`, a number of 32 bits.
fn are_parts_named(node: &Pat) -> bool
    ensures { result ≡ are_parts_named node.now }
{
    match node {
        Pat::Tuple { args, ellipsis: _ } => is_nameable(args.len()),
        Pat::TupleStruct { args, ellipsis: _ } => is_nameable(args.len()),
        _ => true,
    }
}

/// Whether the ids of an expression's child expressions are in range. `numbers` is overwritten.
fn has_children(numbers: &mut Vec<u64>, body: &Body, node: &Expr) -> Result<bool, NoMemory>
    ensures { IfOk result (λ passes. passes ≡ are_exprs body.now (children_of node.now)) }
{
    numbers.clear();
    push_children(numbers, node)?;
    Ok(are_exprs(body, numbers.as_slice()))
}

/// Whether the ids of an expression's patterns are in range. `numbers` is overwritten.
fn has_patterns(numbers: &mut Vec<u64>, body: &Body, node: &Expr) -> Result<bool, NoMemory>
    ensures { IfOk result (λ passes. passes ≡ are_pats body.now (patterns_of node.now)) }
{
    numbers.clear();
    push_patterns(numbers, node)?;
    Ok(are_pats(body, numbers.as_slice()))
}

/// Whether the ids of a pattern's subpatterns are in range. `numbers` is overwritten.
fn has_subpatterns(numbers: &mut Vec<u64>, body: &Body, node: &Pat) -> Result<bool, NoMemory>
    ensures { IfOk result (λ passes. passes ≡ are_pats body.now (subpatterns_of node.now)) }
{
    numbers.clear();
    push_subpatterns(numbers, node)?;
    Ok(are_pats(body, numbers.as_slice()))
}

/// Whether the ids of the expressions in a pattern are in range. `numbers` is overwritten.
fn has_inner_exprs(numbers: &mut Vec<u64>, body: &Body, node: &Pat) -> Result<bool, NoMemory>
    ensures { IfOk result (λ passes. passes ≡ are_exprs body.now (inner_exprs_of node.now)) }
{
    numbers.clear();
    push_inner_exprs(numbers, node)?;
    Ok(are_exprs(body, numbers.as_slice()))
}

/// Whether all ids in an expression are in range. `numbers` is overwritten.
pub(crate) fn is_expr_in_range(
    numbers: &mut Vec<u64>,
    body: &Body,
    node: &Expr,
) -> Result<bool, NoMemory>
    ensures { IfOk result (λ passes. passes ≡ is_expr_in_range body.now node.now) }
{
    let children = has_children(numbers, body, node)?;
    let patterns = has_patterns(numbers, body, node)?;
    let jump = is_label_known(body, jump_label(node));
    let scope = is_label_known(body, scope_label(node));
    Ok(children && patterns && jump && scope && is_literal_right(node))
}

/// Whether all ids in a pattern are in range. `numbers` is overwritten.
pub(crate) fn is_pat_in_range(
    numbers: &mut Vec<u64>,
    body: &Body,
    node: &Pat,
) -> Result<bool, NoMemory>
    ensures { IfOk result (λ passes. passes ≡ is_pat_in_range body.now node.now) }
{
    let subpatterns = has_subpatterns(numbers, body, node)?;
    let exprs = has_inner_exprs(numbers, body, node)?;
    let binding = is_binding_known(body, binding_of(node));
    Ok(subpatterns && exprs && binding && are_parts_named(node))
}

/// Whether the closure that a binding belongs to, if there is one, is an expression of the body.
pub(crate) fn is_binding_in_range(body: &Body, binding: &Binding) -> bool
    ensures { result ≡ is_binding_in_range body.now binding.now }
{
    is_expr_known(body, binding.owner)
}
