//! The children of a body's nodes, and its pairs of child and parent.
ghost use Rattle.std.specs.Prelude.{◌≡◌, ◌++◌, map, IfOk, OnOk};
ghost use Rattle.check_trees.specs.Tree.{held_by, held_by_expr, held_by_pat, held_pairs, pairs_of, with_holder};

use crate::BodyNode;
use crate::nodes::{push_children, push_inner_exprs, push_patterns, push_subpatterns};
use std::alloc::Global;
use world::{Body, Expr, NoMemory, Pat};

/// Adds expressions to a list of nodes.
fn add_exprs(nodes: &mut Vec<BodyNode>, ids: &[u64]) -> Result<(), NoMemory>
    ensures { OnOk result (nodes.new.items ≡ nodes.old.items ++ map BodyNode.Expr ids.now) }
{
    for (i, id) in ids.iter().enumerate() {
        nodes.push(BodyNode::Expr(*id))?;
    }
    Ok(())
}

/// Adds patterns to a list of nodes.
fn add_pats(nodes: &mut Vec<BodyNode>, ids: &[u64]) -> Result<(), NoMemory>
    ensures { OnOk result (nodes.new.items ≡ nodes.old.items ++ map BodyNode.Pat ids.now) }
{
    for (i, id) in ids.iter().enumerate() {
        nodes.push(BodyNode::Pat(*id))?;
    }
    Ok(())
}

/// The children of an expression: expressions, then patterns.
fn held_by_expr(alloc: Global, node: &Expr) -> Result<Vec<BodyNode>, NoMemory>
    ensures { IfOk result (λ nodes. nodes.items ≡ held_by_expr node.now) }
{
    let mut children = Vec::new(alloc);
    push_children(&mut children, node)?;
    let mut patterns = Vec::new(alloc);
    push_patterns(&mut patterns, node)?;
    let mut nodes = Vec::new(alloc);
    add_exprs(&mut nodes, children.as_slice())?;
    add_pats(&mut nodes, patterns.as_slice())?;
    Ok(nodes)
}

/// The children of a pattern: subpatterns, then expressions.
fn held_by_pat(alloc: Global, node: &Pat) -> Result<Vec<BodyNode>, NoMemory>
    ensures { IfOk result (λ nodes. nodes.items ≡ held_by_pat node.now) }
{
    let mut parts = Vec::new(alloc);
    push_subpatterns(&mut parts, node)?;
    let mut exprs = Vec::new(alloc);
    push_inner_exprs(&mut exprs, node)?;
    let mut nodes = Vec::new(alloc);
    add_pats(&mut nodes, parts.as_slice())?;
    add_exprs(&mut nodes, exprs.as_slice())?;
    Ok(nodes)
}

/// The children of a node; none if the body doesn't have the node.
pub(crate) fn held_by(alloc: Global, body: &Body, node: BodyNode) -> Result<Vec<BodyNode>, NoMemory>
    ensures { IfOk result (λ nodes. nodes.items ≡ held_by body.now node) }
{
    match node {
        BodyNode::Expr(e) => match body.exprs.get(e) {
            Some(expr) => held_by_expr(alloc, expr),
            None => Ok(Vec::new(alloc)),
        },
        BodyNode::Pat(p) => match body.pats.get(p) {
            Some(pat) => held_by_pat(alloc, pat),
            None => Ok(Vec::new(alloc)),
        },
    }
}

/// Adds pairs of a child and its parent.
fn add_pairs(
    pairs: &mut Vec<(BodyNode, BodyNode)>,
    holder: BodyNode,
    nodes: &[BodyNode],
) -> Result<(), NoMemory>
    ensures { OnOk result (pairs.new.items ≡ pairs.old.items ++ with_holder holder nodes.now) }
{
    for (i, node) in nodes.iter().enumerate() {
        pairs.push((*node, holder))?;
    }
    Ok(())
}

/// Adds the pairs of an expression and its children.
fn add_expr(
    alloc: Global,
    pairs: &mut Vec<(BodyNode, BodyNode)>,
    e: u64,
    node: &Expr,
) -> Result<(), NoMemory>
    ensures { OnOk result (pairs.new.items ≡ pairs.old.items ++ with_holder (BodyNode.Expr e) (held_by_expr node.now)) }
{
    let nodes = held_by_expr(alloc, node)?;
    add_pairs(pairs, BodyNode::Expr(e), nodes.as_slice())
}

/// Adds the pairs of a pattern and its children.
fn add_pat(
    alloc: Global,
    pairs: &mut Vec<(BodyNode, BodyNode)>,
    p: u64,
    node: &Pat,
) -> Result<(), NoMemory>
    ensures { OnOk result (pairs.new.items ≡ pairs.old.items ++ with_holder (BodyNode.Pat p) (held_by_pat node.now)) }
{
    let nodes = held_by_pat(alloc, node)?;
    add_pairs(pairs, BodyNode::Pat(p), nodes.as_slice())
}

/// Adds the pairs of all expressions and their children.
fn add_pairs_of_exprs(
    alloc: Global,
    pairs: &mut Vec<(BodyNode, BodyNode)>,
    exprs: &[Expr],
) -> Result<(), NoMemory>
    ensures { OnOk result (pairs.new.items ≡ pairs.old.items ++ pairs_of BodyNode.Expr held_by_expr 0 exprs.now) }
{
    for (i, node) in exprs.iter().enumerate() {
        add_expr(alloc, pairs, i as u64, node)?;
    }
    Ok(())
}

/// Adds the pairs of all patterns and their children.
fn add_pairs_of_pats(
    alloc: Global,
    pairs: &mut Vec<(BodyNode, BodyNode)>,
    pats: &[Pat],
) -> Result<(), NoMemory>
    ensures { OnOk result (pairs.new.items ≡ pairs.old.items ++ pairs_of BodyNode.Pat held_by_pat 0 pats.now) }
{
    for (i, node) in pats.iter().enumerate() {
        add_pat(alloc, pairs, i as u64, node)?;
    }
    Ok(())
}

/// All pairs of a child and its parent in a body, one for each time that the child occurs.
pub(crate) fn held_pairs(alloc: Global, body: &Body) -> Result<Vec<(BodyNode, BodyNode)>, NoMemory>
    ensures { IfOk result (λ pairs. pairs.items ≡ held_pairs body.now) }
{
    let mut pairs = Vec::new(alloc);
    add_pairs_of_exprs(alloc, &mut pairs, body.exprs.as_slice())?;
    add_pairs_of_pats(alloc, &mut pairs, body.pats.as_slice())?;
    Ok(pairs)
}
