//! The first node at which a body is not a tree.
ghost use Rattle.std.specs.Prelude.{◌≡◌, ◌<◌, length, slice_get, true, Decides, IfOk, OnOk};
ghost use Rattle.world.specs.Nodes.{children_of, patterns_of, subpatterns_of};
ghost use Rattle.check_trees.specs.First.{FindsFirst};
ghost use Rattle.check_trees.specs.inner.Walks.{AreFacts, AreReaches, AreSettled};
ghost use Rattle.check_trees.specs.Tree.{AreBelow, FindsWrongNode, HoldBelow, IsExprInOrder, IsPatInOrder, IsShallow};

use crate::BodyNode;
use crate::facts::Facts;
use crate::heights::{Heights, height};
use crate::nodes::{push_children, push_patterns, push_subpatterns};
use crate::reach::{Reaches, reach_of_pats};
use std::alloc::Global;
use world::{Body, Expr, NoMemory, Pat};

/// Whether all these ids are below a limit.
fn are_below(ids: &[u64], limit: u64) -> bool
    ensures { Decides result (AreBelow ids.now limit) }
{
    ids.iter().all(|id| *id < limit)
}

/// Whether no path of more than 400 steps leads down from a node.
fn is_shallow(
    alloc: Global,
    body: &Body,
    heights: &mut Heights,
    node: BodyNode,
) -> Result<bool, NoMemory>
    requires { AreSettled body.now heights.old }
    ensures settled { IfOk result (λ shallow. shallow ≡ true → AreSettled body.now heights.new) }
    ensures shallow { IfOk result (λ shallow. Decides shallow (IsShallow body.now node)) }
{
    match height(alloc, body, heights, node, 401)? {
        Some(_) => Ok(true),
        None => Ok(false),
    }
}

/// Whether the direct child expressions of an expression have lower ids than it.
fn are_children_before(alloc: Global, e: u64, node: &Expr) -> Result<bool, NoMemory>
    ensures { IfOk result (λ before. Decides before (AreBelow (children_of node.now) e)) }
{
    let mut children = Vec::new(alloc);
    push_children(&mut children, node)?;
    Ok(are_below(children.as_slice(), e))
}

/// Whether the direct subpatterns of a pattern have lower ids than it.
fn are_parts_before(alloc: Global, p: u64, node: &Pat) -> Result<bool, NoMemory>
    ensures { IfOk result (λ before. Decides before (AreBelow (subpatterns_of node.now) p)) }
{
    let mut parts = Vec::new(alloc);
    push_subpatterns(&mut parts, node)?;
    Ok(are_below(parts.as_slice(), p))
}

/// Whether all expressions inside the patterns of a shallow expression have lower ids than it.
fn are_inner_before(
    alloc: Global,
    body: &Body,
    reaches: &mut Reaches,
    e: u64,
    node: &Expr,
) -> Result<bool, NoMemory>
    requires reaches { AreReaches body.now reaches.old }
    requires at { slice_get body.now.exprs e ≡ Some node.now }
    requires shallow { IsShallow body.now (BodyNode.Expr e) }
    ensures reaches { OnOk result (AreReaches body.now reaches.new) }
    ensures before { IfOk result (λ before. Decides before (HoldBelow body.now (patterns_of node.now) e)) }
{
    let mut patterns = Vec::new(alloc);
    push_patterns(&mut patterns, node)?;
    let reach = reach_of_pats(alloc, body, reaches, patterns.as_slice(), 400)?;
    Ok(reach.is_before(e))
}

/// Whether an expression of a body is in order. Its patterns are walked only if it is shallow.
fn is_expr_in_order(
    alloc: Global,
    body: &Body,
    facts: &Facts,
    heights: &mut Heights,
    reaches: &mut Reaches,
    e: u64,
    node: &Expr,
) -> Result<bool, NoMemory>
    requires facts { AreFacts body.now facts.now }
    requires heights { AreSettled body.now heights.old }
    requires reaches { AreReaches body.now reaches.old }
    requires there { e < length body.now.exprs }
    requires at { slice_get body.now.exprs e ≡ Some node.now }
    ensures settled { IfOk result (λ order. order ≡ true → AreSettled body.now heights.new) }
    ensures reaches { OnOk result (AreReaches body.now reaches.new) }
    ensures order { IfOk result (λ order. Decides order (IsExprInOrder body.now e node.now)) }
{
    if !is_shallow(alloc, body, heights, BodyNode::Expr(e))? {
        return Ok(false);
    }
    let before = are_children_before(alloc, e, node)?;
    let inner = are_inner_before(alloc, body, reaches, e, node)?;
    let once = facts.has_one_holder(body, BodyNode::Expr(e));
    Ok(before && inner && once)
}

/// Whether a pattern of a body is in order.
fn is_pat_in_order(
    alloc: Global,
    body: &Body,
    facts: &Facts,
    heights: &mut Heights,
    p: u64,
    node: &Pat,
) -> Result<bool, NoMemory>
    requires facts { AreFacts body.now facts.now }
    requires heights { AreSettled body.now heights.old }
    requires there { p < length body.now.pats }
    ensures settled { IfOk result (λ order. order ≡ true → AreSettled body.now heights.new) }
    ensures order { IfOk result (λ order. Decides order (IsPatInOrder body.now p node.now)) }
{
    let before = are_parts_before(alloc, p, node)?;
    let once = facts.has_one_holder(body, BodyNode::Pat(p));
    let shallow = is_shallow(alloc, body, heights, BodyNode::Pat(p))?;
    Ok(before && once && shallow)
}

/// The first expression of a body that is not in order.
fn wrong_expr_among(
    alloc: Global,
    body: &Body,
    facts: &Facts,
    heights: &mut Heights,
    reaches: &mut Reaches,
    exprs: &[Expr],
) -> Result<Option<u64>, NoMemory>
    requires all { exprs.now ≡ body.now.exprs }
    requires facts { AreFacts body.now facts.now }
    requires heights { AreSettled body.now heights.old }
    requires reaches { AreReaches body.now reaches.old }
    ensures settled { IfOk result (λ found. found ≡ None → AreSettled body.now heights.new) }
    ensures reaches { OnOk result (AreReaches body.now reaches.new) }
    ensures first { IfOk result (FindsFirst (IsExprInOrder body.now) exprs.now) }
{
    for (i, node) in exprs.iter().enumerate() {
        if !is_expr_in_order(alloc, body, facts, heights, reaches, i as u64, node)? {
            return Ok(Some(i as u64));
        }
    }
    Ok(None)
}

/// The first pattern of a body that is not in order.
fn wrong_pat_among(
    alloc: Global,
    body: &Body,
    facts: &Facts,
    heights: &mut Heights,
    pats: &[Pat],
) -> Result<Option<u64>, NoMemory>
    requires all { pats.now ≡ body.now.pats }
    requires facts { AreFacts body.now facts.now }
    requires heights { AreSettled body.now heights.old }
    ensures { IfOk result (FindsFirst (IsPatInOrder body.now) pats.now) }
{
    for (i, node) in pats.iter().enumerate() {
        if !is_pat_in_order(alloc, body, facts, heights, i as u64, node)? {
            return Ok(Some(i as u64));
        }
    }
    Ok(None)
}

/// The first node of a body that is not in order, expressions first. A node is in order if its children
/// of its own kind, and the expressions inside its patterns, have lower ids; if it occurs at most once as
/// a child, or is the root or a parameter; and if no path of more than 400 steps leads down from it. It
/// fails only for want of memory.
pub fn wrong_node(alloc: Global, body: &Body) -> Result<Option<BodyNode>, NoMemory>
    ensures { IfOk result (FindsWrongNode body.now) }
{
    let facts = Facts::of(alloc, body)?;
    let mut heights = Heights::new(alloc, body)?;
    let mut reaches = Reaches::new(alloc, body)?;
    let exprs = body.exprs.as_slice();
    if let Some(e) = wrong_expr_among(alloc, body, &facts, &mut heights, &mut reaches, exprs)? {
        return Ok(Some(BodyNode::Expr(e)));
    }
    let pats = body.pats.as_slice();
    match wrong_pat_among(alloc, body, &facts, &mut heights, pats)? {
        Some(p) => Ok(Some(BodyNode::Pat(p))),
        None => Ok(None),
    }
}
