//! Whether each jump names the label of an enclosing loop or block.
ghost use Rattle.std.specs.Prelude.{◌≡◌, ◌<◌, length, Decides, IfOk};
ghost use Rattle.world.specs.Nodes.{jump_label, scope_label};
ghost use Rattle.check_trees.specs.First.{FindsFirst};
ghost use Rattle.check_trees.specs.inner.Walks.{AreHolders, AreTops};
ghost use Rattle.check_trees.specs.Jumps.{is_label, is_labelled, IsEnclosed, IsJumpInside};

use crate::BodyNode;
use crate::held::held_pairs;
use crate::holders::Holders;
use crate::nodes::{jump_label, scope_label};
use crate::tops::{is_top, top_marks};
use std::alloc::Global;
use world::{Body, Expr, LabelId, NoMemory};

/// Whether an optional label is this one.
fn is_label(found: Option<LabelId>, label: LabelId) -> bool
    ensures { result ≡ is_label found label }
{
    match found {
        None => false,
        Some(other) => other.0 == label.0,
    }
}

/// Whether a node is a loop or a block with the label.
fn is_labelled(body: &Body, label: LabelId, node: BodyNode) -> bool
    ensures { result ≡ is_labelled body.now label node }
{
    match node {
        BodyNode::Expr(e) => match body.exprs.get(e) {
            None => false,
            Some(expr) => is_label(scope_label(expr), label),
        },
        BodyNode::Pat(_) => false,
    }
}

/// Whether a loop or a block with the label encloses an expression, at most 401 parents above it.
fn is_enclosed(body: &Body, holders: &Holders, tops: &[bool], label: LabelId, e: u64) -> bool
    requires holders { AreHolders body.now holders.now }
    requires tops { AreTops body.now tops.now }
    requires there { e < length body.now.exprs }
    ensures { Decides result (IsEnclosed body.now label (BodyNode.Expr e)) }
{
    let mut node = BodyNode::Expr(e);
    for step in 0..401u64 {
        if is_top(body, tops, node) {
            return false;
        }
        let Some(holder) = holders.holder(node) else {
            return false;
        };
        if is_labelled(body, label, holder) {
            return true;
        }
        node = holder;
    }
    false
}

/// Whether an expression is no jump to a label, or jumps to one that encloses it.
fn is_jump_inside(body: &Body, holders: &Holders, tops: &[bool], e: u64, node: &Expr) -> bool
    requires holders { AreHolders body.now holders.now }
    requires tops { AreTops body.now tops.now }
    requires there { e < length body.now.exprs }
    ensures { Decides result (IsJumpInside body.now e node.now) }
{
    match jump_label(node) {
        None => true,
        Some(label) => is_enclosed(body, holders, tops, label, e),
    }
}

/// The first of these expressions that jumps to a label which doesn't enclose it.
fn wrong_jump_among(body: &Body, holders: &Holders, tops: &[bool], exprs: &[Expr]) -> Option<u64>
    requires all { exprs.now ≡ body.now.exprs }
    requires holders { AreHolders body.now holders.now }
    requires tops { AreTops body.now tops.now }
    ensures { FindsFirst (IsJumpInside body.now) exprs.now result }
{
    for (i, node) in exprs.iter().enumerate() {
        if !is_jump_inside(body, holders, tops, i as u64, node) {
            return Some(i as u64);
        }
    }
    None
}

/// The first jump of a body to a label that no enclosing loop or block has. It fails only for want of
/// memory.
pub fn wrong_jump(alloc: Global, body: &Body) -> Result<Option<u64>, NoMemory>
    ensures { IfOk result (FindsFirst (IsJumpInside body.now) body.now.exprs) }
{
    let pairs = held_pairs(alloc, body)?;
    let holders = Holders::of(alloc, body, pairs.as_slice())?;
    let tops = top_marks(alloc, body)?;
    Ok(wrong_jump_among(body, &holders, tops.as_slice(), body.exprs.as_slice()))
}
