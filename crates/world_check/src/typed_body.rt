//! The check of one typed body.
ghost use Rattle.std.specs.Prelude.{◌≡◌, ◌&&◌, None, IfOk, Decides};
ghost use Rattle.std.specs.Option.{is_none};
ghost use Rattle.check_trees.specs.First.{FindsFirst};
ghost use Rattle.check_trees.specs.Jumps.{IsJumpInside};
ghost use Rattle.check_trees.specs.Tree.{FindsWrongNode};
ghost use Rattle.world_check.specs.Valid.{IsBodyRight};

use check_ids::{BodyPart, wrong_part};
use check_trees::{wrong_ellipsis, wrong_jump, wrong_node};
use std::alloc::Global;
use world::{Body, HirDatabase, InferenceResult, NoMemory};

/// Whether all nodes of a body are in order.
fn is_tree(alloc: Global, body: &Body) -> Result<bool, NoMemory>
    ensures { IfOk result (λ all. Decides all (FindsWrongNode body.now None)) }
{
    Ok(wrong_node(alloc, body)?.is_none())
}

/// Whether all jumps of a body to labels stand inside loops and blocks with these labels.
fn are_jumps_inside(alloc: Global, body: &Body) -> Result<bool, NoMemory>
    ensures { IfOk result (λ all. Decides all (FindsFirst (IsJumpInside body.now) body.now.exprs None)) }
{
    Ok(wrong_jump(alloc, body)?.is_none())
}

/// Whether there is no wrong part and no misplaced `..`, all nodes are in order and all jumps stand inside.
fn finds_nothing(part: Option<BodyPart>, tree: bool, inside: bool, ellipsis: Option<u64>) -> bool
    ensures { result ≡ (is_none part && tree && inside && is_none ellipsis) }
{
    part.is_none() && tree && inside && ellipsis.is_none()
}

/// Whether a typed body is right by itself: all ids in it and in its inference result are in
/// range, each node has a type, its lists are short enough, its `char` literals are Unicode scalar values,
/// it is a tree, its jumps name enclosing labels, and each `..` stands within its pattern. It fails only for
/// want of memory.
pub fn check_body(
    alloc: Global,
    db: &HirDatabase,
    body: &Body,
    infer: &InferenceResult,
) -> Result<bool, NoMemory>
    ensures { IfOk result (λ passes. Decides passes (IsBodyRight db.now body.now infer.now)) }
{
    let part = wrong_part(alloc, db, body, infer)?;
    let tree = is_tree(alloc, body)?;
    let inside = are_jumps_inside(alloc, body)?;
    Ok(finds_nothing(part, tree, inside, wrong_ellipsis(body)))
}
