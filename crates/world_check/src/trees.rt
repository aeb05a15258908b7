//! Tests of all bodies: they are trees, jumps name enclosing labels, and `..` stands within its pattern.
ghost use Rattle.std.specs.Prelude.{◌≡◌, Some, slice_get, IfOk};
ghost use Rattle.world.specs.declared.database.HirDatabase.{HirDatabase as World};
ghost use Rattle.world_check.specs.Meets.{Meets};
ghost use Rattle.world_check.specs.Rows.{FindsUnmet};
ghost use Rattle.check_trees.specs.First.{FindsFailing};
ghost use Rattle.world_check.specs.WorldPlaces.{node_place, of_bodies, of_body};

use crate::{CheckRow, NodeKind, Place};
use check_trees::{BodyNode, wrong_ellipsis, wrong_jump, wrong_node};
use std::alloc::Global;
use world::{BodyRow, HirDatabase, NoMemory};

/// The place of a node in body `b`.
fn node_place(b: u64, node: BodyNode) -> Place
    ensures { result ≡ node_place b node }
{
    match node {
        BodyNode::Expr(i) => Place::Node(b, NodeKind::Exprs, i),
        BodyNode::Pat(i) => Place::Node(b, NodeKind::Pats, i),
    }
}

/// The place of the first node of body `b` that is not in order.
fn wrong_node_in(alloc: Global, b: u64, row: &BodyRow) -> Result<Option<Place>, NoMemory>
    ensures { IfOk result (λ found. (world : World) → slice_get world.bodies b ≡ Some row.now → FindsFailing (Meets CheckRow.C2 world) (of_body b row.now.body) found) }
{
    match wrong_node(alloc, &row.body)? {
        Some(node) => Ok(Some(node_place(b, node))),
        None => Ok(None),
    }
}

/// The first node at which a body is not a tree.
pub(crate) fn wrong_tree(alloc: Global, db: &HirDatabase) -> Result<Option<Place>, NoMemory>
    ensures { IfOk result (λ found. FindsUnmet CheckRow.C2 db.now found) }
{
    let rows = db.bodies.as_slice();
    for (i, row) in rows.iter().enumerate() {
        if let Some(place) = wrong_node_in(alloc, i as u64, row)? {
            return Ok(Some(place));
        }
    }
    Ok(None)
}

/// The place of the first jump of body `b` to a label that doesn't enclose it.
fn wrong_jump_in(alloc: Global, b: u64, row: &BodyRow) -> Result<Option<Place>, NoMemory>
    ensures { IfOk result (λ found. (world : World) → slice_get world.bodies b ≡ Some row.now → FindsFailing (Meets CheckRow.C3 world) (of_body b row.now.body) found) }
{
    match wrong_jump(alloc, &row.body)? {
        Some(i) => Ok(Some(Place::Node(b, NodeKind::Exprs, i))),
        None => Ok(None),
    }
}

/// The first jump of the world to a label that doesn't enclose it.
pub(crate) fn wrong_label(alloc: Global, db: &HirDatabase) -> Result<Option<Place>, NoMemory>
    ensures { IfOk result (λ found. FindsUnmet CheckRow.C3 db.now found) }
{
    let rows = db.bodies.as_slice();
    for (i, row) in rows.iter().enumerate() {
        if let Some(place) = wrong_jump_in(alloc, i as u64, row)? {
            return Ok(Some(place));
        }
    }
    Ok(None)
}

/// The place of the first pattern of body `b` whose `..` stands past the end of its subpatterns.
fn wrong_ellipsis_in(b: u64, row: &BodyRow) -> Option<Place>
    ensures { (world : World) → slice_get world.bodies b ≡ Some row.now → FindsFailing (Meets CheckRow.C7 world) (of_body b row.now.body) result }
{
    match wrong_ellipsis(&row.body) {
        Some(i) => Some(Place::Node(b, NodeKind::Pats, i)),
        None => None,
    }
}

/// The place of the first pattern of the world whose `..` stands past the end of its subpatterns.
pub(crate) fn wrong_pattern(db: &HirDatabase) -> Option<Place>
    ensures { FindsFailing (Meets CheckRow.C7 db.now) (of_bodies 0 db.now.bodies) result }
{
    let rows = db.bodies.as_slice();
    for (i, row) in rows.iter().enumerate() {
        if let Some(place) = wrong_ellipsis_in(i as u64, row) {
            return Some(place);
        }
    }
    None
}
