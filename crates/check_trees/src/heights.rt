//! The height of each node of a body: the length of the longest path down from it.
ghost use Rattle.std.specs.Prelude.{◌≡◌, ◌==◌, ◌&&◌, if◌then◌else◌, ℕ, length, nat_lt, slice_index_or, IfOk, IfSome, OnOk};
ghost use Rattle.check_trees.specs.Tree.{same_node};
ghost use Rattle.check_trees.specs.inner.Walks.{is_node, known_of, AreHeights, AreLevels, AreSettled, IsHeight, LeavesNoneOpen};

use crate::BodyNode;
use crate::held::held_by;
use std::alloc::Global;
use world::{Body, NoMemory};

/// What is known of a node's height.
#[derive(Clone, Copy)]
pub(crate) enum Known {
    Nothing,
    /// The walk is inside the node's subtree.
    Open,
    Height(u64),
}

/// What is known of the heights of a body's expressions and patterns.
#[derive(Drop)]
pub(crate) struct Heights {
    exprs: Vec<Known>,
    pats: Vec<Known>,
}

/// Stores what is known at an index, if the index is in range.
fn note_at(slots: &mut [Known], place: u64, known: Known)
    ensures { (k : ℕ) → slice_index_or slots.new k Known.Nothing ≡ (if k == place && nat_lt place (length slots.old) then known else slice_index_or slots.old k Known.Nothing) }
{
    let place = place as usize;
    if place < slots.len() {
        slots[place] = known;
    }
}

impl Heights {
    /// An empty table for a body: no height is known yet.
    pub(crate) fn new(alloc: Global, body: &Body) -> Result<Heights, NoMemory>
        ensures { IfOk result (λ heights. AreSettled body.now heights) }
    {
        let exprs = vec![in alloc; Known::Nothing; body.exprs.len() as usize]?;
        let pats = vec![in alloc; Known::Nothing; body.pats.len() as usize]?;
        Ok(Heights { exprs, pats })
    }

    /// What is known of a node's height.
    fn known(&self, node: BodyNode) -> Known
        ensures { result ≡ known_of self.now node }
    {
        let slots = match node {
            BodyNode::Expr(_) => self.exprs.as_slice(),
            BodyNode::Pat(_) => self.pats.as_slice(),
        };
        let place = match node {
            BodyNode::Expr(e) => e as usize,
            BodyNode::Pat(p) => p as usize,
        };
        if place < slots.len() {
            slots[place]
        } else {
            Known::Nothing
        }
    }

    /// Stores what is known of a node's height.
    fn note(&mut self, node: BodyNode, known: Known)
        ensures { (other : BodyNode) → known_of self.new other ≡ (if same_node other node && is_node self.old.exprs.items self.old.pats.items node then known else known_of self.old other) }
    {
        match node {
            BodyNode::Expr(e) => note_at(&mut self.exprs, e, known),
            BodyNode::Pat(p) => note_at(&mut self.pats, p, known),
        }
    }
}

/// The height of a node, if it is less than `budget`. Each node is walked once: a node whose subtree the
/// walk is already inside lies on a cycle, so it has paths of any length.
#[cycle(heights)]
pub(crate) fn height(
    alloc: Global,
    body: &Body,
    heights: &mut Heights,
    node: BodyNode,
    budget: u64,
) -> Result<Option<u64>, NoMemory>
    requires { AreHeights body.now heights.old }
    ensures heights { OnOk result (AreHeights body.now heights.new) }
    ensures closed { IfOk result (λ found. IfSome found (λ _. LeavesNoneOpen heights.old heights.new)) }
    ensures height { IfOk result (λ found. IsHeight body.now heights.old budget node found) }
{
    match heights.known(node) {
        Known::Nothing => {}
        Known::Open => return Ok(None),
        Known::Height(height) => {
            return Ok(if height < budget { Some(height) } else { None });
        }
    }
    if budget == 0 {
        return Ok(None);
    }
    heights.note(node, Known::Open);
    let nodes = held_by(alloc, body, node)?;
    let Some(height) = levels_of(alloc, body, heights, nodes.as_slice(), budget - 1)? else {
        return Ok(None);
    };
    heights.note(node, Known::Height(height));
    Ok(Some(height))
}

/// One more than the greatest height of some nodes, if it is at most `budget`; 0 for no nodes.
#[cycle(heights)]
fn levels_of(
    alloc: Global,
    body: &Body,
    heights: &mut Heights,
    nodes: &[BodyNode],
    budget: u64,
) -> Result<Option<u64>, NoMemory>
    requires { AreHeights body.now heights.old }
    ensures heights { OnOk result (AreHeights body.now heights.new) }
    ensures closed { IfOk result (λ found. IfSome found (λ _. LeavesNoneOpen heights.old heights.new)) }
    ensures levels { IfOk result (λ found. AreLevels body.now heights.old budget nodes.now found) }
{
    let mut levels = 0;
    for (i, node) in nodes.iter().enumerate() {
        let Some(height) = height(alloc, body, heights, *node, budget)? else {
            return Ok(None);
        };
        levels = levels.max(height + 1);
    }
    Ok(Some(levels))
}
