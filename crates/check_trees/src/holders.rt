//! The first parent (holder) of each node of a body.
ghost use Rattle.std.specs.Option.{option_or};
ghost use Rattle.std.specs.Prelude.{◌≡◌, ℕ, ◌<◌, ◌==◌, if◌then◌else◌, List, [], length, slice_index_or, IfOk};
ghost use Rattle.check_trees.specs.inner.Walks.{entry_of, AreFirstHolders, AreHolders};
ghost use Rattle.check_trees.specs.Tree.{held_pairs};

use crate::BodyNode;
use std::alloc::Global;
use world::{Body, NoMemory};

/// For each expression and each pattern of a body, the first node that has it as a child.
#[derive(Drop)]
pub(crate) struct Holders {
    exprs: Vec<Option<BodyNode>>,
    pats: Vec<Option<BodyNode>>,
}

/// Stores a parent at an index that has none yet.
fn note_holder(slots: &mut [Option<BodyNode>], place: usize, holder: BodyNode)
    ensures { (k : ℕ) → k < length slots.old → slice_index_or slots.new k None ≡ (if k == place then option_or (slice_index_or slots.old k None) (Some holder) else slice_index_or slots.old k None) }
{
    if place < slots.len() && slots[place].is_none() {
        slots[place] = Some(holder);
    }
}

/// Stores the first parent of each expression.
fn note_expr_holders(slots: &mut [Option<BodyNode>], pairs: &[(BodyNode, BodyNode)])
    requires { AreFirstHolders BodyNode.Expr [] slots.old }
    ensures { AreFirstHolders BodyNode.Expr pairs.now slots.new }
{
    for (i, pair) in pairs.iter().enumerate() {
        if let BodyNode::Expr(e) = pair.0 {
            note_holder(slots, e as usize, pair.1);
        }
    }
}

/// Stores the first parent of each pattern.
fn note_pat_holders(slots: &mut [Option<BodyNode>], pairs: &[(BodyNode, BodyNode)])
    requires { AreFirstHolders BodyNode.Pat [] slots.old }
    ensures { AreFirstHolders BodyNode.Pat pairs.now slots.new }
{
    for (i, pair) in pairs.iter().enumerate() {
        if let BodyNode::Pat(p) = pair.0 {
            note_holder(slots, p as usize, pair.1);
        }
    }
}

/// The first parent of each expression with an id below `nodes`.
fn expr_holders(
    alloc: Global,
    nodes: usize,
    pairs: &[(BodyNode, BodyNode)],
) -> Result<Vec<Option<BodyNode>>, NoMemory>
    ensures len { IfOk result (λ slots. length slots.items ≡ nodes) }
    ensures first { IfOk result (λ slots. AreFirstHolders BodyNode.Expr pairs.now slots.items) }
{
    let mut slots = vec![in alloc; None; nodes]?;
    note_expr_holders(&mut slots, pairs);
    Ok(slots)
}

/// The first parent of each pattern with an id below `nodes`.
fn pat_holders(
    alloc: Global,
    nodes: usize,
    pairs: &[(BodyNode, BodyNode)],
) -> Result<Vec<Option<BodyNode>>, NoMemory>
    ensures len { IfOk result (λ slots. length slots.items ≡ nodes) }
    ensures first { IfOk result (λ slots. AreFirstHolders BodyNode.Pat pairs.now slots.items) }
{
    let mut slots = vec![in alloc; None; nodes]?;
    note_pat_holders(&mut slots, pairs);
    Ok(slots)
}

impl Holders {
    /// The first parents of a body's nodes, from all its pairs of child and parent.
    pub(crate) fn of(
        alloc: Global,
        body: &Body,
        pairs: &[(BodyNode, BodyNode)],
    ) -> Result<Holders, NoMemory>
        requires { pairs.now ≡ held_pairs body.now }
        ensures { IfOk result (λ holders. AreHolders body.now holders) }
    {
        let exprs = expr_holders(alloc, body.exprs.len() as usize, pairs)?;
        let pats = pat_holders(alloc, body.pats.len() as usize, pairs)?;
        Ok(Holders { exprs, pats })
    }

    /// The first parent of a node; none for a node that the body doesn't have.
    pub(crate) fn holder(&self, node: BodyNode) -> Option<BodyNode>
        ensures { result ≡ entry_of self.now.exprs.items self.now.pats.items None node }
    {
        let slots = match node {
            BodyNode::Expr(_) => self.exprs.as_slice(),
            BodyNode::Pat(_) => self.pats.as_slice(),
        };
        let place = match node {
            BodyNode::Expr(e) => e as usize,
            BodyNode::Pat(p) => p as usize,
        };
        if place < slots.len() {
            slots[place]
        } else {
            None
        }
    }
}
