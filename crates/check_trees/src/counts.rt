//! How often each node of a body occurs as a child of another node.
ghost use Rattle.std.specs.Prelude.{◌≡◌, ℕ, ◌<◌, List, [], length, IfOk};
ghost use Rattle.check_trees.specs.inner.Walks.{entry_of, AreCounts, AreTimes};
ghost use Rattle.check_trees.specs.Tree.{held_pairs};

use crate::BodyNode;
use std::alloc::Global;
use world::{Body, NoMemory};

/// For each expression and each pattern of a body, how often it occurs as a child.
#[derive(Drop)]
pub(crate) struct NodeCounts {
    exprs: Vec<u64>,
    pats: Vec<u64>,
}

/// Counts for each expression how often it is the child in a pair of child and parent.
fn count_exprs(counts: &mut [u64], pairs: &[(BodyNode, BodyNode)])
    requires { AreTimes BodyNode.Expr [] counts.old }
    ensures { AreTimes BodyNode.Expr pairs.now counts.new }
{
    for (i, pair) in pairs.iter().enumerate() {
        if let BodyNode::Expr(e) = pair.0 {
            let place = e as usize;
            if place < counts.len() {
                counts[place] += 1;
            }
        }
    }
}

/// Counts for each pattern how often it is the child in a pair of child and parent.
fn count_pats(counts: &mut [u64], pairs: &[(BodyNode, BodyNode)])
    requires { AreTimes BodyNode.Pat [] counts.old }
    ensures { AreTimes BodyNode.Pat pairs.now counts.new }
{
    for (i, pair) in pairs.iter().enumerate() {
        if let BodyNode::Pat(p) = pair.0 {
            let place = p as usize;
            if place < counts.len() {
                counts[place] += 1;
            }
        }
    }
}

/// For each expression with an id below `nodes`, how often it is the child in a pair.
fn expr_counts(
    alloc: Global,
    nodes: usize,
    pairs: &[(BodyNode, BodyNode)],
) -> Result<Vec<u64>, NoMemory>
    ensures len { IfOk result (λ counts. length counts.items ≡ nodes) }
    ensures times { IfOk result (λ counts. AreTimes BodyNode.Expr pairs.now counts.items) }
{
    let mut counts = vec![in alloc; 0u64; nodes]?;
    count_exprs(&mut counts, pairs);
    Ok(counts)
}

/// For each pattern with an id below `nodes`, how often it is the child in a pair.
fn pat_counts(
    alloc: Global,
    nodes: usize,
    pairs: &[(BodyNode, BodyNode)],
) -> Result<Vec<u64>, NoMemory>
    ensures len { IfOk result (λ counts. length counts.items ≡ nodes) }
    ensures times { IfOk result (λ counts. AreTimes BodyNode.Pat pairs.now counts.items) }
{
    let mut counts = vec![in alloc; 0u64; nodes]?;
    count_pats(&mut counts, pairs);
    Ok(counts)
}

impl NodeCounts {
    /// The counts of a body, from all its pairs of child and parent.
    pub(crate) fn of(
        alloc: Global,
        body: &Body,
        pairs: &[(BodyNode, BodyNode)],
    ) -> Result<NodeCounts, NoMemory>
        requires { pairs.now ≡ held_pairs body.now }
        ensures { IfOk result (λ counts. AreCounts body.now counts) }
    {
        let exprs = expr_counts(alloc, body.exprs.len() as usize, pairs)?;
        let pats = pat_counts(alloc, body.pats.len() as usize, pairs)?;
        Ok(NodeCounts { exprs, pats })
    }

    /// How often a node occurs as a child; 0 for a node that the body doesn't have.
    pub(crate) fn count(&self, node: BodyNode) -> u64
        ensures { result ≡ entry_of self.now.exprs.items self.now.pats.items 0 node }
    {
        let counts = match node {
            BodyNode::Expr(_) => self.exprs.as_slice(),
            BodyNode::Pat(_) => self.pats.as_slice(),
        };
        let place = match node {
            BodyNode::Expr(e) => e as usize,
            BodyNode::Pat(p) => p as usize,
        };
        if place < counts.len() {
            counts[place]
        } else {
            0
        }
    }
}
