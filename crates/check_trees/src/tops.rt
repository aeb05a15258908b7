//! Which nodes of a body are its root or its parameters.
ghost use Rattle.std.specs.Prelude.{◌≡◌, ℕ, ◌<◌, List, [], length, true, IfOk};
ghost use Rattle.check_trees.specs.inner.Walks.{is_node, AreMarked, AreTops};
ghost use Rattle.check_trees.specs.Tree.{is_top};

use crate::BodyNode;
use std::alloc::Global;
use world::{Body, NoMemory, PatId};

/// Marks the patterns of parameters.
fn mark_params(marks: &mut [bool], params: &[PatId])
    requires { AreMarked [] marks.old }
    ensures { AreMarked params.now marks.new }
{
    for (i, id) in params.iter().enumerate() {
        let place = id.0 as usize;
        if place < marks.len() {
            marks[place] = true;
        }
    }
}

/// Which patterns of a body are parameters.
pub(crate) fn top_marks(alloc: Global, body: &Body) -> Result<Vec<bool>, NoMemory>
    ensures { IfOk result (λ marks. AreTops body.now marks.items) }
{
    let mut marks = vec![in alloc; false; body.pats.len() as usize]?;
    mark_params(&mut marks, body.params.as_slice());
    Ok(marks)
}

/// Whether a node is the root or the pattern of a parameter.
pub(crate) fn is_top(body: &Body, marks: &[bool], node: BodyNode) -> bool
    requires marks { AreTops body.now marks.now }
    requires node { is_node body.now.exprs body.now.pats node ≡ true }
    ensures { result ≡ is_top body.now node }
{
    match node {
        BodyNode::Expr(e) => e == body.body_expr.0 as u64,
        BodyNode::Pat(p) => (p as usize) < marks.len() && marks[p as usize],
    }
}
