//! Facts about a body's nodes that are computed before the walk over its tree.
ghost use Rattle.std.specs.Prelude.{◌≡◌, true, IfOk};
ghost use Rattle.check_trees.specs.inner.Walks.{is_node, AreFacts};
ghost use Rattle.check_trees.specs.Tree.{has_one_holder};

use crate::BodyNode;
use crate::counts::NodeCounts;
use crate::held::held_pairs;
use crate::tops::{is_top, top_marks};
use std::alloc::Global;
use world::{Body, NoMemory};

/// How often each node occurs as a child, and which patterns are parameters.
#[derive(Drop)]
pub(crate) struct Facts {
    counts: NodeCounts,
    tops: Vec<bool>,
}

impl Facts {
    /// The facts about a body's nodes.
    pub(crate) fn of(alloc: Global, body: &Body) -> Result<Facts, NoMemory>
        ensures { IfOk result (λ facts. AreFacts body.now facts) }
    {
        let pairs = held_pairs(alloc, body)?;
        let held = pairs.as_slice();
        let counts = NodeCounts::of(alloc, body, held)?;
        let tops = top_marks(alloc, body)?;
        Ok(Facts { counts, tops })
    }

    /// Whether a node is the root or a parameter, or occurs at most once as a child.
    pub(crate) fn has_one_holder(&self, body: &Body, node: BodyNode) -> bool
        requires facts { AreFacts body.now self.now }
        requires there { is_node body.now.exprs body.now.pats node ≡ true }
        ensures { result ≡ has_one_holder body.now node }
    {
        is_top(body, self.tops.as_slice(), node) || self.counts.count(node) <= 1
    }
}
