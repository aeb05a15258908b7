//! The labels that nodes name.
ghost use Rattle.std.specs.Prelude.{◌≡◌};
ghost use Rattle.world.specs.Nodes.{jump_label, scope_label};

use world::{Expr, LabelId};

/// The label that a jump names.
pub fn jump_label(node: &Expr) -> Option<LabelId>
    ensures { result ≡ jump_label node.now }
{
    match node {
        Expr::Break { label, .. } => *label,
        Expr::Continue { label } => *label,
        _ => None,
    }
}

/// The label of a loop or a block.
pub fn scope_label(node: &Expr) -> Option<LabelId>
    ensures { result ≡ scope_label node.now }
{
    match node {
        Expr::Loop { label, .. } => *label,
        Expr::Block { label, .. } => *label,
        _ => None,
    }
}
