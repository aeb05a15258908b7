//! Checks of a body's shape: it is a tree, its jumps name enclosing labels, and the `..` of its patterns
//! stand within them.
#![tactic(auto)]

mod counts;
mod ellipsis;
mod facts;
mod heights;
mod held;
mod holders;
mod jumps;
mod node;
mod nodes;
mod order;
mod reach;
mod tops;

pub use ellipsis::wrong_ellipsis;
pub use jumps::wrong_jump;
pub use node::BodyNode;
pub use nodes::{
    jump_label, push_children, push_inner_exprs, push_patterns, push_subpatterns, scope_label,
};
pub use order::wrong_node;
