//! The children of a body's nodes, and the labels that nodes name.

mod exprs;
mod labels;
mod parts;
mod pats;

pub use exprs::{push_children, push_patterns};
pub use labels::{jump_label, scope_label};
pub use pats::{push_inner_exprs, push_subpatterns};
