//! Nodes of a body: expressions and patterns.

/// An expression or a pattern of a body, by its id.
#[derive(Clone, Copy)]
pub enum BodyNode {
    Expr(u64),
    Pat(u64),
}
