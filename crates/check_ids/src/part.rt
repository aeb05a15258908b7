//! Parts of a typed body.

/// A part of a typed body in which an id can be out of range or a list too long.
#[derive(Clone, Copy)]
pub enum BodyPart {
    /// The list of expressions, which is too long.
    Exprs,
    Expr(u64),
    /// The list of patterns, which is too long.
    Pats,
    Pat(u64),
    /// The list of bindings, which is too long.
    Bindings,
    Binding(u64),
    /// The list of labels, which is too long.
    Labels,
    /// The parameters, the root, or the inference result.
    Rest,
}
