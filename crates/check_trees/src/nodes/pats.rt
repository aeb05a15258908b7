//! The children of patterns.
ghost use Rattle.std.specs.Prelude.{◌≡◌, ◌++◌, OnOk};
ghost use Rattle.world.specs.Nodes.{inner_exprs_of, subpatterns_of};

use crate::nodes::parts::{
    push_expr, push_field_patterns, push_optional_pat, push_pat, push_pats, push_slice_patterns,
    push_two_optional,
};
use world::{NoMemory, Pat};

/// Adds the direct subpatterns of a pattern to a list, in the order of its fields. It fails only for want
/// of memory, and the list may then have only some of them.
pub fn push_subpatterns(out: &mut Vec<u64>, node: &Pat) -> Result<(), NoMemory>
    ensures { OnOk result (out.new.items ≡ out.old.items ++ subpatterns_of node.now) }
{
    match node {
        Pat::Tuple { args, ellipsis: _ } => push_pats(out, args.as_slice()),
        Pat::Or(alternatives) => push_pats(out, alternatives.as_slice()),
        Pat::Record { args } => push_field_patterns(out, args.as_slice()),
        Pat::Slice {
            prefix,
            slice,
            suffix,
        } => push_slice_patterns(out, prefix.as_slice(), *slice, suffix.as_slice()),
        Pat::Bind { id: _, subpat } => push_optional_pat(out, *subpat),
        Pat::TupleStruct { args, ellipsis: _ } => push_pats(out, args.as_slice()),
        Pat::Ref { pat } => push_pat(out, *pat),
        Pat::Box(pat) => push_pat(out, *pat),
        _ => Ok(()),
    }
}

/// Adds the expressions that stand directly in a pattern to a list, in the order of its fields. It fails
/// only for want of memory, and the list may then have only some of them.
pub fn push_inner_exprs(out: &mut Vec<u64>, node: &Pat) -> Result<(), NoMemory>
    ensures { OnOk result (out.new.items ≡ out.old.items ++ inner_exprs_of node.now) }
{
    match node {
        Pat::Range { start, end, .. } => push_two_optional(out, *start, *end),
        Pat::Lit(expr) => push_expr(out, *expr),
        Pat::Expr(expr) => push_expr(out, *expr),
        Pat::ConstBlock(expr) => push_expr(out, *expr),
        _ => Ok(()),
    }
}
