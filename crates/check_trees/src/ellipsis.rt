//! Patterns whose `..` stands past the end of their subpatterns.
ghost use Rattle.std.specs.Prelude.{◌≡◌, true};
ghost use Rattle.check_trees.specs.Ellipsis.{is_ellipsis_inside, is_within};
ghost use Rattle.check_trees.specs.First.{FindsFirst};

use world::{Body, Pat, PatId};

/// Whether the position of the `..`, if there is one, is at most the number of subpatterns.
fn is_within(ellipsis: Option<u32>, parts: &[PatId]) -> bool
    ensures { result ≡ is_within ellipsis parts.now }
{
    match ellipsis {
        None => true,
        Some(before) => before as usize <= parts.len(),
    }
}

/// Whether a pattern's `..` stands among its subpatterns or directly behind them.
fn is_ellipsis_inside(pat: &Pat) -> bool
    ensures { result ≡ is_ellipsis_inside pat.now }
{
    match pat {
        Pat::Tuple { args, ellipsis } => is_within(*ellipsis, args.as_slice()),
        Pat::TupleStruct { args, ellipsis } => is_within(*ellipsis, args.as_slice()),
        _ => true,
    }
}

/// The first of these patterns whose `..` stands past the end of its subpatterns.
fn wrong_ellipsis_among(pats: &[Pat]) -> Option<usize>
    ensures { FindsFirst (λ p pattern. is_ellipsis_inside pattern ≡ true) pats.now result }
{
    pats.iter().position(|pat| !is_ellipsis_inside(pat))
}

/// The first pattern of a body whose `..` stands past the end of its subpatterns.
pub fn wrong_ellipsis(body: &Body) -> Option<u64>
    ensures { FindsFirst (λ p pattern. is_ellipsis_inside pattern ≡ true) body.now.pats result }
{
    match wrong_ellipsis_among(body.pats.as_slice()) {
        Some(p) => Some(p as u64),
        None => None,
    }
}
