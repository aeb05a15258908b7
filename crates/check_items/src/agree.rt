//! Whether functions agree with their bodies, and closures with their expressions.

ghost use Rattle.std.specs.Prelude.{◌≡◌};
ghost use Rattle.std.specs.Option.{option_copied};
ghost use Rattle.check_items.specs.Agree.{has_all_params, has_params, is_closure_of, is_closure_row, self_count};

use world::{BindingId, BodyRow, ClosureRow, Expr, FunctionRow, HirDatabase};

/// How many parameters `self` counts as: one if the body has it, else none.
fn self_count(self_param: Option<BindingId>) -> u64
    ensures { result ≡ self_count self_param }
{
    match self_param {
        Some(_) => 1,
        None => 0,
    }
}

/// Whether an optional body is none, or has `count` parameters with `self` included.
fn has_params(count: u64, row: Option<&BodyRow>) -> bool
    ensures { result ≡ has_params count (option_copied row.entry) }
{
    match row {
        Some(row) => {
            // A difference, since the sum could overflow.
            let own = self_count(row.body.self_param);
            count >= own && count - own == row.body.params.len()
        }
        None => true,
    }
}

/// Whether a function has no body, or one with as many parameters as its signature, `self` included.
pub fn has_all_params(db: &HirDatabase, row: &FunctionRow) -> bool
    ensures { result ≡ has_all_params db.now row.now }
{
    row.body.is_none_or(|place| has_params(row.sig.params.len(), db.bodies.get(place as u64)))
}

/// Whether an optional expression is a closure with `count` parameters.
fn is_closure_of(count: u64, expr: Option<&Expr>) -> bool
    ensures { result ≡ is_closure_of count (option_copied expr.entry) }
{
    match expr {
        Some(Expr::Closure { args, .. }) => args.len() == count,
        _ => false,
    }
}

/// Whether the expression of a closure's row is a closure with as many parameters as the row.
pub fn is_closure_row(db: &HirDatabase, row: &ClosureRow) -> bool
    ensures { result ≡ is_closure_row db.now row.now }
{
    db.body(row.owner).is_some_and(|body| is_closure_of(
        row.params.len(),
        body.exprs.get(row.expr.0 as u64),
    ))
}
