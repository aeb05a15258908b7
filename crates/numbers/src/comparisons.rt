//! Comparisons of whole numbers.

ghost use Rattle.std.specs.Prelude.{◌≡◌, ℕ, ◌≤◌, IfSome, IfNone, pos};
ghost use Rattle.numbers.specs.Computed.{answer_of, count_of};
ghost use Rattle.numbers.specs.Operators.{compared};

use crate::kept::truth_value;
use crate::{Computed, Operator};

pub(crate) fn compared_unsigned(op: Operator, x: u128, y: u128) -> Computed
    ensures answer { answer_of result ≡ compared op (pos x) (pos y) }
    ensures count { count_of result ≤ 16 }
{
    match op {
        Operator::Eq => truth_value(x == y),
        Operator::Lt => truth_value(x < y),
        Operator::Le => truth_value(x <= y),
        Operator::Ne => truth_value(x != y),
        Operator::Ge => truth_value(x >= y),
        Operator::Gt => truth_value(x > y),
        _ => Computed::Undefined,
    }
}

pub(crate) fn compared_signed(op: Operator, x: i128, y: i128) -> Computed
    ensures answer { answer_of result ≡ compared op x y }
    ensures count { count_of result ≤ 16 }
{
    match op {
        Operator::Eq => truth_value(x == y),
        Operator::Lt => truth_value(x < y),
        Operator::Le => truth_value(x <= y),
        Operator::Ne => truth_value(x != y),
        Operator::Ge => truth_value(x >= y),
        Operator::Gt => truth_value(x > y),
        _ => Computed::Undefined,
    }
}

/// The natural number that a whole number is, where it isn't negative.
fn natural(x: i128) -> Option<u128>
    ensures some { IfSome result (λ n. x ≡ pos n) }
    ensures none { IfNone result ((n : ℕ) → x ≡ pos n → ⊥) }
{
    if x < 0 { None } else { Some(x as u128) }
}

/// Comparisons of a signed number with an unsigned one. A negative number is to each natural one as 0 is to 1.
pub(crate) fn compared_signed_first(op: Operator, x: i128, y: u128) -> Computed
    ensures answer { answer_of result ≡ compared op x (pos y) }
    ensures count { count_of result ≤ 16 }
{
    match natural(x) {
        Some(n) => compared_unsigned(op, n, y),
        None => compared_unsigned(op, 0, 1),
    }
}

/// Comparisons of an unsigned number with a signed one.
pub(crate) fn compared_signed_second(op: Operator, x: u128, y: i128) -> Computed
    ensures answer { answer_of result ≡ compared op (pos x) y }
    ensures count { count_of result ≤ 16 }
{
    match natural(y) {
        Some(n) => compared_unsigned(op, x, n),
        None => compared_unsigned(op, 1, 0),
    }
}
