//! The operators on one operand.

ghost use Rattle.std.specs.Prelude.{◌≡◌, ◌≤◌, IsTrue, length, true};
ghost use Rattle.numbers.specs.Bytes.{is_width};
ghost use Rattle.numbers.specs.Operators.{negated, inverted, denied};
ghost use Rattle.numbers.specs.Computed.{answer_of, count_of};

use crate::kept::{low_digits, truth_value};
use crate::read::{is_width, unsigned};
use crate::{Computed, Kind};

#[tactic(auto, unfolding(crate::specs::Operators::denied))]
fn denied(bytes: &[u8]) -> Computed
    ensures answer { answer_of result ≡ denied bytes.now }
    ensures count { count_of result ≤ 16 }
{
    if bytes.len() == 1 {
        truth_value(bytes[0] == 0)
    } else {
        Computed::Undefined
    }
}

/// Unary minus, which wraps; on bool it is `!`.
#[tactic(auto, unfolding(crate::specs::Operators::negated))]
pub fn negate(kind: Option<Kind>, bytes: &[u8]) -> Computed
    ensures answer { answer_of result ≡ negated kind bytes.now }
    ensures count { count_of result ≤ 16 }
{
    match kind {
        Some(Kind::Boolean) => denied(bytes),
        Some(Kind::Signed) => {
            if is_width(bytes.len()) {
                low_digits(bytes.len(), unsigned(bytes).wrapping_neg())
            } else {
                Computed::Undefined
            }
        }
        Some(Kind::Unsigned) => {
            if is_width(bytes.len()) {
                low_digits(bytes.len(), unsigned(bytes).wrapping_neg())
            } else {
                Computed::Undefined
            }
        }
        Some(Kind::Character) => Computed::Undefined,
        None => Computed::Undefined,
    }
}

/// `!`: every bit the other way on integers, and 1 for 0, else 0, on bool.
#[tactic(auto, unfolding(crate::specs::Operators::inverted))]
pub fn invert(kind: Option<Kind>, bytes: &[u8]) -> Computed
    ensures answer { answer_of result ≡ inverted kind bytes.now }
    ensures count { count_of result ≤ 16 }
{
    match kind {
        Some(Kind::Boolean) => denied(bytes),
        Some(Kind::Signed) => {
            if is_width(bytes.len()) {
                low_digits(bytes.len(), !unsigned(bytes))
            } else {
                Computed::Undefined
            }
        }
        Some(Kind::Unsigned) => {
            if is_width(bytes.len()) {
                low_digits(bytes.len(), !unsigned(bytes))
            } else {
                Computed::Undefined
            }
        }
        Some(Kind::Character) => Computed::Undefined,
        None => Computed::Undefined,
    }
}
