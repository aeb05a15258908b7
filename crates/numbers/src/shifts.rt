//! Shifts of one integer by another.

ghost use Rattle.std.specs.Prelude.{◌≡◌, ℕ, ◌*◌, ◌<◌, ◌≤◌, IsTrue, true, length, IfSome, IfNone, pos, ◌&&◌};
ghost use Rattle.numbers.specs.Bytes.{is_width, number_of};
ghost use Rattle.numbers.specs.Operators.{shifted, shifted_by, shift, sign_of};
ghost use Rattle.numbers.specs.Computed.{answer_of, count_of};

use crate::kept::{low_bytes, low_digits};
use crate::read::{is_width, signed, unsigned};
use crate::{Computed, Kind, Operator};

fn shifted(op: Operator, is_signed: bool, bytes: &[u8], amount: u32) -> Computed
    requires width { IsTrue (is_width (length bytes.now)) }
    requires amount { amount < 8 * length bytes.now }
    ensures answer { answer_of result ≡ shifted op is_signed bytes.now amount }
    ensures count { count_of result ≤ 16 }
{
    let size = bytes.len();
    match op {
        Operator::Shl => low_digits(size, unsigned(bytes) << amount),
        Operator::Shr => {
            if is_signed {
                low_bytes(size, signed(bytes) >> amount)
            } else {
                low_digits(size, unsigned(bytes) >> amount)
            }
        }
        _ => Computed::Undefined,
    }
}

/// The amount of a shift, where it is a number from 0 to below the number of bits.
fn amount(is_signed: bool, bytes: &[u8], bits: u32) -> Option<u32>
    requires { IsTrue (is_width (length bytes.now)) }
    ensures some { IfSome result (λ k. (number_of is_signed bytes.now ≡ pos k) × (k < bits)) }
    ensures none { IfNone result ((k : ℕ) → number_of is_signed bytes.now ≡ pos k → bits ≤ k) }
{
    if is_signed {
        let number = signed(bytes);
        if number < 0 {
            return None;
        }
        if number < bits as i128 {
            Some(number as u32)
        } else {
            None
        }
    } else {
        let number = unsigned(bytes);
        if number < bits as u128 {
            Some(number as u32)
        } else {
            None
        }
    }
}

fn shifted_by(
    op: Operator,
    left_signed: bool,
    right_signed: bool,
    left: &[u8],
    right: &[u8],
) -> Computed
    requires left { IsTrue (is_width (length left.now)) }
    requires right { IsTrue (is_width (length right.now)) }
    ensures answer { answer_of result ≡ shifted_by op left_signed left.now (number_of right_signed right.now) }
    ensures count { count_of result ≤ 16 }
{
    match amount(right_signed, right, 8 * left.len() as u32) {
        Some(amount) => shifted(op, left_signed, left, amount),
        None => Computed::Panics(op),
    }
}

#[tactic(auto, unfolding(crate::specs::Operators::sign_of))]
pub(crate) fn sign_of(kind: Option<Kind>) -> Option<bool>
    ensures { result ≡ sign_of kind }
{
    match kind {
        Some(Kind::Signed) => Some(true),
        Some(Kind::Unsigned) => Some(false),
        Some(Kind::Boolean) => None,
        Some(Kind::Character) => None,
        None => None,
    }
}

fn both_widths(left: &[u8], right: &[u8]) -> bool
    ensures { result ≡ (is_width (length left.now) && is_width (length right.now)) }
{
    is_width(left.len()) && is_width(right.len())
}

/// A shift of one integer by another, of any two integer types.
pub(crate) fn shift(
    op: Operator,
    left_kind: Option<Kind>,
    right_kind: Option<Kind>,
    left: &[u8],
    right: &[u8],
) -> Computed
    ensures answer { answer_of result ≡ shift op (sign_of left_kind) (sign_of right_kind) left.now right.now }
    ensures count { count_of result ≤ 16 }
{
    let Some(left_signed) = sign_of(left_kind) else {
        return Computed::Undefined;
    };
    let Some(right_signed) = sign_of(right_kind) else {
        return Computed::Undefined;
    };
    if both_widths(left, right) {
        shifted_by(op, left_signed, right_signed, left, right)
    } else {
        Computed::Undefined
    }
}
