//! The table of operators, computed.

ghost use Rattle.std.specs.Prelude.{◌≡◌, ◌≤◌, IsTrue, true, false, length, bit_xor, bit_and, bit_or, ℕ, IfSome, IfNone, ◌&&◌, ◌==◌, not, Bool, Some};
ghost use Rattle.numbers.specs.declared.operator.Kind.{Kind};
ghost use Rattle.numbers.specs.Bytes.{is_width, number_of};
ghost use Rattle.numbers.specs.Operators.{compared, on_integers, on_two_signs, by_bits, is_comparison, is_on_booleans, sign_of, combined, computed};
ghost use Rattle.numbers.specs.Computed.{answer_of, count_of};

use crate::arithmetic::{
    added_signed, added_unsigned, divided_signed, divided_unsigned, multiplied_signed,
    multiplied_unsigned, remainder_signed, remainder_unsigned, subtracted_signed,
    subtracted_unsigned,
};
use crate::comparisons::{
    compared_signed, compared_signed_first, compared_signed_second, compared_unsigned,
};
use crate::kept::low_digits;
use crate::read::{is_width, signed, unsigned};
use crate::shifts::{shift, sign_of};
use crate::{Computed, Kind, Operator};

fn xored(left: &[u8], right: &[u8]) -> Computed
    requires width { IsTrue (is_width (length left.now)) }
    requires same { length left.now ≡ length right.now }
    ensures answer { answer_of result ≡ by_bits bit_xor left.now right.now }
    ensures count { count_of result ≤ 16 }
{
    let x = unsigned(left);
    let y = unsigned(right);
    low_digits(left.len(), x ^ y)
}

fn anded(left: &[u8], right: &[u8]) -> Computed
    requires width { IsTrue (is_width (length left.now)) }
    requires same { length left.now ≡ length right.now }
    ensures answer { answer_of result ≡ by_bits bit_and left.now right.now }
    ensures count { count_of result ≤ 16 }
{
    let x = unsigned(left);
    let y = unsigned(right);
    low_digits(left.len(), x & y)
}

fn ored(left: &[u8], right: &[u8]) -> Computed
    requires width { IsTrue (is_width (length left.now)) }
    requires same { length left.now ≡ length right.now }
    ensures answer { answer_of result ≡ by_bits bit_or left.now right.now }
    ensures count { count_of result ≤ 16 }
{
    let x = unsigned(left);
    let y = unsigned(right);
    low_digits(left.len(), x | y)
}

fn on_unsigned(op: Operator, left: &[u8], right: &[u8]) -> Computed
    requires width { IsTrue (is_width (length left.now)) }
    requires same { length left.now ≡ length right.now }
    ensures answer { answer_of result ≡ on_integers op false left.now right.now }
    ensures count { count_of result ≤ 16 }
{
    let size = left.len();
    let x = unsigned(left);
    let y = unsigned(right);
    match op {
        Operator::Add => added_unsigned(size, x, y),
        Operator::Sub => subtracted_unsigned(size, x, y),
        Operator::Mul => multiplied_unsigned(size, x, y),
        Operator::Div => divided_unsigned(size, x, y),
        Operator::Rem => remainder_unsigned(size, x, y),
        Operator::BitXor => xored(left, right),
        Operator::BitAnd => anded(left, right),
        Operator::BitOr => ored(left, right),
        _ => compared_unsigned(op, x, y),
    }
}

fn on_signed(op: Operator, left: &[u8], right: &[u8]) -> Computed
    requires width { IsTrue (is_width (length left.now)) }
    requires same { length left.now ≡ length right.now }
    ensures answer { answer_of result ≡ on_integers op true left.now right.now }
    ensures count { count_of result ≤ 16 }
{
    let size = left.len();
    let x = signed(left);
    let y = signed(right);
    match op {
        Operator::Add => added_signed(size, x, y),
        Operator::Sub => subtracted_signed(size, x, y),
        Operator::Mul => multiplied_signed(size, x, y),
        Operator::Div => divided_signed(size, x, y),
        Operator::Rem => remainder_signed(size, x, y),
        Operator::BitXor => xored(left, right),
        Operator::BitAnd => anded(left, right),
        Operator::BitOr => ored(left, right),
        _ => compared_signed(op, x, y),
    }
}

/// Comparisons of two integers, of which one is signed and one is not.
fn compared_across(op: Operator, left_signed: bool, left: &[u8], right: &[u8]) -> Computed
    requires left { IsTrue (is_width (length left.now)) }
    requires right { IsTrue (is_width (length right.now)) }
    ensures answer { answer_of result ≡ compared op (number_of left_signed left.now) (number_of (not left_signed) right.now) }
    ensures count { count_of result ≤ 16 }
{
    if left_signed {
        compared_signed_first(op, signed(left), unsigned(right))
    } else {
        compared_signed_second(op, unsigned(left), signed(right))
    }
}

/// The operators but shifts, on two integers of one length, of which one is signed and one is not.
fn on_two_signs(op: Operator, left_signed: bool, left: &[u8], right: &[u8]) -> Computed
    requires width { IsTrue (is_width (length left.now)) }
    requires same { length left.now ≡ length right.now }
    ensures answer { answer_of result ≡ on_two_signs op left_signed left.now right.now }
    ensures count { count_of result ≤ 16 }
{
    match op {
        Operator::BitXor => xored(left, right),
        Operator::BitAnd => anded(left, right),
        Operator::BitOr => ored(left, right),
        _ => compared_across(op, left_signed, left, right),
    }
}

/// Whether the left one of two integers is signed, where one of them is signed and one is not.
fn first_of_two_signs(left: Option<Kind>, right: Option<Kind>) -> Option<bool>
    ensures some { IfSome result (λ signed. (sign_of left ≡ Some signed) × (sign_of right ≡ Some (not signed))) }
    ensures none { IfNone result ((signed : Bool) → sign_of left ≡ Some signed → sign_of right ≡ Some (not signed) → ⊥) }
{
    let left = sign_of(left)?;
    let right = sign_of(right)?;
    if left == right { None } else { Some(left) }
}

/// The kind of both operands, where they have one.
fn common(left: Option<Kind>, right: Option<Kind>) -> Option<Kind>
    ensures some { IfSome result (λ kind. (left ≡ Some kind) × (right ≡ Some kind)) }
    ensures none { IfNone result ((kind : Kind) → left ≡ Some kind → right ≡ Some kind → ⊥) }
{
    let left = left?;
    let right = right?;
    if left == right { Some(left) } else { None }
}

#[tactic(auto, unfolding(crate::specs::Operators::is_on_booleans))]
fn is_on_booleans(op: Operator) -> bool
    ensures { result ≡ is_on_booleans op }
{
    match op {
        Operator::Add => false,
        Operator::Sub => false,
        Operator::Mul => false,
        Operator::Div => false,
        Operator::Rem => false,
        Operator::BitXor => true,
        Operator::BitAnd => true,
        Operator::BitOr => true,
        Operator::Shl => false,
        Operator::Shr => false,
        Operator::Eq => true,
        Operator::Ne => true,
        Operator::Lt => true,
        Operator::Le => true,
        Operator::Gt => true,
        Operator::Ge => true,
    }
}

#[tactic(auto, unfolding(crate::specs::Operators::is_comparison))]
fn is_comparison(op: Operator) -> bool
    ensures { result ≡ is_comparison op }
{
    match op {
        Operator::Add => false,
        Operator::Sub => false,
        Operator::Mul => false,
        Operator::Div => false,
        Operator::Rem => false,
        Operator::BitXor => false,
        Operator::BitAnd => false,
        Operator::BitOr => false,
        Operator::Shl => false,
        Operator::Shr => false,
        Operator::Eq => true,
        Operator::Ne => true,
        Operator::Lt => true,
        Operator::Le => true,
        Operator::Gt => true,
        Operator::Ge => true,
    }
}

fn fits_booleans(op: Operator, left: &[u8], right: &[u8]) -> bool
    ensures { result ≡ (is_on_booleans op && (length left.now == 1) && (length right.now == 1)) }
{
    is_on_booleans(op) && left.len() == 1 && right.len() == 1
}

/// Whether an operator is a comparison, and both operands are as long as a character.
fn fits_characters(op: Operator, left: &[u8], right: &[u8]) -> bool
    ensures { result ≡ (is_comparison op && (length left.now == 4) && (length right.now == 4)) }
{
    is_comparison(op) && left.len() == 4 && right.len() == 4
}

fn same_width(left: &[u8], right: &[u8]) -> bool
    ensures { result ≡ (is_width (length left.now) && (length left.now == length right.now)) }
{
    is_width(left.len()) && left.len() == right.len()
}

fn of_two_kinds(
    op: Operator,
    left_kind: Option<Kind>,
    right_kind: Option<Kind>,
    left: &[u8],
    right: &[u8],
) -> Computed
    requires { (kind : Kind) → left_kind ≡ Some kind → right_kind ≡ Some kind → ⊥ }
    ensures answer { answer_of result ≡ combined op left_kind right_kind left.now right.now }
    ensures count { count_of result ≤ 16 }
{
    match first_of_two_signs(left_kind, right_kind) {
        Some(left_signed) => {
            if same_width(left, right) {
                on_two_signs(op, left_signed, left, right)
            } else {
                Computed::Undefined
            }
        }
        None => Computed::Undefined,
    }
}

fn combined(
    op: Operator,
    left_kind: Option<Kind>,
    right_kind: Option<Kind>,
    left: &[u8],
    right: &[u8],
) -> Computed
    ensures answer { answer_of result ≡ combined op left_kind right_kind left.now right.now }
    ensures count { count_of result ≤ 16 }
{
    match common(left_kind, right_kind) {
        Some(Kind::Signed) => {
            if same_width(left, right) {
                on_signed(op, left, right)
            } else {
                Computed::Undefined
            }
        }
        Some(Kind::Unsigned) => {
            if same_width(left, right) {
                on_unsigned(op, left, right)
            } else {
                Computed::Undefined
            }
        }
        Some(Kind::Boolean) => {
            if fits_booleans(op, left, right) {
                on_unsigned(op, left, right)
            } else {
                Computed::Undefined
            }
        }
        Some(Kind::Character) => {
            if fits_characters(op, left, right) {
                on_unsigned(op, left, right)
            } else {
                Computed::Undefined
            }
        }
        None => of_two_kinds(op, left_kind, right_kind, left, right),
    }
}

/// What an operator makes of two operands, whose kinds and bytes are given.
pub fn compute(
    op: Operator,
    left_kind: Option<Kind>,
    right_kind: Option<Kind>,
    left: &[u8],
    right: &[u8],
) -> Computed
    ensures answer { answer_of result ≡ computed op left_kind right_kind left.now right.now }
    ensures count { count_of result ≤ 16 }
{
    match op {
        Operator::Shl => shift(op, left_kind, right_kind, left, right),
        Operator::Shr => shift(op, left_kind, right_kind, left, right),
        _ => combined(op, left_kind, right_kind, left, right),
    }
}
