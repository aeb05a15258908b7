//! Arithmetic on numbers, with the result in the bytes of their type.

ghost use Rattle.std.specs.Prelude.{◌≡◌, ◌≤◌, IsTrue, true, false, pos, ◌+ℤ◌, ◌-ℤ◌, ◌*ℤ◌, int_div, int_rem};
ghost use Rattle.numbers.specs.Bytes.{is_width};
ghost use Rattle.numbers.specs.Operators.{kept, divided};
ghost use Rattle.numbers.specs.Computed.{answer_of, count_of};

use crate::kept::{
    holds_signed, holds_unsigned, kept_signed, kept_unsigned, low_bytes, low_digits,
};
use crate::{Computed, Operator};

pub(crate) fn added_unsigned(size: usize, left: u128, right: u128) -> Computed
    requires { IsTrue (is_width size) }
    ensures answer { answer_of result ≡ kept Operator.Add false size (pos left +ℤ pos right) }
    ensures count { count_of result ≤ 16 }
{
    match left.checked_add(right) {
        Some(exact) => kept_unsigned(Operator::Add, size, exact),
        None => Computed::Panics(Operator::Add),
    }
}

pub(crate) fn added_signed(size: usize, left: i128, right: i128) -> Computed
    requires { IsTrue (is_width size) }
    ensures answer { answer_of result ≡ kept Operator.Add true size (left +ℤ right) }
    ensures count { count_of result ≤ 16 }
{
    match left.checked_add(right) {
        Some(exact) => kept_signed(Operator::Add, size, exact),
        None => Computed::Panics(Operator::Add),
    }
}

pub(crate) fn subtracted_unsigned(size: usize, left: u128, right: u128) -> Computed
    requires { IsTrue (is_width size) }
    ensures answer { answer_of result ≡ kept Operator.Sub false size (pos left -ℤ pos right) }
    ensures count { count_of result ≤ 16 }
{
    match left.checked_sub(right) {
        Some(exact) => kept_unsigned(Operator::Sub, size, exact),
        None => Computed::Panics(Operator::Sub),
    }
}

pub(crate) fn subtracted_signed(size: usize, left: i128, right: i128) -> Computed
    requires { IsTrue (is_width size) }
    ensures answer { answer_of result ≡ kept Operator.Sub true size (left -ℤ right) }
    ensures count { count_of result ≤ 16 }
{
    match left.checked_sub(right) {
        Some(exact) => kept_signed(Operator::Sub, size, exact),
        None => Computed::Panics(Operator::Sub),
    }
}

pub(crate) fn multiplied_unsigned(size: usize, left: u128, right: u128) -> Computed
    requires { IsTrue (is_width size) }
    ensures answer { answer_of result ≡ kept Operator.Mul false size (pos left *ℤ pos right) }
    ensures count { count_of result ≤ 16 }
{
    match left.checked_mul(right) {
        Some(exact) => kept_unsigned(Operator::Mul, size, exact),
        None => Computed::Panics(Operator::Mul),
    }
}

pub(crate) fn multiplied_signed(size: usize, left: i128, right: i128) -> Computed
    requires { IsTrue (is_width size) }
    ensures answer { answer_of result ≡ kept Operator.Mul true size (left *ℤ right) }
    ensures count { count_of result ≤ 16 }
{
    match left.checked_mul(right) {
        Some(exact) => kept_signed(Operator::Mul, size, exact),
        None => Computed::Panics(Operator::Mul),
    }
}

pub(crate) fn divided_unsigned(size: usize, left: u128, right: u128) -> Computed
    requires { IsTrue (is_width size) }
    ensures answer { answer_of result ≡ divided Operator.Div false size (pos left) (pos right) (int_div (pos left) (pos right)) }
    ensures count { count_of result ≤ 16 }
{
    match left.checked_div(right) {
        Some(quotient) => kept_unsigned(Operator::Div, size, quotient),
        None => Computed::Panics(Operator::Div),
    }
}

pub(crate) fn remainder_unsigned(size: usize, left: u128, right: u128) -> Computed
    requires { IsTrue (is_width size) }
    ensures answer { answer_of result ≡ divided Operator.Rem false size (pos left) (pos right) (int_rem (pos left) (pos right)) }
    ensures count { count_of result ≤ 16 }
{
    match left.checked_div(right) {
        Some(quotient) => {
            if holds_unsigned(size, quotient) {
                low_digits(size, left % right)
            } else {
                Computed::Panics(Operator::Rem)
            }
        }
        None => Computed::Panics(Operator::Rem),
    }
}

pub(crate) fn divided_signed(size: usize, left: i128, right: i128) -> Computed
    requires { IsTrue (is_width size) }
    ensures answer { answer_of result ≡ divided Operator.Div true size left right (int_div left right) }
    ensures count { count_of result ≤ 16 }
{
    match left.checked_div(right) {
        Some(quotient) => kept_signed(Operator::Div, size, quotient),
        None => Computed::Panics(Operator::Div),
    }
}

pub(crate) fn remainder_signed(size: usize, left: i128, right: i128) -> Computed
    requires { IsTrue (is_width size) }
    ensures answer { answer_of result ≡ divided Operator.Rem true size left right (int_rem left right) }
    ensures count { count_of result ≤ 16 }
{
    match left.checked_div(right) {
        Some(quotient) => {
            if holds_signed(size, quotient) {
                low_bytes(size, left % right)
            } else {
                Computed::Panics(Operator::Rem)
            }
        }
        None => Computed::Panics(Operator::Rem),
    }
}
